// The fields of a record or of a term: whether an unused one is zero, the word of a datum, and eight bytes written of them. Only
// `write` has a `requires`: the room for a record.
#![tactic(auto)]

ghost use Rattle.std.specs.Prelude.{◌≡◌, ◌++◌, ◌≤◌, length, drop};
ghost use Rattle.semantics.specs.Records.{record_bytes, datum_word, field_of};

use semantics::Record;
use words::Word;

// The word of a datum.
pub fn datum_word(x: Record) -> Word
    ensures { result ≡ datum_word x }
{
    words::join(x.p, x.q)
}

// Field i of a record or a term that uses the first u: any value where it is used, and 0 where it is not.
#[tactic(auto, using(notation::proofs::Follow::values), unfolding(semantics::specs::Records::field_of))]
pub fn field(u: u8, i: u8, v: u16) -> bool
    ensures { result ≡ field_of u i v }
{
    i < u || v == 0
}

// A record, or a term, of these fields at the start of a slice.
// The fields one by one, as `record_bytes` has them: a term and what a plain run stores are both written by it.
pub fn write(tail: &mut [u8], kind: u8, op: u8, p: u16, q: u16, r: u16)
    requires { 8 ≤ length tail.old }
    ensures { tail.new ≡ record_bytes kind op p q r ++ drop 8 tail.old }
{
    tail[0] = kind;
    tail[1] = op;
    tail[2..4].copy_from_slice(&p.to_le_bytes());
    tail[4..6].copy_from_slice(&q.to_le_bytes());
    tail[6..8].copy_from_slice(&r.to_le_bytes());
}
