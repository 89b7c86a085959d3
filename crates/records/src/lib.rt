// Records of 8 bytes in a lent byte slice, read as a rule's and as a table's. What stands past the last byte reads as 0, so
// nothing reads past a slice whatever its length. No public function has a `requires`.
#![tactic(auto)]

ghost use Rattle.std.specs.Prelude.{◌≡◌, ◌+◌, ◌<◌, ◌^◌};
ghost use Rattle.semantics.specs.Records.{pair_at, record_at};
ghost use Rattle.semantics.specs.Terms.{term_at};

use semantics::{Record, Term};

// The record with a number, of a rule. A whole one is cut out of its own 8 bytes, so that one bound is tested for all of
// them.
pub fn record_at(s: &[u8], i: u16) -> Record
    ensures { result ≡ record_at s.now i }
{
    let from = 8 * usize::from(i);
    match s.get(from..from + 8) {
        Some(whole) => cut(whole, 0),
        None => cut(s, i),
    }
}

// The record with a number, with a bound tested for each byte: a record past the end of the slice has zeros there.
fn cut(s: &[u8], i: u16) -> Record
    ensures { result ≡ record_at s.now i }
{
    let at = 8 * usize::from(i);
    Record {
        kind: slices::byte(s, at),
        op: slices::byte(s, at + 1),
        p: pair_at(s, at + 2),
        q: pair_at(s, at + 4),
        r: pair_at(s, at + 6),
    }
}

// The number of the two bytes at a position.
fn pair_at(s: &[u8], at: usize) -> u16
    requires { at + 1 < 2 ^ 64 }
    ensures { result ≡ pair_at s.now at }
{
    slices::pair(slices::byte(s, at), slices::byte(s, at + 1))
}

// The term with a number, of a table, whose records are cut as a rule's are: kind, op and three fields of two bytes.
// Field by field: both structs are of `semantics`, so that no `From` between them can stand here.
pub fn term_at(s: &[u8], i: u16) -> Term
    ensures { result ≡ term_at s.now i }
{
    let x = record_at(s, i);
    Term {
        kind: x.kind,
        op: x.op,
        a: x.p,
        b: x.q,
        c: x.r,
    }
}
