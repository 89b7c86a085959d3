// Whether a table's terms are well formed: each laid out, and none repeated. It goes once over the table, searching for
// repeats only where a term's marks are set already. What it clears grows with the count of terms. The public function has no
// `requires`.
#![tactic(auto)]

ghost use Rattle.std.specs.Prelude.{◌&&◌, ◌≡◌, ◌-◌, ◌<◌, ◌≤◌, min};
ghost use Rattle.semantics.specs.Terms.{terms_in, well_formed};
ghost use Rattle.terms.specs.Search.{find_above};
ghost use Rattle.repeats.specs.Marks.{mark_count, times_of, mark_of, Holds};

use semantics::Term;

// How many marks there are by a factor: a prime above every field.
const MARKS: usize = 65537;

// As many bits as a mark can have.
const ALL_BITS: usize = 131071;

// For few terms, and for some more, the low bits of a mark are kept alone, so that there is less to clear: eight marks for
// each term.
const FEW: u16 = 128;

const FEW_MARKS: usize = 1024;

const MORE: u16 = 1024;

const MORE_MARKS: usize = 8192;

// The factor of a term's first mark. Both factors were chosen by trial: few terms of a table find both marks set.
const FIRST: u32 = 17271;

// The factor of a term's second mark.
const SECOND: u32 = 57142;

// The product modulo the count of marks.
fn times(x: u32, y: u32) -> u32
    ensures { result ≡ times_of x y }
{
    (x as usize * y as usize % MARKS) as u32
}

// The mark of a term by a factor. No two word constants share a first mark (`words_apart`).
#[tactic(auto, unfolding(crate::specs::Marks::mark_of))]
fn mark_of(t: Term, factor: u32) -> usize
    ensures { result ≡ mark_of factor t }
{
    let y = u32::from(t.b) + times(factor, u32::from(t.c));
    let x = u32::from(t.a) + times(factor, y);
    let w = u32::from(t.op) + 1 + times(factor, u32::from(t.kind));
    times(x, w) as usize
}

// Whether t is one of the first i terms. It is searched for only where each of its marks is one of theirs.
fn repeated(table: &[u8], i: u16, t: Term, first: bool, second: bool) -> bool
    ensures { result ≡ (first && (second && (find_above (terms_in table.now i) t).is)) }
{
    first && second && terms::find(table, i, t).is_some()
}

// Whether every one of the first n terms is laid out and none is repeated, by marks of which the bits of `bits` are
// kept. Equal terms have equal marks, so that a term with a mark that is not set yet is a new one; a mark that was set
// before would only cost a search. The loop takes slices: a loop for each count of marks, by a const parameter, took up to a
// quarter longer on 8,192 terms.
fn formed_by(
    table: &[u8],
    n: u16,
    accepted: u16,
    first: &mut [bool],
    second: &mut [bool],
    bits: usize,
) -> bool
    requires first_held { Holds bits first.old }
    requires second_held { Holds bits second.old }
    ensures { result ≡ well_formed accepted (terms_in table.now n) }
{
    for i in 0..n {
        let t = records::term_at(table, i);
        if !layout::laid_out(table, i, accepted, t) {
            return false;
        }
        let l = mark_of(t, FIRST) & bits;
        let m = mark_of(t, SECOND) & bits;
        if repeated(table, i, t, first[l], second[m]) {
            return false;
        }
        first[l] = true;
        second[m] = true;
    }
    true
}

// The same, by N marks of each factor.
fn formed_in<const N: usize>(table: &[u8], n: u16, accepted: u16, bits: usize) -> bool
    requires held { min bits (mark_count - 1) < N }
    requires few { N ≤ mark_count }
    ensures { result ≡ well_formed accepted (terms_in table.now n) }
{
    let mut first = [false; N];
    let mut second = [false; N];
    formed_by(table, n, accepted, &mut first, &mut second, bits)
}

// Whether the first n terms are well formed, tested with as many marks as their count asks for.
pub fn well_formed(table: &[u8], n: u16, accepted: u16) -> bool
    ensures { result ≡ well_formed accepted (terms_in table.now n) }
{
    match n {
        0..=FEW => formed_in::<FEW_MARKS>(table, n, accepted, FEW_MARKS - 1),
        ..=MORE => formed_in::<MORE_MARKS>(table, n, accepted, MORE_MARKS - 1),
        _ => formed_in::<MARKS>(table, n, accepted, ALL_BITS),
    }
}
