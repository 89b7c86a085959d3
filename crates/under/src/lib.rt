// The terms under a result, marked in a work list: S, T, the value, and those that they are read from. What is read of a
// result is read of these alone. No public function has a `requires`.
#![tactic(auto)]

ghost use Rattle.std.specs.Prelude.{◌≡◌, ◌≤◌, leb, length};
ghost use Rattle.semantics.specs.Terms.{terms_in};
ghost use Rattle.semantics.specs.Under.{from_first, from_second, from_third, with_term, with_lower, down_from, named_by};
ghost use Rattle.under.specs.Marks.{mark_place, Sets, MarksUnder};

use reader::Place;
use semantics::{Result, Term, numbers};
use words::WORDS;

// What a marked place has beside the reading that it holds.
pub const MARK: Place = 256 * WORDS;

// Whether a place is marked.
pub fn is_marked(n: Place) -> bool
    ensures { result ≡ leb mark_place n }
{
    MARK <= n
}

// Marks the places of the terms under a result, of a table with `count` terms; no other place is marked then. A list that is
// shorter than the count is left as it was.
pub fn mark_under(table: &[u8], count: u16, res: Result, work: &mut [Place])
    ensures { MarksUnder table.now count res work.old work.new }
{
    if work.len() < count as usize {
        return;
    }
    mark_result(count, res, work);
    mark_down(table, count, work);
}

// S, T and the value; a halt has none.
fn mark_result(count: u16, res: Result, work: &mut [Place])
    requires { count ≤ length work.old }
    ensures { Sets (λ m. named_by count res) work.old work.new }
{
    reader::wipe(work);
    mark(true, count, res.state.assumed, work);
    mark(true, count, res.state.asserted, work);
    mark(!res.halted, count, res.value, work);
}

// From the newest term down: a marked one marks those that it is read from.
fn mark_down(table: &[u8], count: u16, work: &mut [Place])
    requires { count ≤ length work.old }
    ensures { Sets (down_from (terms_in table.now count)) work.old work.new }
{
    for i in (0..count).rev() {
        if is_marked(work[i as usize]) {
            mark_lower(i, records::term_at(table, i), work);
        }
    }
}

// Those that a term, which has the number i, is read from.
fn mark_lower(i: u16, t: Term, work: &mut [Place])
    requires { i ≤ length work.old }
    ensures { Sets (with_lower i t) work.old work.new }
{
    mark(from_first(t), i, t.a, work);
    mark(from_second(t), i, t.b, work);
    mark(from_third(t), i, t.c, work);
}

// Marks term k, where it is asked for and below i. A struct of the list and the bound would be no plainer: it would have to be
// made for each term, with that term as the bound.
fn mark(asked: bool, i: u16, k: u16, work: &mut [Place])
    requires { i ≤ length work.old }
    ensures { Sets (with_term asked i k) work.old work.new }
{
    if asked && k < i {
        work[k as usize] = MARK;
    }
}

// An operator's first operand, and a choice's guard.
#[tactic(auto, using(notation::proofs::Follow::tests), unfolding(semantics::specs::Under::from_first))]
fn from_first(t: Term) -> bool
    ensures { result ≡ from_first t }
{
    t.kind == numbers::OPERATOR_TERM || t.kind == numbers::CHOICE_TERM
}

// An operator's second operand, where it has one, and a choice's first side.
#[tactic(auto, using(notation::proofs::Follow::tests), unfolding(semantics::specs::Under::from_second))]
fn from_second(t: Term) -> bool
    ensures { result ≡ from_second t }
{
    match t.kind {
        numbers::OPERATOR_TERM => operators::operands(t.op) != 1,
        numbers::CHOICE_TERM => true,
        _ => false,
    }
}

// A choice's other side.
#[tactic(auto, using(notation::proofs::Follow::tests), unfolding(semantics::specs::Under::from_third))]
fn from_third(t: Term) -> bool
    ensures { result ≡ from_third t }
{
    t.kind == numbers::CHOICE_TERM
}
