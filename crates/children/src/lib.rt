// What the pass for the tests 6 and 7 asks of one record, and marks for it: its children, whether they stand in order, whether
// it is a child once, and whether its places are in scope. No public function has a `requires`.
#![tactic(auto)]

ghost use Rattle.std.specs.Prelude.{◌≡◌, ltb};
ghost use Rattle.notation.specs.Notation.{every};
ghost use Rattle.semantics.specs.Rules.{parts_of, inside_of, once_of, places_of};
ghost use Rattle.children.specs.Children.{part_of, children_of, OneMore, bumped_of, marked_of};

use semantics::Record;
use semantics::numbers::{
    CALL_RECORD, IF_RECORD, LET_RECORD, OPERATOR_RECORD, PROCEDURE_RECORD, VARIABLE_RECORD,
};

// The record at which a child stands, and how many bindings it has more than its parent.
#[derive(Clone, Copy)]
pub struct Child {
    pub at: u16,
    pub more: u16,
}

// The children of a record: at most two.
#[derive(Clone, Copy)]
pub enum Children {
    Empty,
    One(Child),
    Two(Child, Child),
}

// The children of a record: a procedure's body; both parts of a let; the branches of an if.
#[tactic(auto, using(notation::proofs::Follow::values), unfolding(semantics::specs::Rules::parts_of))]
pub fn children_of(x: Record) -> Children
    ensures parts { children_of result ≡ parts_of x }
    ensures one_more { OneMore result }
{
    match x.kind {
        PROCEDURE_RECORD => Children::One(Child { at: x.p, more: 1 }),
        LET_RECORD => Children::Two(Child { at: x.p, more: 0 }, Child { at: x.q, more: 1 }),
        IF_RECORD => Children::Two(Child { at: x.q, more: 0 }, Child { at: x.r, more: 0 }),
        _ => Children::Empty,
    }
}

// The children of record i of n stand after it, and before the end.
pub fn ordered(c: Children, i: u16, n: u16) -> bool
    ensures { result ≡ every (inside_of i n) (children_of c) }
{
    match c {
        Children::Empty => true,
        Children::One(a) => inside(i, n, a),
        Children::Two(a, b) => inside(i, n, a) && inside(i, n, b),
    }
}

// A child's record is after i and before n.
#[tactic(auto, using(record_tests::proofs::Follow::tests), unfolding(semantics::specs::Rules::inside_of))]
fn inside(i: u16, n: u16, c: Child) -> bool
    ensures { result ≡ inside_of i n (part_of c) }
{
    i < c.at && c.at < n
}

// Record i, with its marks, is a child once; record 0 need not be.
#[tactic(auto, using(record_tests::proofs::Follow::tests), unfolding(semantics::specs::Rules::once_of))]
pub fn once(i: u16, marks: u8) -> bool
    ensures { result ≡ once_of i marks }
{
    i == 0 || marks == 1
}

// A mark more for each child.
#[tactic(auto, unfolding(crate::specs::Children::marked_of))]
pub fn mark(marks: &mut [u8], c: Children)
    ensures { marks.new ≡ marked_of (children_of c) marks.old }
{
    match c {
        Children::Empty => {}
        Children::One(a) => bump(marks, a.at),
        Children::Two(a, b) => {
            bump(marks, a.at);
            bump(marks, b.at);
        }
    }
}

// One mark more for a record, up to two: more are not told apart. Past the list's end nothing is marked.
// By its index: what the rest of the list is after a `get_mut` does not reach the proof (tried here and in `rules::put`).
#[tactic(auto, unfolding(crate::specs::Children::bumped_of))]
fn bump(marks: &mut [u8], at: u16)
    ensures { marks.new ≡ bumped_of marks.old at }
{
    let i = usize::from(at);
    if i < marks.len() {
        marks[i] = marks[i].saturating_add(1).min(2);
    }
}

// The places in a record are below a limit. Codes that no operator has are taken for two operands.
pub fn placed(x: Record, limit: u16) -> bool
    ensures { result ≡ every (λ p. ltb p limit) (places_of x) }
{
    match x.kind {
        VARIABLE_RECORD | IF_RECORD => x.p < limit,
        CALL_RECORD => x.p < limit && x.q < limit,
        OPERATOR_RECORD if operators::operands(x.op) == 1 => x.p < limit,
        OPERATOR_RECORD => x.p < limit && x.q < limit,
        _ => true,
    }
}
