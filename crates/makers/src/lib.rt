// The makers of terms: one of each kind, a choice folded where documents 01 and 02 fold it. All other steps that make a term
// are built on these. Each function promises what its definition gives on all arguments. None has a `requires`.
#![tactic(auto)]

ghost use Rattle.semantics.specs.Factory.{make_truth_of, make_word_of, make_free_of, make_procedure_of, make_binding_of, choice_of, make_operator_of, make_plain_of};
ghost use Rattle.terms.specs.Gives.{Makes};

use semantics::{Refusal, Term, numbers};
use terms::Table;
use words::Word;

// A truth constant: 0 false, 1 true.
pub fn make_truth(table: &mut Table, a: u16) -> Result<u16, Refusal>
    ensures { Makes (make_truth_of a) table.old result table.new }
{
    make_plain(table, numbers::TRUTH_TERM, a, 0, 0)
}

// A word constant.
pub fn make_word(table: &mut Table, w: Word) -> Result<u16, Refusal>
    ensures { Makes (make_word_of w) table.old result table.new }
{
    table.make(terms::word_term(w))
}

// Input i, of the kind of a free truth or a free word.
pub fn make_free(table: &mut Table, kind: u8, i: u16) -> Result<u16, Refusal>
    ensures { Makes (make_free_of kind i) table.old result table.new }
{
    make_plain(table, kind, i, 0, 0)
}

// The closure of record i with the bindings env, of the rule accepted after `before` others.
pub fn make_procedure(table: &mut Table, i: u16, env: u16, before: u16) -> Result<u16, Refusal>
    ensures { Makes (make_procedure_of i env before) table.old result table.new }
{
    make_plain(table, numbers::PROCEDURE_TERM, i, env, before)
}

// The binding of v before the bindings env.
pub fn make_binding(table: &mut Table, v: u16, env: u16) -> Result<u16, Refusal>
    ensures { Makes (make_binding_of v env) table.old result table.new }
{
    make_plain(table, numbers::BINDING_TERM, v, env, 0)
}

// `yes` if g, else `no`; with a constant guard the chosen side, with equal sides that side.
pub fn choice(table: &mut Table, g: u16, yes: u16, no: u16) -> Result<u16, Refusal>
    ensures { Makes (choice_of g yes no) table.old result table.new }
{
    match table.known(g) {
        Some(true) => Ok(yes),
        Some(false) => Ok(no),
        None if yes == no => Ok(yes),
        None => make_plain(table, numbers::CHOICE_TERM, g, yes, no),
    }
}

// The term of an operator on x and y.
pub fn make_operator(table: &mut Table, op: u8, x: u16, y: u16) -> Result<u16, Refusal>
    ensures { Makes (make_operator_of op x y) table.old result table.new }
{
    table.make(Term {
        kind: numbers::OPERATOR_TERM,
        op,
        a: x,
        b: y,
        c: 0,
    })
}

// A term of a kind that has no op.
fn make_plain(table: &mut Table, kind: u8, a: u16, b: u16, c: u16) -> Result<u16, Refusal>
    ensures { Makes (make_plain_of kind a b c) table.old result table.new }
{
    table.make(Term {
        kind,
        op: 0,
        a,
        b,
        c,
    })
}
