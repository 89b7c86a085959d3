// A goal's clauses as text, and how many there are. No function has a `requires`.
#![tactic(auto)]

ghost use Rattle.std.specs.Prelude.{◌≡◌, [], ◌∷◌, ◌*◌, ◌<◌, ◌≤◌, length};
ghost use Rattle.cursor.specs.Sink.{Writes};
ghost use Rattle.semantics.specs.declared.Goal.TheVariants.{Errs, Aborts, Gives};
ghost use Rattle.clauses.specs.Clauses.{truth_variable, goal_clauses};
ghost use Rattle.dimacs.specs.Text.{clause_text, clauses_text};
ghost use Rattle.gates.specs.Slots.{as_literal};

use cursor::Cursor;
use gates::{OWNED, Places};
use semantics::{Goal, Result, Term};
use words::{WIDTH, Word};

// No term.
const BLANK: Term = Term {
    kind: 0,
    op: 0,
    a: 0,
    b: 0,
    c: 0,
};

// Twice the variable of a term's truth.
fn truth(n: u16) -> u64
    ensures { (result ≡ 2 * truth_variable n) × (result < 4294967296) }
{
    2 * (OWNED * u64::from(n) + 2 + 1)
}

// A clause of one literal.
fn put_unit(out: &mut Cursor, l: u64)
    ensures { Writes (clause_text (as_literal l ∷ [])) out.old out.new }
{
    gates::put_literal(out, l);
    gates::put_end(out);
}

// Two clauses of one literal each.
fn put_units(out: &mut Cursor, l: u64, m: u64)
    ensures { Writes (clauses_text ((as_literal l ∷ []) ∷ (as_literal m ∷ []) ∷ [])) out.old out.new }
{
    put_unit(out, l);
    put_unit(out, m);
}

// A clause of two literals.
fn put_two(out: &mut Cursor, l: u64, m: u64)
    ensures { Writes (clause_text (as_literal l ∷ as_literal m ∷ [])) out.old out.new }
{
    gates::put_literal(out, l);
    put_unit(out, m);
}

// T is false, or, of a halt, S is true.
fn put_errs(out: &mut Cursor, res: Result)
    ensures { Writes (clauses_text (goal_clauses res Errs)) out.old out.new }
{
    let t = truth(res.state.asserted);
    if res.halted {
        let s = truth(res.state.assumed);
        return put_two(out, s, t + 1);
    }
    put_unit(out, t + 1);
}

// Only S is false.
fn put_aborts(out: &mut Cursor, res: Result)
    ensures { Writes (clauses_text (goal_clauses res Aborts)) out.old out.new }
{
    let s = truth(res.state.assumed);
    let t = truth(res.state.asserted);
    put_units(out, s + 1, t);
}

// Both are true, and the value is the word; a halt has none.
fn put_gives(out: &mut Cursor, res: Result, w: Word)
    ensures { Writes (clauses_text (goal_clauses res (Gives w))) out.old out.new }
{
    if res.halted {
        return gates::put_end(out);
    }
    let s = truth(res.state.assumed);
    let t = truth(res.state.asserted);
    put_units(out, s, t);
    let word = terms::word_term(w);
    let p = Places {
        helpers: 0,
        own: res.value,
        a: word.a,
        b: word.b,
        c: word.c,
    };
    table_clauses::put_term(out, p, word, BLANK);
}

// The goal's clauses.
pub fn put_goal(out: &mut Cursor, res: Result, goal: Goal)
    ensures { Writes (clauses_text (goal_clauses res goal)) out.old out.new }
{
    match goal {
        Goal::Errs => put_errs(out, res),
        Goal::Aborts => put_aborts(out, res),
        Goal::Gives(w) => put_gives(out, res, w),
    }
}

// How many clauses the goal of a word has, and that their text is short.
fn gives_count(res: Result, w: Word) -> u64
    ensures { (result ≡ length (goal_clauses res (Gives w))) × (result < 256) × (length (clauses_text (goal_clauses res (Gives w))) ≤ 2048) }
{
    if res.halted { 1 } else { WIDTH as u64 + 4 }
}

// How many clauses the goal has, and that their text is short.
pub fn goal_count(res: Result, goal: Goal) -> u64
    ensures { (result ≡ length (goal_clauses res goal)) × (result < 256) × (length (clauses_text (goal_clauses res goal)) ≤ 2048) }
{
    match goal {
        Goal::Errs => 1,
        Goal::Aborts => 2,
        Goal::Gives(w) => gives_count(res, w),
    }
}
