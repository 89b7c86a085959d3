// The layout of a term, kind by kind, over the terms that stand below it: what test 3 asks of each term by itself. The public
// function has no `requires`.
#![tactic(auto)]

ghost use Rattle.std.specs.Prelude.{◌≡◌, eqb};
ghost use Rattle.semantics.specs.Terms.{word_laid, terms_in, at as «term-number», sort_of, operands_laid_out, laid_out};
ghost use Rattle.layout.specs.Layout.{only_a, choice_laid, procedure_laid, next_laid, binding_laid, words_laid};

use semantics::{Term, numbers};

// Whether a number names a term of a sort among the first n terms.
fn names(table: &[u8], n: u16, x: u16, sort: u8) -> bool
    ensures { result ≡ eqb (sort_of («term-number» (terms_in table.now n) x)) sort }
{
    terms::sort_at(table, n, x) == sort
}

// Of an operator 1 to 12: a second operand that there is none of is zero.
#[tactic(auto, using(notation::proofs::Follow::tests))]
fn words_laid(table: &[u8], n: u16, op: u8, a: u16, b: u16) -> bool
    ensures { result ≡ words_laid (terms_in table.now n) op a b }
{
    terms::names_value(table, n, a)
        && if operators::operands(op) == 1 {
            b == 0
        } else {
            terms::names_value(table, n, b)
        }
}

// The operands of an operator term over the first n terms; false for a code that makes no term.
#[tactic(auto, using(notation::proofs::Follow::tests), unfolding(semantics::specs::Terms::operands_laid_out, semantics::specs::Terms::names_choice))]
fn operands_laid(table: &[u8], n: u16, op: u8, a: u16, b: u16) -> bool
    ensures { result ≡ operands_laid_out (terms_in table.now n) op a b }
{
    // stays as it was: as arms of the match these two tests are slower here, 5.4 against 4.9 ns for a term
    if op == 0 {
        return false;
    }
    if op < numbers::NOT_CODE {
        return words_laid(table, n, op, a, b);
    }
    match op {
        numbers::IS_WORD_CODE | numbers::IS_PROCEDURE_CODE | numbers::TRUTH_CODE => {
            names(table, n, a, numbers::CHOICE_TERM) && b == 0
        }
        numbers::NEGATION_CODE => terms::names_truth(table, n, a) && b == 0,
        numbers::CONJUNCTION_CODE | numbers::DISJUNCTION_CODE => {
            terms::names_truth(table, n, a) && terms::names_truth(table, n, b)
        }
        _ => false,
    }
}

fn only_a(t: Term) -> bool
    ensures { result ≡ only_a t }
{
    t.b == 0 && t.c == 0
}

// A word constant: the second field is unused where a word takes one.
fn word_laid(t: Term) -> bool
    ensures { result ≡ word_laid t }
{
    fields::field(words::FIELDS, 1, t.b) && t.c == 0
}

fn choice_laid(table: &[u8], n: u16, t: Term) -> bool
    ensures { result ≡ choice_laid (terms_in table.now n) t }
{
    terms::names_truth(table, n, t.a)
        && terms::names_value(table, n, t.b)
        && terms::names_value(table, n, t.c)
}

#[tactic(auto, unfolding(semantics::specs::Terms::names_binding))]
fn procedure_laid(table: &[u8], n: u16, accepted: u16, t: Term) -> bool
    ensures { result ≡ procedure_laid accepted (terms_in table.now n) t }
{
    t.a < numbers::RECORD_LIMIT && names(table, n, t.b, numbers::BINDING_TERM) && t.c < accepted
}

#[tactic(auto, unfolding(semantics::specs::Terms::names_binding))]
fn next_laid(table: &[u8], n: u16, b: u16) -> bool
    ensures { result ≡ next_laid (terms_in table.now n) b }
{
    b == numbers::NO_BINDING || names(table, n, b, numbers::BINDING_TERM)
}

fn binding_laid(table: &[u8], n: u16, t: Term) -> bool
    ensures { result ≡ binding_laid (terms_in table.now n) t }
{
    terms::names_value(table, n, t.a) && next_laid(table, n, t.b) && t.c == 0
}

// Whether a term is laid out over the first n. A kind stays a number, as `laid_out` takes a term of any eight bytes: one that is no
// kind is refused.
#[tactic(auto, using(notation::proofs::Follow::tests), unfolding(semantics::specs::Terms::laid_out))]
pub fn laid_out(table: &[u8], n: u16, accepted: u16, t: Term) -> bool
    ensures { result ≡ laid_out accepted (terms_in table.now n) t }
{
    if t.kind == numbers::OPERATOR_TERM {
        return operands_laid(table, n, t.op, t.a, t.b) && t.c == 0;
    }
    if t.op != 0 {
        return false;
    }
    match t.kind {
        numbers::TRUTH_TERM => t.a < 2 && only_a(t),
        numbers::WORD_TERM => word_laid(t),
        numbers::FREE_TRUTH_TERM | numbers::FREE_WORD_TERM => {
            t.a < numbers::INPUT_COUNT && only_a(t)
        }
        numbers::CHOICE_TERM => choice_laid(table, n, t),
        numbers::PROCEDURE_TERM => procedure_laid(table, n, accepted, t),
        numbers::BINDING_TERM => binding_laid(table, n, t),
        _ => false,
    }
}
