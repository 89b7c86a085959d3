// What an operator's term and a result read as, of readings that are given. No public function has a `requires`.
#![tactic(auto)]

ghost use Rattle.std.specs.Prelude.{◌≡◌, ◌&&◌, ◌||◌, not};
ghost use Rattle.semantics.specs.Reading.{truth_reading, is_true, is_truth, is_word, passes as «passes-test», result_reading, operands_are_words, operation_reading, operator_reading, value_outcome, result_outcome};

use semantics::{Outcome, Reading, numbers};
use words::Word;

// An operator term, by its code; false for what is no code. And, or and not, of which a table has most, come first, before the
// match, for the speed of bales (docs/PERFORMANCE.md).
#[tactic(auto, using(notation::proofs::Follow::tests), unfolding(semantics::specs::Reading::operator_reading))]
pub fn operator_reading(op: u8, x: Reading, y: Reading) -> Reading
    ensures { result ≡ operator_reading op x y }
{
    if op == numbers::CONJUNCTION_CODE {
        return truth_reading(conjunction(x, y));
    }
    if op == numbers::DISJUNCTION_CODE {
        return truth_reading(disjunction(x, y));
    }
    if op == numbers::NEGATION_CODE {
        return truth_reading(negation(x));
    }
    // stays as it was: as an arm of the match it is slower here, 12 against 6 µs for a pass of 1,024 terms
    if op < numbers::NOT_CODE {
        return operation_reading(op, x, y);
    }
    match op {
        numbers::IS_WORD_CODE => truth_reading(is_word(x)),
        numbers::IS_PROCEDURE_CODE => truth_reading(x.sort == numbers::PROCEDURE_TERM),
        numbers::TRUTH_CODE => truth_reading(x.sort != 0 && passes(x)),
        _ => truth_reading(false),
    }
}

// An operator on words; word 0 or false where an operand is no word.
#[tactic(auto, using(notation::proofs::Follow::tests), unfolding(semantics::specs::Reading::operation_reading))]
fn operation_reading(op: u8, x: Reading, y: Reading) -> Reading
    ensures { result ≡ operation_reading op x y }
{
    if operands_are_words(op, x, y) {
        return result_reading(op, operators::operate(op, x.number, y.number));
    }
    result_reading(op, 0)
}

// An operator with one operand does not look at the second.
#[tactic(auto, using(notation::proofs::Follow::tests), unfolding(semantics::specs::Reading::operands_are_words))]
fn operands_are_words(op: u8, x: Reading, y: Reading) -> bool
    ensures { result ≡ operands_are_words op x y }
{
    is_word(x) && (operators::operands(op) == 1 || is_word(y))
}

// A number as the operator gives it: a truth or a word.
#[tactic(auto, using(notation::proofs::Follow::tests), unfolding(semantics::specs::Reading::result_reading))]
fn result_reading(op: u8, w: Word) -> Reading
    ensures { result ≡ result_reading op w }
{
    let sort = if operators::gives_truth(op) {
        numbers::TRUTH_TERM
    } else {
        numbers::WORD_TERM
    };
    Reading { sort, number: w }
}

// True of false alone. This and the next two look at all parts of their tests, so that no jump hangs on what a formula's
// terms read as, which changes from sample to sample.
fn negation(x: Reading) -> bool
    ensures { result ≡ (is_truth x && not (is_true x)) }
{
    is_truth(x) & !is_true(x)
}

// False where an operand is no truth.
fn conjunction(x: Reading, y: Reading) -> bool
    ensures { result ≡ (is_true x && is_true y) }
{
    is_true(x) & is_true(y)
}

// False where an operand is no truth, though the other be true.
fn disjunction(x: Reading, y: Reading) -> bool
    ensures { result ≡ ((is_truth x && is_truth y) && (is_true x || is_true y)) }
{
    is_truth(x) & is_truth(y) & (is_true(x) | is_true(y))
}

fn truth_reading(b: bool) -> Reading
    ensures { result ≡ truth_reading b }
{
    Reading {
        sort: numbers::TRUTH_TERM,
        number: operators::bit(b),
    }
}

// A truth, and not false. No methods: `Reading` is a struct of another crate, and a trait for it would be no plainer.
#[tactic(auto, using(notation::proofs::Follow::tests), unfolding(semantics::specs::Reading::is_true))]
pub fn is_true(v: Reading) -> bool
    ensures { result ≡ is_true v }
{
    v.sort == numbers::TRUTH_TERM && v.number == 1
}

// Only false fails a test: what is no truth passes.
#[tactic(auto, using(notation::proofs::Follow::tests), unfolding(semantics::specs::Reading::passes))]
fn passes(v: Reading) -> bool
    ensures { result ≡ «passes-test» v }
{
    v.sort != numbers::TRUTH_TERM || v.number == 1
}

#[tactic(auto, using(notation::proofs::Follow::tests), unfolding(semantics::specs::Reading::is_truth))]
fn is_truth(v: Reading) -> bool
    ensures { result ≡ is_truth v }
{
    v.sort == numbers::TRUTH_TERM
}

#[tactic(auto, using(notation::proofs::Follow::tests), unfolding(semantics::specs::Reading::is_word))]
fn is_word(v: Reading) -> bool
    ensures { result ≡ is_word v }
{
    v.sort == numbers::WORD_TERM
}

// Both formulas true: the value, or an error for a halt. Only what is assumed false: an abort. Otherwise an error.
#[tactic(auto, using(notation::proofs::Follow::tests), unfolding(semantics::specs::Reading::result_outcome))]
pub fn result_outcome(assumed: Reading, asserted: Reading, halted: bool, value: Reading) -> Outcome
    ensures { result ≡ result_outcome (is_true assumed) (is_true asserted) halted value }
{
    if !is_true(asserted) {
        Outcome::Error
    } else if !is_true(assumed) {
        Outcome::Abort
    } else if halted {
        Outcome::Error
    } else {
        value_outcome(value)
    }
}

// What is neither a truth nor a word is answered as a procedure.
#[tactic(auto, using(notation::proofs::Follow::tests), unfolding(semantics::specs::Reading::value_outcome))]
fn value_outcome(v: Reading) -> Outcome
    ensures { result ≡ value_outcome v }
{
    match v.sort {
        numbers::TRUTH_TERM => Outcome::Truth(v.number == 1),
        numbers::WORD_TERM => Outcome::Word(v.number),
        _ => Outcome::Procedure(v.number),
    }
}
