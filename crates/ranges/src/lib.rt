// Ranges: what a term may read as in a box of readings, and whether a goal may be reached there. A range is a report of document
// 02's "Two", but for what a search for a witness gains by. No function has a `requires`.
#![tactic(auto, using(notation::proofs::Follow::tests), unfolding(crate::specs::Ranges::one_word, crate::specs::Ranges::one_word_each, crate::specs::Ranges::worked_out, crate::specs::Ranges::ones_range, crate::specs::Ranges::zeros_range, crate::specs::Ranges::equal_range, crate::specs::Ranges::operation_range, crate::specs::Ranges::is_word_range, crate::specs::Ranges::is_procedure_range, crate::specs::Ranges::truth_range, crate::specs::Ranges::operator_range, crate::specs::Ranges::term_range, crate::specs::MayReach::may_err, crate::specs::MayReach::may_abort, crate::specs::MayReach::may_be, crate::specs::MayReach::may_give))]

ghost use Rattle.std.specs.Prelude.{◌≡◌};
ghost use Rattle.ranges.specs.Ranges.{one_word, one_word_each, worked_out, ones_range, zeros_range, equal_range, operation_range, is_word_range, is_procedure_range, truth_range, operator_range, term_range};
ghost use Rattle.ranges.specs.MayReach.{may_err, may_abort, may_be, may_give, may_reach};

use semantics::{Goal, Report, Term, numbers};
use words::Word;

// A term, of the ranges of a, b and c, where each free input has a least and a greatest number. They come apart, as
// `reports::term_report` takes them.
pub fn term_range(
    t: Term,
    lows: [Word; 16],
    highs: [Word; 16],
    x: Report,
    y: Report,
    z: Report,
) -> Report
    ensures { result ≡ term_range lows highs t x y z }
{
    if t.kind == numbers::OPERATOR_TERM {
        operator_range(t.op, x, y)
    } else {
        reports::term_report(t, lows, highs, x, y, z)
    }
}

// An operator term, by its code.
fn operator_range(op: u8, x: Report, y: Report) -> Report
    ensures { result ≡ operator_range op x y }
{
    if op < numbers::NOT_CODE {
        return operation_range(op, x, y);
    }
    match op {
        numbers::IS_WORD_CODE => is_word_range(x),
        numbers::IS_PROCEDURE_CODE => is_procedure_range(x),
        numbers::TRUTH_CODE => truth_range(x),
        _ => reports::operator_report(op, x, y),
    }
}

// An operator on words.
fn operation_range(op: u8, x: Report, y: Report) -> Report
    ensures { result ≡ operation_range op x y }
{
    if one_word_each(op, x, y) {
        return worked_out(op, operators::operate(op, x.low, y.low));
    }
    match op {
        numbers::ONES_CODE => ones_range(x),
        numbers::ZEROS_CODE => zeros_range(x),
        numbers::EQUAL_CODE => equal_range(x, y),
        _ => reports::operator_report(op, x, y),
    }
}

// Whether an operator's operands are one word each; it may have one.
fn one_word_each(op: u8, x: Report, y: Report) -> bool
    ensures { result ≡ one_word_each op x y }
{
    one_word(x) && (operators::operands(op) == 1 || one_word(y))
}

fn one_word(x: Report) -> bool
    ensures { result ≡ one_word x }
{
    x.sort == numbers::WORD_TERM && x.low == x.high
}

// What an operator gave, alone.
fn worked_out(op: u8, w: Word) -> Report
    ensures { result ≡ worked_out op w }
{
    if operators::gives_truth(op) {
        reports::truth_report(w, w)
    } else {
        reports::word_report(w, w)
    }
}

// A count of ones: no more than the bits below the leading zeros of the greatest word.
fn ones_range(x: Report) -> Report
    ensures { result ≡ ones_range x }
{
    if x.sort == numbers::WORD_TERM {
        reports::word_report(0, words::WIDTH - words::leading_zeros(x.high))
    } else {
        reports::word_report(0, words::WIDTH)
    }
}

// A count of leading zeros: the greatest word has the fewest.
fn zeros_range(x: Report) -> Report
    ensures { result ≡ zeros_range x }
{
    if x.sort == numbers::WORD_TERM {
        reports::word_report(words::leading_zeros(x.high), words::leading_zeros(x.low))
    } else {
        reports::word_report(0, words::WIDTH)
    }
}

// Words are not equal where one ends below the other.
fn equal_range(x: Report, y: Report) -> Report
    ensures { result ≡ equal_range x y }
{
    if reports::are_spans(x, y) && (x.high < y.low || y.high < x.low) {
        reports::truth_report(0, 0)
    } else {
        reports::both_truths()
    }
}

// Whether it is a word, where its kind is not open.
fn is_word_range(x: Report) -> Report
    ensures { result ≡ is_word_range x }
{
    match x.sort {
        0 => reports::both_truths(),
        numbers::WORD_TERM => reports::truth_report(1, 1),
        _ => reports::truth_report(0, 0),
    }
}

// A procedure's kind is open.
fn is_procedure_range(x: Report) -> Report
    ensures { result ≡ is_procedure_range x }
{
    if x.sort == 0 {
        reports::both_truths()
    } else {
        reports::truth_report(0, 0)
    }
}

// Only false fails a test.
fn truth_range(x: Report) -> Report
    ensures { result ≡ truth_range x }
{
    match x.sort {
        numbers::TRUTH_TERM => x,
        numbers::WORD_TERM => reports::truth_report(1, 1),
        _ => reports::both_truths(),
    }
}

// Whether a goal may be reached, by the ranges of S, T and the value.
pub fn may_reach(goal: Goal, halted: bool, s: Report, t: Report, v: Report) -> bool
    ensures { result ≡ may_reach goal halted s t v }
{
    match goal {
        Goal::Errs => may_err(s, t, halted),
        Goal::Aborts => may_abort(s, t),
        Goal::Gives(w) => may_give(s, t, halted, v, w),
    }
}

// Not where T can only be true, unless a halt is read with S true.
fn may_err(s: Report, t: Report, halted: bool) -> bool
    ensures { result ≡ may_err s t halted }
{
    !reports::only_true(t) || halted && !reports::only_false(s)
}

// T true and S false.
fn may_abort(s: Report, t: Report) -> bool
    ensures { result ≡ may_abort s t }
{
    !reports::only_false(t) && !reports::only_true(s)
}

// Both true, the word, and no halt.
fn may_give(s: Report, t: Report, halted: bool, v: Report, w: Word) -> bool
    ensures { result ≡ may_give s t halted v w }
{
    !halted && !reports::only_false(t) && !reports::only_false(s) && may_be(v, w)
}

fn may_be(v: Report, w: Word) -> bool
    ensures { result ≡ may_be v w }
{
    v.sort == 0 || v.sort == numbers::WORD_TERM && v.low <= w && w <= v.high
}
