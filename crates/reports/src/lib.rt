// Reports (document 02, "Two"): what a term may read as, of what the terms that it names may read as. A report has the
// least and the greatest number, and a truth is 0 or 1: so a not turns the two, an and is the smaller of two truths and
// an or the larger. No function has a `requires`.
#![tactic(auto)]

ghost use Rattle.std.specs.Prelude.{◌≡◌, ◌-◌};
ghost use Rattle.semantics.specs.Spans.{truth_report, word_report, open_report, both_truths, all_words, only_true, only_false, are_spans, are_truths, sum_report, difference_report, less_report, not_report, and_report, or_report, other_report, operator_report, cover_of, choice_report, term_report};

use semantics::{Report, Term, numbers};
use words::{Wide, Word};

const LAST_WORD: Word = (words::WORDS - 1) as Word;

// A term, of the reports of a, b and c, where each free input has a least and a greatest number. Procedures and bindings
// are open.
#[tactic(auto, using(notation::proofs::Follow::tests), unfolding(semantics::specs::Spans::term_report))]
pub fn term_report(
    t: Term,
    lows: [Word; 16],
    highs: [Word; 16],
    x: Report,
    y: Report,
    z: Report,
) -> Report
    ensures { result ≡ term_report lows highs t x y z }
{
    match t.kind {
        numbers::TRUTH_TERM => truth_report(Word::from(t.a), Word::from(t.a)),
        numbers::WORD_TERM => word_report(terms::word(t), terms::word(t)),
        numbers::FREE_TRUTH_TERM => {
            truth_report(
                reading_tests::number(lows, t.a),
                reading_tests::number(highs, t.a),
            )
        }
        numbers::FREE_WORD_TERM => {
            word_report(
                reading_tests::number(lows, t.a),
                reading_tests::number(highs, t.a),
            )
        }
        numbers::OPERATOR_TERM => operator_report(t.op, x, y),
        numbers::CHOICE_TERM => choice_report(x, y, z),
        _ => open_report(),
    }
}

// The sorts are numbers, and truths and words have a function each, as the definitions have them.
pub fn truth_report(low: Word, high: Word) -> Report
    ensures { result ≡ truth_report low high }
{
    Report {
        sort: numbers::TRUTH_TERM,
        low,
        high,
    }
}

pub fn word_report(low: Word, high: Word) -> Report
    ensures { result ≡ word_report low high }
{
    Report {
        sort: numbers::WORD_TERM,
        low,
        high,
    }
}

pub fn open_report() -> Report
    ensures { result ≡ open_report }
{
    Report {
        sort: 0,
        low: 0,
        high: 0,
    }
}

pub fn both_truths() -> Report
    ensures { result ≡ both_truths }
{
    truth_report(0, 1)
}

fn all_words() -> Report
    ensures { result ≡ all_words }
{
    word_report(0, LAST_WORD)
}

// An operator term, by its code.
#[tactic(auto, using(notation::proofs::Follow::tests), unfolding(semantics::specs::Spans::operator_report))]
pub fn operator_report(op: u8, x: Report, y: Report) -> Report
    ensures { result ≡ operator_report op x y }
{
    match op {
        numbers::ADD_CODE => sum_report(x, y),
        numbers::SUBTRACT_CODE => difference_report(x, y),
        numbers::LESS_CODE => less_report(x, y),
        numbers::NEGATION_CODE => not_report(x),
        numbers::CONJUNCTION_CODE => and_report(x, y),
        numbers::DISJUNCTION_CODE => or_report(x, y),
        _ => other_report(op),
    }
}

// Both truths, or every word.
#[tactic(auto, using(notation::proofs::Follow::tests), unfolding(semantics::specs::Spans::other_report))]
fn other_report(op: u8) -> Report
    ensures { result ≡ other_report op }
{
    if operators::gives_truth(op) {
        both_truths()
    } else {
        all_words()
    }
}

// What the ends give, unless the sum of the highs is no word.
#[tactic(auto, using(notation::proofs::Follow::tests), unfolding(semantics::specs::Spans::sum_report))]
fn sum_report(x: Report, y: Report) -> Report
    ensures { result ≡ sum_report x y }
{
    if !are_spans(x, y) || Wide::from(LAST_WORD) < Wide::from(x.high) + Wide::from(y.high) {
        return all_words();
    }
    word_report(words::add(x.low, y.low), words::add(x.high, y.high))
}

// What the ends give, unless the least difference would be below 0.
#[tactic(auto, using(notation::proofs::Follow::tests), unfolding(semantics::specs::Spans::difference_report))]
fn difference_report(x: Report, y: Report) -> Report
    ensures { result ≡ difference_report x y }
{
    if !are_spans(x, y) || x.low < y.high {
        return all_words();
    }
    word_report(
        words::subtract(x.low, y.high),
        words::subtract(x.high, y.low),
    )
}

// True where the first span ends below the second, false where it starts at or above the second's end.
#[tactic(auto, using(notation::proofs::Follow::tests), unfolding(semantics::specs::Spans::less_report))]
fn less_report(x: Report, y: Report) -> Report
    ensures { result ≡ less_report x y }
{
    if !are_spans(x, y) {
        both_truths()
    } else if x.high < y.low {
        truth_report(1, 1)
    } else if x.low < y.high {
        both_truths()
    } else {
        truth_report(0, 0)
    }
}

#[tactic(auto, using(notation::proofs::Follow::tests), unfolding(semantics::specs::Spans::not_report))]
fn not_report(x: Report) -> Report
    ensures { result ≡ not_report x }
{
    if x.sort == numbers::TRUTH_TERM {
        truth_report(other_truth(x.high), other_truth(x.low))
    } else {
        both_truths()
    }
}

// False for true, and true for false; what is above 1 is taken for true.
fn other_truth(n: Word) -> Word
    ensures { result ≡ 1 - n }
{
    1 - n.min(1)
}

#[tactic(auto, using(notation::proofs::Follow::tests), unfolding(semantics::specs::Spans::and_report))]
fn and_report(x: Report, y: Report) -> Report
    ensures { result ≡ and_report x y }
{
    if are_truths(x, y) {
        truth_report(x.low.min(y.low), x.high.min(y.high))
    } else {
        both_truths()
    }
}

#[tactic(auto, using(notation::proofs::Follow::tests), unfolding(semantics::specs::Spans::or_report))]
fn or_report(x: Report, y: Report) -> Report
    ensures { result ≡ or_report x y }
{
    if are_truths(x, y) {
        truth_report(x.low.max(y.low), x.high.max(y.high))
    } else {
        both_truths()
    }
}

#[tactic(auto, using(notation::proofs::Follow::tests), unfolding(semantics::specs::Spans::are_spans))]
pub fn are_spans(x: Report, y: Report) -> bool
    ensures { result ≡ are_spans x y }
{
    x.sort == numbers::WORD_TERM && y.sort == numbers::WORD_TERM
}

#[tactic(auto, using(notation::proofs::Follow::tests), unfolding(semantics::specs::Spans::are_truths))]
fn are_truths(x: Report, y: Report) -> bool
    ensures { result ≡ are_truths x y }
{
    x.sort == numbers::TRUTH_TERM && y.sort == numbers::TRUTH_TERM
}

// The decided side, else what covers both.
#[tactic(auto, using(notation::proofs::Follow::tests), unfolding(semantics::specs::Spans::choice_report))]
fn choice_report(x: Report, y: Report, z: Report) -> Report
    ensures { result ≡ choice_report x y z }
{
    if only_true(x) {
        y
    } else if only_false(x) {
        z
    } else {
        cover(y, z)
    }
}

// It can only be true.
#[tactic(auto, using(notation::proofs::Follow::tests), unfolding(semantics::specs::Spans::only_true))]
pub fn only_true(x: Report) -> bool
    ensures { result ≡ only_true x }
{
    x.sort == numbers::TRUTH_TERM && x.low == 1
}

// It can only be false.
#[tactic(auto, using(notation::proofs::Follow::tests), unfolding(semantics::specs::Spans::only_false))]
pub fn only_false(x: Report) -> bool
    ensures { result ≡ only_false x }
{
    x.sort == numbers::TRUTH_TERM && x.high == 0
}

// The smallest report that covers both; open where they differ in sort.
#[tactic(auto, using(notation::proofs::Follow::tests), unfolding(semantics::specs::Spans::cover_of))]
fn cover(x: Report, y: Report) -> Report
    ensures { result ≡ cover_of x y }
{
    if x.sort == y.sort {
        Report {
            sort: x.sort,
            low: x.low.min(y.low),
            high: x.high.max(y.high),
        }
    } else {
        open_report()
    }
}
