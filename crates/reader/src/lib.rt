// The reader of terms: what a term reads as under sixteen numbers, of what is held for lower ones in a work list, and what a
// result reads as. No public function has a `requires`: a term that is not there reads as nothing.
#![tactic(auto)]

ghost use Rattle.std.specs.Prelude.{◌≡◌, length, replicate};
ghost use Rattle.semantics.specs.Reading.{is_true, term_reading};
ghost use Rattle.notation.specs.Notation.{when◌then◌else◌};
ghost use Rattle.reader.specs.Reader.{held_outcome, unpacked_of, held_reading};

use semantics::{Outcome, Reading, Result, Term, numbers};
use words::{WORDS, Wide, Word};

// A place of the work list: the sort of a reading, counted in words, and its number. What stands above them is not read. One
// number, and no struct: the C interface lends the list as numbers.
pub type Place = Wide;

// What a result reads as, of what is held for the terms.
pub fn outcome_held(held: &[Place], res: Result) -> Outcome
    ensures { result ≡ held_outcome held.now res }
{
    let assumed = held_reading(held, res.state.assumed);
    let asserted = held_reading(held, res.state.asserted);
    let value = held_reading(held, res.value);
    readings::result_outcome(assumed, asserted, res.halted, value)
}

// Every place is zero then.
pub fn wipe(work: &mut [Place])
    ensures { work.new ≡ replicate (length work.old) 0 }
{
    work.fill(0);
}

// What is held for term k; nothing where there is no place for it.
fn held_reading(held: &[Place], k: u16) -> Reading
    ensures { result ≡ held_reading held.now k }
{
    let at = k as usize;
    if at < held.len() {
        return unpack(held[at]);
    }
    Reading { sort: 0, number: 0 }
}

// The reading in a place; 0 is nothing.
#[tactic(auto, unfolding(crate::specs::Reader::unpacked_of))]
pub fn unpack(n: Place) -> Reading
    ensures { result ≡ unpacked_of n }
{
    Reading {
        sort: (n / WORDS % 256) as u8,
        number: (n % WORDS) as Word,
    }
}

// A term, of what is held for lower ones. Only those are looked up that it is read from; operators and choices, of which a
// table has most, come first, before the match, for the speed of bales (docs/PERFORMANCE.md).
#[tactic(auto, using(notation::proofs::Follow::tests), unfolding(semantics::specs::Reading::term_reading))]
pub fn term_reading(t: Term, numbers: [Word; 16], held: &[Place]) -> Reading
    ensures { result ≡ term_reading numbers t (held_reading held.now t.a) (held_reading held.now t.b) (held_reading held.now t.c) }
{
    if t.kind == numbers::OPERATOR_TERM {
        return readings::operator_reading(t.op, held_reading(held, t.a), held_reading(held, t.b));
    }
    if t.kind == numbers::CHOICE_TERM {
        return choice_reading(t, held);
    }
    match t.kind {
        numbers::TRUTH_TERM => Reading {
            sort: numbers::TRUTH_TERM,
            number: Word::from(t.a),
        },
        numbers::WORD_TERM => Reading {
            sort: numbers::WORD_TERM,
            number: terms::word(t),
        },
        numbers::FREE_TRUTH_TERM => Reading {
            sort: numbers::TRUTH_TERM,
            number: reading_tests::number(numbers, t.a),
        },
        numbers::FREE_WORD_TERM => Reading {
            sort: numbers::WORD_TERM,
            number: reading_tests::number(numbers, t.a),
        },
        numbers::PROCEDURE_TERM => Reading {
            sort: numbers::PROCEDURE_TERM,
            number: Word::from(t.a),
        },
        // a binding reads as nothing, which the definitions (`nothing`) hold to be sort 0
        _ => Reading { sort: 0, number: 0 },
    }
}

// A choice: b if a, else c. Both sides are looked up, so that no jump hangs on the guard.
#[tactic(auto, using(notation::proofs::Follow::tests))]
fn choice_reading(t: Term, held: &[Place]) -> Reading
    ensures { result ≡ (when is_true (held_reading held.now t.a) then held_reading held.now t.b else held_reading held.now t.c) }
{
    let guard = held_reading(held, t.a);
    let first = held_reading(held, t.b);
    let other = held_reading(held, t.c);
    if readings::is_true(guard) {
        first
    } else {
        other
    }
}
