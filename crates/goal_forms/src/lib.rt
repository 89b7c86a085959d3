// The byte form of a goal, which is that of the reading that it asks for. No function has a `requires`.
#![tactic(auto, using(notation::proofs::Follow::tests), unfolding(crate::specs::Goals::goal_formed, crate::specs::Goals::goal_in))]

ghost use Rattle.std.specs.Prelude.{◌≡◌};
ghost use Rattle.goal_forms.specs.Goals.{goal_formed, goal_in};

use semantics::{Goal, numbers};
use words::Word;

// Where a goal's number stands, after its kind.
const NUMBER: u16 = words::BYTES as u16;

const WORD: Word = numbers::WORD_TERM as Word;

const ABORT: Word = numbers::ABORT_RECORD as Word;

const ERROR: Word = numbers::ERROR_RECORD as Word;

// A word and its number, an abort or an error.
pub fn goal_formed(goal: &[u8]) -> bool
    ensures { result ≡ goal_formed goal.now }
{
    match forms::word_at(goal, 0) {
        WORD => true,
        ABORT | ERROR => forms::word_at(goal, NUMBER) == 0,
        _ => false,
    }
}

pub fn goal_in(goal: &[u8]) -> Goal
    ensures { result ≡ goal_in goal.now }
{
    match forms::word_at(goal, 0) {
        ABORT => Goal::Aborts,
        ERROR => Goal::Errs,
        _ => Goal::Gives(forms::word_at(goal, NUMBER)),
    }
}
