// What definitions and code share: the records of document 01 as structs, and its numbers by name. The
// definitions themselves are in specs/, in the order of document 01. No functions.
#![tactic(auto)]

pub mod numbers;
mod refusal;

pub use refusal::{Refusal, answer_number};
use words::Word;

// A record of a rule.
#[derive(Clone, Copy)]
pub struct Record {
    pub kind: u8,
    pub op: u8,
    pub p: u16,
    pub q: u16,
    pub r: u16,
}

// A record of a table.
#[derive(Clone, Copy)]
pub struct Term {
    pub kind: u8,
    pub op: u8,
    pub a: u16,
    pub b: u16,
    pub c: u16,
}

// Whether a term is in a table, and its number there.
#[derive(Clone, Copy)]
pub struct Found {
    pub is: bool,
    pub at: u16,
}

// An input of a session.
#[derive(Clone, Copy)]
pub struct Input {
    pub kind: u8,
    pub value: Word,
}

// What is assumed (document 01's S) and what is asserted (its T), as numbers of terms.
#[derive(Clone, Copy)]
pub struct State {
    pub assumed: u16,
    pub asserted: u16,
}

// What an evaluation comes to: a state and a value, or a state in which it halted.
#[derive(Clone, Copy)]
pub struct Result {
    pub state: State,
    pub value: u16,
    pub halted: bool,
}

// A term that a call's walk meets, under the guard on the way to it.
#[derive(Clone, Copy)]
pub struct Leaf {
    pub guard: u16,
    pub term: Term,
}

// The value of the branches that a merge has met: whether any of them gave one, and what they come to.
#[derive(Clone, Copy)]
pub struct Folded {
    pub any: bool,
    pub value: u16,
}

// A result under its guard, as a merge takes it.
#[derive(Clone, Copy)]
pub struct Branch {
    pub guard: u16,
    pub state: State,
    pub value: u16,
    pub halted: bool,
}

#[derive(Clone, Copy)]
pub struct Session {
    pub inputs: [Input; 16],
    pub count: u16,
    pub state: State,
    pub halted: bool,
    pub accepted: u16,
}

// A session, or a refusal where the number is not 0.
#[derive(Clone, Copy)]
pub struct Opened {
    pub refusal: u8,
    pub session: Session,
}

// What evaluating a rule answers.
#[derive(Clone, Copy)]
pub enum Answer {
    Out {
        state: State,
        value: u16,
        depth: u16,
    },
    Halt {
        state: State,
        depth: u16,
    },
    Refused(u8),
}

// The answer, and the session then.
#[derive(Clone, Copy)]
pub struct Evaluated {
    pub answer: Answer,
    pub session: Session,
}

// What a term reads as: a truth, a word or a procedure, and its number.
#[derive(Clone, Copy)]
pub struct Reading {
    pub sort: u8,
    pub number: Word,
}

// What a term may read as: a truth or a word, by its sort, and the least and the greatest number. A truth is 0 or 1, so
// that the truths that it may take are a span too. Sort 0: its kind is open.
#[derive(Clone, Copy)]
pub struct Report {
    pub sort: u8,
    pub low: Word,
    pub high: Word,
}

// What reading a result, or running a rule, answers. A procedure answers with the number of its record, which a word holds.
#[derive(Clone, Copy)]
pub enum Outcome {
    Truth(bool),
    Word(Word),
    Procedure(Word),
    Abort,
    Error,
    Refused(u8),
}

// What a reading is asked to come to: an error, an abort, or a word.
#[derive(Clone, Copy)]
pub enum Goal {
    Errs,
    Aborts,
    Gives(Word),
}

// The reading that was asked for, where there is one.
#[derive(Clone, Copy)]
pub struct Hit {
    pub found: bool,
    pub numbers: [Word; 16],
}

// A hit, or a refusal where the number is not 0.
#[derive(Clone, Copy)]
pub struct Witness {
    pub refusal: u8,
    pub hit: Hit,
}
