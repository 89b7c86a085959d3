// The byte forms, read from a slice and written to one. What stands past a slice's end reads as 0 and is not written,
// so that no function has a `requires`.
#![tactic(auto)]

ghost use Rattle.std.specs.Prelude.{◌≡◌, [], ◌∷◌, ◌+◌, ◌*◌, length, set};
ghost use Rattle.std.proofs.lemmas.List.Edits.{sets};
ghost use Rattle.operators.specs.Operators.{bit_of};
ghost use Rattle.semantics.specs.Records.{pair_at, word_at};
ghost use Rattle.semantics.specs.Print.{input_size, input_at, input_zeroed};
ghost use Rattle.forms.specs.Forms.{inputs_length, session_length, inputs_in, inputs_zeroed, inputs_formed, numbers_in, mark_formed, session_in, session_formed, result_in, pairs_of, word_bytes_of, words_of, input_bytes, inputs_bytes, session_bytes};
ghost use Rattle.forms.specs.Answers.{answer_values, outcome_values, written_at};

use semantics::{Answer, Input, Outcome, Result, Session, State, numbers};
use std::array;
use words::Word;

// The bytes of a word.
const WORD: u16 = words::BYTES as u16;

// The bytes of an input, whose value is a word and stands in the second half.
const INPUT: u16 = 2 * WORD;

pub const INPUTS: usize = (INPUT * numbers::INPUT_COUNT) as usize;

pub const SESSION: usize = INPUTS + 10;

pub const NUMBERS: usize = (WORD * numbers::INPUT_COUNT) as usize;

pub const RESULT: usize = 8;

pub const ANSWER: usize = 10;

pub const READING: usize = 2 * words::BYTES;

// Where a session's rest begins, after the inputs, and in it its count, S and T, accepted rules and halted mark.
const REST: u16 = INPUTS as u16;

const COUNT: u32 = REST as u32;

const STATE: u16 = REST + 2;

const ACCEPTED: u32 = COUNT + 6;

const HALTED: u32 = COUNT + 8;

// What the library answers where it is lent a form of another length. A number, as the C interface answers with it.
pub const WRONG_LENGTH: u8 = 255;

// A number that is no term's.
const NO_TERM: u16 = 65535;

// The number of the two bytes at a position.
fn two(s: &[u8], at: u32) -> u16
    ensures { result ≡ pair_at s.now at }
{
    let i = at as usize;
    slices::pair(slices::byte(s, i), slices::byte(s, i + 1))
}

// The word of the bytes at a position.
pub fn word_at(s: &[u8], at: u16) -> Word
    ensures { result ≡ word_at s.now at }
{
    let i = u32::from(at);
    words::join(two(s, i), two(s, i + 2))
}

fn input_in(s: &[u8], i: u8) -> Input
    ensures { result ≡ input_at s.now i }
{
    let at = INPUT * u16::from(i);
    Input {
        kind: slices::byte(s, usize::from(at)),
        value: word_at(s, at + WORD),
    }
}

pub fn inputs_in(s: &[u8]) -> [Input; 16]
    ensures { result ≡ inputs_in s.now }
{
    array::from_fn(|i| input_in(s, i as u8))
}

pub fn numbers_in(s: &[u8]) -> [Word; 16]
    ensures { result ≡ numbers_in s.now }
{
    array::from_fn(|i| word_at(s, WORD * i as u16))
}

// Whether what stands between the kind and the value of an input is zero.
fn input_zeroed(s: &[u8], i: u8) -> bool
    ensures { result ≡ input_zeroed s.now i }
{
    slices::byte(s, usize::from(INPUT * u16::from(i)) + 1) == 0
}

// Whether what stands between kind and value is zero in each of the 16 inputs.
pub fn inputs_zeroed(s: &[u8]) -> bool
    ensures { result ≡ inputs_zeroed s.now }
{
    (0..16).all(|i| input_zeroed(s, i))
}

#[tactic(auto, unfolding(crate::specs::Forms::inputs_formed))]
pub fn inputs_formed(s: &[u8]) -> bool
    ensures { result ≡ inputs_formed s.now }
{
    s.len() == INPUTS && inputs_zeroed(s)
}

// A mark that is 0 or 1, and a zero after it.
#[tactic(auto, unfolding(crate::specs::Forms::mark_formed))]
fn mark_formed(s: &[u8], at: u32) -> bool
    ensures { result ≡ mark_formed s.now at }
{
    let i = at as usize;
    slices::byte(s, i) < 2 && slices::byte(s, i + 1) == 0
}

#[tactic(auto, unfolding(crate::specs::Forms::session_formed))]
pub fn session_formed(s: &[u8]) -> bool
    ensures { result ≡ session_formed s.now }
{
    inputs_zeroed(s) && mark_formed(s, HALTED)
}

// What is assumed and what is asserted, by the two numbers at a position.
fn state_in(s: &[u8], at: u16) -> State
    ensures { result ≡ record { assumed = pair_at s.now at; asserted = pair_at s.now (at + 2) } }
{
    let i = u32::from(at);
    State {
        assumed: two(s, i),
        asserted: two(s, i + 2),
    }
}

#[tactic(auto, unfolding(crate::specs::Forms::session_in))]
pub fn session_in(s: &[u8]) -> Session
    ensures { result ≡ session_in s.now }
{
    Session {
        inputs: inputs_in(s),
        count: two(s, COUNT),
        state: state_in(s, STATE),
        halted: slices::byte(s, HALTED as usize) == 1,
        accepted: two(s, ACCEPTED),
    }
}

// A broken form is a result that names no term.
#[tactic(auto, using(notation::proofs::Follow::tests), unfolding(crate::specs::Forms::result_in))]
pub fn result_in(s: &[u8]) -> Result
    ensures { result ≡ result_in s.now }
{
    if !mark_formed(s, 6) {
        return Result {
            state: State {
                assumed: NO_TERM,
                asserted: NO_TERM,
            },
            value: NO_TERM,
            halted: false,
        };
    }
    Result {
        state: state_in(s, 0),
        value: two(s, 4),
        halted: slices::byte(s, 6) == 1,
    }
}

// Stores a byte; past the end nothing.
fn put(s: &mut [u8], at: usize, v: u8)
    ensures { s.new ≡ set s.old at v }
{
    if at < s.len() {
        s[at] = v;
    }
}

fn put_two(s: &mut [u8], at: u32, v: u16)
    ensures { s.new ≡ sets s.old at (pairs_of (v ∷ [])) }
{
    let i = at as usize;
    let [low, high] = v.to_le_bytes();
    put(s, i, low);
    put(s, i + 1, high);
}

// A word, the low half first.
pub fn put_word(s: &mut [u8], at: u16, w: Word)
    ensures { s.new ≡ sets s.old at (word_bytes_of w) }
{
    put_two(s, u32::from(at), words::low(w));
}

// Five numbers of two bytes each.
fn put_five(s: &mut [u8], at: u16, numbers: [u16; 5])
    ensures { s.new ≡ sets s.old at (pairs_of numbers) }
{
    for (i, n) in numbers.iter().enumerate() {
        put_two(s, u32::from(at) + 2 * i as u32, *n);
    }
}

fn put_input(s: &mut [u8], i: u8, x: Input)
    ensures { s.new ≡ sets s.old (input_size * i) (input_bytes x) }
{
    let at = INPUT * u16::from(i);
    put_word(s, at, Word::from(x.kind));
    put_word(s, at + WORD, x.value);
}

fn put_inputs(s: &mut [u8], inputs: [Input; 16])
    ensures long { length (inputs_bytes inputs) ≡ inputs_length }
    ensures bytes { s.new ≡ sets s.old 0 (inputs_bytes inputs) }
{
    for (i, x) in inputs.iter().enumerate() {
        put_input(s, i as u8, *x);
    }
}

pub fn put_session(s: &mut [u8], x: Session)
    ensures { (length (session_bytes x) ≡ session_length) × (s.new ≡ sets s.old 0 (session_bytes x)) }
{
    put_inputs(s, x.inputs);
    put_five(
        s,
        REST,
        [
            x.count,
            x.state.assumed,
            x.state.asserted,
            x.accepted,
            u16::from(x.halted),
        ],
    );
}

// S, T, the value, the halted mark and the depth.
fn put_result(place: &mut [u8], x: State, value: u16, mark: u16, depth: u16) -> u8
    ensures { (result, place.new) ≡ written_at pairs_of (0 ∷ x.assumed ∷ x.asserted ∷ value ∷ mark ∷ depth ∷ []) place.old }
{
    put_five(place, 0, [x.assumed, x.asserted, value, mark, depth]);
    0
}

// What an evaluation answered, at its place; or the refusal, as the number that the C interface answers with.
pub fn put_answer(place: &mut [u8], a: Answer) -> u8
    ensures { (result, place.new) ≡ written_at pairs_of (answer_values a) place.old }
{
    match a {
        Answer::Out {
            state,
            value,
            depth,
        } => put_result(place, state, value, 0, depth),
        Answer::Halt { state, depth } => put_result(place, state, 0, 1, depth),
        Answer::Refused(k) => k,
    }
}

// A kind and a number, each as a word.
fn put_kind(place: &mut [u8], kind: u8, n: Word) -> u8
    ensures { (result, place.new) ≡ written_at words_of (0 ∷ kind ∷ n ∷ []) place.old }
{
    put_word(place, 0, Word::from(kind));
    put_word(place, WORD, n);
    0
}

// What was read or run, at its place; or the refusal, as that number.
pub fn put_outcome(place: &mut [u8], o: Outcome) -> u8
    ensures { (result, place.new) ≡ written_at words_of (outcome_values o) place.old }
{
    match o {
        Outcome::Truth(b) => put_kind(place, numbers::TRUTH_TERM, Word::from(b)),
        Outcome::Word(w) => put_kind(place, numbers::WORD_TERM, w),
        Outcome::Procedure(i) => put_kind(place, numbers::PROCEDURE_TERM, i),
        Outcome::Abort => put_kind(place, numbers::ABORT_RECORD, 0),
        Outcome::Error => put_kind(place, numbers::ERROR_RECORD, 0),
        Outcome::Refused(k) => k,
    }
}
