// Opening a session: the refusals 1 and 2, and the terms of the inputs, made by the same factory as
// evaluation's. A refused table is left untouched. No public function has a `requires`.
#![tactic(auto)]

ghost use Rattle.std.specs.Prelude.{◌≡◌, ◌-◌, ◌≤◌};
ghost use Rattle.std.specs.List.{list_all};
ghost use Rattle.notation.specs.Notation.{every};
ghost use Rattle.semantics.specs.Steps.{make_of};
ghost use Rattle.semantics.specs.Opening.{bad_table_size, input_taken, input_term, session_of, open_of};
ghost use Rattle.terms.specs.Gives.{Makes, from};
ghost use Rattle.opening.specs.Openings.{no_input, open_from, open_all, opened_of};

use semantics::{Input, Refusal, Session, State, numbers};
use terms::Table;

// Refusal 1, of a table's length in bytes.
pub fn bad_table_size(l: usize) -> bool
    ensures { result ≡ bad_table_size l }
{
    if l % 8 == 0 {
        return l < numbers::LEAST_TABLE || numbers::MOST_TABLE < l;
    }
    true
}

// An input that opening takes.
#[tactic(auto, using(notation::proofs::Follow::tests), unfolding(semantics::specs::Opening::input_taken))]
fn input_taken(x: Input) -> bool
    ensures { result ≡ input_taken x }
{
    match x.kind {
        numbers::CONSTANT_TRUTH => x.value < 2,
        numbers::CONSTANT_WORD => true,
        numbers::FREE_TRUTH => x.value == 0,
        numbers::FREE_WORD => x.value == 0,
        _ => false,
    }
}

// Whether test 2 takes every input.
pub fn inputs_taken(inputs: [Input; 16]) -> bool
    ensures { result ≡ every input_taken inputs }
{
    each_taken(&inputs)
}

fn each_taken(inputs: &[Input]) -> bool
    ensures { result ≡ list_all input_taken inputs.now }
{
    inputs.iter().all(|x| input_taken(*x))
}

// The term of input i.
fn make_input(table: &mut Table, i: u16, x: Input) -> Result<u16, Refusal>
    ensures { Makes (make_of (input_term i x)) table.old result table.new }
{
    match x.kind {
        numbers::CONSTANT_TRUTH => makers::make_truth(table, terms::truth_number(x.value)),
        numbers::CONSTANT_WORD => makers::make_word(table, x.value),
        numbers::FREE_TRUTH => makers::make_free(table, numbers::FREE_TRUTH_TERM, i),
        _ => makers::make_free(table, numbers::FREE_WORD_TERM, i),
    }
}

// The terms of the inputs from number i on, then their bindings, the last input's first.
fn open_from(table: &mut Table, inputs: [Input; 16], i: u16) -> Result<u16, Refusal>
    requires { i ≤ 16 }
    ensures { Makes (open_from i (from no_input inputs i (16 - i))) table.old result table.new }
{
    if i >= numbers::INPUT_COUNT {
        return Ok(numbers::NO_BINDING);
    }
    let value = make_input(table, i, inputs[i as usize])?;
    let later = open_from(table, inputs, i + 1)?;
    makers::make_binding(table, value, later)
}

// All terms of an opening.
pub fn open_all(table: &mut Table, inputs: [Input; 16]) -> Result<u16, Refusal>
    ensures { Makes (open_all inputs) table.old result table.new }
{
    makers::make_truth(table, 0)?;
    makers::make_truth(table, 1)?;
    open_from(table, inputs, 0)
}

// The session at the start, with `count` terms.
fn session(inputs: [Input; 16], count: u16) -> Session
    ensures { result ≡ session_of inputs count }
{
    Session {
        inputs,
        count,
        state: State {
            assumed: numbers::TRUE_NUMBER,
            asserted: numbers::TRUE_NUMBER,
        },
        halted: false,
        accepted: 0,
    }
}

// A session over a lent table, which then holds the terms of the inputs and zeros; or a refusal, by 1 or 2.
pub fn open(inputs: [Input; 16], table: &mut [u8]) -> Result<Session, Refusal>
    ensures { (opened_of inputs result, table.new) ≡ open_of inputs table.old }
{
    if bad_table_size(table.len()) {
        return Err(Refusal::TableSize);
    }
    if !inputs_taken(inputs) {
        return Err(Refusal::BadInput);
    }
    slices::wipe(table, 0);
    let mut terms = Table {
        bytes: table,
        count: 0,
    };
    // every table that 1 takes has room for them
    open_all(&mut terms, inputs).unwrap();
    Ok(session(inputs, terms.count))
}
