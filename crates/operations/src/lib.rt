// The operations that read a result and that run a rule plainly, whole: the tests in the order of document 01, then
// the work. The work list and the store are zero on every return. No public function has a `requires`.
#![tactic(auto)]

ghost use Rattle.std.specs.Prelude.{◌≡◌, ℕ, length, OnOk, IfErr};
ghost use Rattle.semantics.specs.Refusals.{number_of};
ghost use Rattle.semantics.specs.declared.Outcome.TheVariants.{Refused};
ghost use Rattle.semantics.specs.Reading.{read_outcome, read_of};
ghost use Rattle.semantics.specs.Run.{inputs_bound};
ghost use Rattle.semantics.specs.PlainRun.{stored_outcome, started_of, places_in, run_outcome, run_plainly_of};
ghost use Rattle.samples.specs.Answers.{outcome_in};

use reader::Place;
use semantics::{Input, Outcome, Refusal, Session};
use words::Word;

// What a result reads as under sixteen numbers; or a refusal, by 3, 13, 14 or 15.
pub fn read(
    session: Session,
    table: &[u8],
    numbers: [Word; 16],
    res: semantics::Result,
    work: &mut [Place],
) -> Outcome
    ensures { (result, work.new) ≡ read_of session table.now numbers res work.old }
{
    match test_reading(session, table, numbers, res) {
        Ok(()) => samples::read_result(table, session.count, numbers, res, work),
        Err(refusal) => {
            reader::wipe(work);
            Outcome::Refused(refusal.number())
        }
    }
}

// The tests before a reading, but for the length of the work list.
#[tactic(auto, using(crate::proofs::Answers::reading_tests))]
fn test_reading(
    session: Session,
    table: &[u8],
    numbers: [Word; 16],
    res: semantics::Result,
) -> Result<(), Refusal>
    ensures taken { OnOk result ((places : ℕ) → read_outcome session table.now numbers res places ≡ outcome_in table.now session.count numbers res places) }
    ensures refused { IfErr result (λ refusal. (places : ℕ) → read_outcome session table.now numbers res places ≡ Refused (number_of refusal)) }
{
    if !fitting::fits(session, table) {
        return Err(Refusal::Misfit);
    }
    if !reading_tests::numbers_taken(session.inputs, numbers) {
        return Err(Refusal::BadNumber);
    }
    if !reading_tests::result_taken(table, session.count, res) {
        return Err(Refusal::BadResult);
    }
    Ok(())
}

// What a rule comes to when it is run over a store of places; or a refusal, by 2, 13, 4 to 8, 16 or 12.
pub fn run_plainly(
    inputs: [Input; 16],
    numbers: [Word; 16],
    rule: &[u8],
    allowance: u16,
    store: &mut [u8],
) -> Outcome
    ensures { (result, store.new) ≡ run_plainly_of inputs numbers rule.now allowance store.old }
{
    match test_run(inputs, numbers, rule, allowance) {
        Ok(()) => interpreter::run_in_store(inputs, numbers, rule, allowance, store),
        Err(refusal) => {
            slices::wipe(store, 0);
            Outcome::Refused(refusal.number())
        }
    }
}

// The tests before a run, but for the length of the store.
#[tactic(auto, using(crate::proofs::Answers::run_tests))]
fn test_run(
    inputs: [Input; 16],
    numbers: [Word; 16],
    rule: &[u8],
    allowance: u16,
) -> Result<(), Refusal>
    ensures taken { OnOk result ((bytes : ℕ) → run_outcome inputs numbers rule.now allowance bytes ≡ stored_outcome (started_of (places_in bytes) rule.now allowance (inputs_bound inputs numbers))) }
    ensures refused { IfErr result (λ refusal. (bytes : ℕ) → run_outcome inputs numbers rule.now allowance bytes ≡ Refused (number_of refusal)) }
{
    if !opening::inputs_taken(inputs) {
        return Err(Refusal::BadInput);
    }
    if !reading_tests::numbers_taken(inputs, numbers) {
        return Err(Refusal::BadNumber);
    }
    rules::check(rule)?;
    if record_tests::bad_depth(allowance) {
        return Err(Refusal::BadAllowance);
    }
    Ok(())
}
