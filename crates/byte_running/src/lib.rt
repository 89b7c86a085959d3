// The plain run over byte forms. The store is zero on every return. No public function has a `requires`.
#![tactic(auto)]

ghost use Rattle.std.specs.Prelude.{◌≡◌};
ghost use Rattle.semantics.specs.Refusals.{answer_number};
ghost use Rattle.byte_running.specs.Run.{run_unformed, desk_run};

use semantics::Refusal;

// The tests of the forms: their lengths, then the inputs.
#[tactic(auto, using(crate::proofs::Answers::forms), unfolding(crate::specs::Run::run_unformed))]
fn test_forms(inputs: &[u8], numbers: &[u8], reading: usize) -> Result<(), Refusal>
    ensures { answer_number result ≡ run_unformed inputs.now numbers.now reading }
{
    if numbers.len() != forms::NUMBERS || reading != forms::READING {
        return Err(Refusal::WrongLength);
    }
    if !forms::inputs_formed(inputs) {
        return Err(Refusal::BadInput);
    }
    Ok(())
}

// Runs a rule plainly under sixteen numbers. A number, as the C interface answers with it.
pub fn run(
    inputs: &[u8],
    numbers: &[u8],
    rule: &[u8],
    allowance: u16,
    store: &mut [u8],
    reading: &mut [u8],
) -> u8
    ensures { (result, store.new, reading.new) ≡ desk_run inputs.now numbers.now rule.now allowance store.old reading.old }
{
    if let Err(refusal) = test_forms(inputs, numbers, reading.len()) {
        slices::wipe(store, 0);
        return refusal.number();
    }
    let outcome = operations::run_plainly(
        forms::inputs_in(inputs),
        forms::numbers_in(numbers),
        rule,
        allowance,
        store,
    );
    forms::put_outcome(reading, outcome)
}
