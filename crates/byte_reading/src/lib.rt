// Reading over byte forms. The work list is zero on every return. No public function has a `requires`.
#![tactic(auto)]

ghost use Rattle.std.specs.Prelude.{◌≡◌};
ghost use Rattle.semantics.specs.Refusals.{answer_number};
ghost use Rattle.byte_reading.specs.Read.{read_unformed, desk_read};

use reader::Place;
use semantics::Refusal;

// The tests of the forms: their lengths, then the session.
#[tactic(auto, using(crate::proofs::Answers::forms), unfolding(crate::specs::Read::read_unformed))]
fn test_forms(session: &[u8], numbers: &[u8], res: &[u8], reading: usize) -> Result<(), Refusal>
    ensures { answer_number result ≡ read_unformed session.now numbers.now res.now reading }
{
    if session.len() != forms::SESSION
        || numbers.len() != forms::NUMBERS
        || res.len() != forms::RESULT
        || reading != forms::READING
    {
        return Err(Refusal::WrongLength);
    }
    if !forms::session_formed(session) {
        return Err(Refusal::Misfit);
    }
    Ok(())
}

// Reads a result under sixteen numbers. A number, as the C interface answers with it.
pub fn read(
    session: &[u8],
    table: &[u8],
    numbers: &[u8],
    res: &[u8],
    work: &mut [Place],
    reading: &mut [u8],
) -> u8
    ensures { (result, work.new, reading.new) ≡ desk_read session.now table.now numbers.now res.now work.old reading.old }
{
    if let Err(refusal) = test_forms(session, numbers, res, reading.len()) {
        reader::wipe(work);
        return refusal.number();
    }
    let outcome = operations::read(
        forms::session_in(session),
        table,
        forms::numbers_in(numbers),
        forms::result_in(res),
        work,
    );
    forms::put_outcome(reading, outcome)
}
