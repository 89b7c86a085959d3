// Samples over byte forms: the session and the result are forms, the numbers and the answers are lists. The work list is zero
// on every return, and the answers are written on success alone. No public function has a `requires`.
#![tactic(auto)]

ghost use Rattle.std.specs.Prelude.{◌≡◌};
ghost use Rattle.semantics.specs.Refusals.{answer_number};
ghost use Rattle.byte_samples.specs.Samples.{samples_unformed, desk_read_all};

use reader::Place;
use semantics::Refusal;
use words::Word;

// Refuses a form of another length, then a session that is not of its form.
#[tactic(auto, using(notation::proofs::Follow::tests, forms::proofs::Lengths::long_so, forms::proofs::Lengths::long_not), unfolding(crate::specs::Samples::samples_unformed))]
fn formed(session: &[u8], res: &[u8]) -> Result<(), Refusal>
    ensures { answer_number result ≡ samples_unformed session.now res.now }
{
    if session.len() != forms::SESSION || res.len() != forms::RESULT {
        return Err(Refusal::WrongLength);
    }
    if !forms::session_formed(session) {
        return Err(Refusal::Misfit);
    }
    Ok(())
}

// Reads a result under each sample of sixteen numbers. The C interface takes a number, and no `Result`.
pub fn read_all(
    session: &[u8],
    table: &[u8],
    res: &[u8],
    numbers: &[Word],
    work: &mut [Place],
    answers: &mut [Place],
) -> u8
    ensures { (result, work.new, answers.new) ≡ desk_read_all session.now table.now res.now numbers.now work.old answers.old }
{
    if let Err(refusal) = formed(session, res) {
        reader::wipe(work);
        return refusal.number();
    }
    let answer = samples::read_all(
        forms::session_in(session),
        table,
        forms::result_in(res),
        numbers,
        work,
        answers,
    );
    semantics::answer_number(answer)
}
