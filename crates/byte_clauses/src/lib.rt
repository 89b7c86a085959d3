// Clauses over byte forms: session, result and goal are forms, the text goes into a lent buffer, and its length into a list of
// one number. No public function has a `requires`.
#![tactic(auto)]

ghost use Rattle.std.specs.Prelude.{◌≡◌};
ghost use Rattle.semantics.specs.Refusals.{answer_number};
ghost use Rattle.byte_clauses.specs.Clauses.{clauses_unformed, desk_clauses};

use semantics::Refusal;
use writer::Unwritten;

// The tests of the forms: their lengths and the goal, then the session.
#[tactic(auto, using(crate::proofs::Answers::forms), unfolding(crate::specs::Clauses::clauses_unformed))]
fn test_forms(session: &[u8], res: &[u8], goal: &[u8], lengths: usize) -> Result<(), Refusal>
    ensures { answer_number result ≡ clauses_unformed session.now res.now goal.now lengths }
{
    if session.len() != forms::SESSION
        || res.len() != forms::RESULT
        || goal.len() != forms::READING
        || lengths != 1
        || !goal_forms::goal_formed(goal)
    {
        return Err(Refusal::WrongLength);
    }
    if !forms::session_formed(session) {
        return Err(Refusal::Misfit);
    }
    Ok(())
}

// Writes the clauses of a table and a goal. A number, as the C interface answers with it.
pub fn clauses(
    session: &[u8],
    table: &[u8],
    res: &[u8],
    goal: &[u8],
    text: &mut [u8],
    length: &mut [u64],
) -> u8
    ensures { (result, text.new, length.new) ≡ desk_clauses session.now table.now res.now goal.now text.old length.old }
{
    if let Err(refusal) = test_forms(session, res, goal, length.len()) {
        return refusal.number();
    }
    let written = writer::write(
        forms::session_in(session),
        table,
        forms::result_in(res),
        goal_forms::goal_in(goal),
        text,
    );
    match written {
        Ok(n) => {
            length[0] = n as u64;
            0
        }
        // In two steps: under one pattern of both the proof did not close.
        Err(why) => match why {
            Unwritten::TooLong(n) => {
                length[0] = n as u64;
                Refusal::TextLong.number()
            }
            Unwritten::Refused(refusal) => refusal.number(),
        },
    }
}
