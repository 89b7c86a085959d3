// Evaluating over byte forms. No public function has a `requires`.
#![tactic(auto)]

ghost use Rattle.std.specs.Prelude.{◌≡◌};
ghost use Rattle.semantics.specs.Refusals.{answer_number};
ghost use Rattle.byte_evaluating.specs.Evaluate.{evaluate_unformed, desk_evaluate};

use semantics::Refusal;

// The tests of the forms: their lengths, then the session.
#[tactic(auto, using(crate::proofs::Answers::forms), unfolding(crate::specs::Evaluate::evaluate_unformed))]
fn test_forms(session: &[u8], answer: usize) -> Result<(), Refusal>
    ensures { answer_number result ≡ evaluate_unformed session.now answer }
{
    if session.len() != forms::SESSION || answer != forms::ANSWER {
        return Err(Refusal::WrongLength);
    }
    if !forms::session_formed(session) {
        return Err(Refusal::Misfit);
    }
    Ok(())
}

// Evaluates a rule in a session over a table, and advances both. A number, as the C interface answers with it.
pub fn evaluate(
    session: &mut [u8],
    table: &mut [u8],
    rule: &[u8],
    allowance: u16,
    answer: &mut [u8],
) -> u8
    ensures { (result, session.new, table.new, answer.new) ≡ desk_evaluate session.old table.old rule.now allowance answer.old }
{
    if let Err(refusal) = test_forms(session, answer.len()) {
        return refusal.number();
    }
    let entered = entry::enter_once(forms::session_in(session), table, rule, allowance);
    let refusal = forms::put_answer(answer, entered.answer);
    if refusal != 0 {
        return refusal;
    }
    forms::put_session(session, entered.session);
    0
}
