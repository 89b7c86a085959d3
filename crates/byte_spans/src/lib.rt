// Spans over byte forms. The list of reports is written on success alone. No public function has a `requires`.
#![tactic(auto)]

ghost use Rattle.std.specs.Prelude.{◌≡◌};
ghost use Rattle.semantics.specs.Refusals.{answer_number};
ghost use Rattle.byte_spans.specs.Spans.{spans_unformed, desk_spans};

use semantics::Refusal;

// Refuses a form of another length, then a session that is not of its form.
#[tactic(auto, using(notation::proofs::Follow::tests, forms::proofs::Lengths::long_so, forms::proofs::Lengths::long_not), unfolding(crate::specs::Spans::spans_unformed))]
fn formed(session: &[u8], lows: &[u8], highs: &[u8]) -> Result<(), Refusal>
    ensures { answer_number result ≡ spans_unformed session.now lows.now highs.now }
{
    if session.len() != forms::SESSION
        || lows.len() != forms::NUMBERS
        || highs.len() != forms::NUMBERS
    {
        return Err(Refusal::WrongLength);
    }
    if !forms::session_formed(session) {
        return Err(Refusal::Misfit);
    }
    Ok(())
}

// Reports on each term within the spans. The C interface takes a number, and no `Result`.
pub fn spans(session: &[u8], table: &[u8], lows: &[u8], highs: &[u8], reports: &mut [u32]) -> u8
    ensures { (result, reports.new) ≡ desk_spans session.now table.now lows.now highs.now reports.old }
{
    if let Err(refusal) = formed(session, lows, highs) {
        return refusal.number();
    }
    let answer = spans::spans(
        forms::session_in(session),
        table,
        forms::numbers_in(lows),
        forms::numbers_in(highs),
        reports,
    );
    semantics::answer_number(answer)
}
