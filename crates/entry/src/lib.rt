// A session that is lent: a rule is evaluated in it, and it is left advanced, or untouched.
#![tactic(auto)]

ghost use Rattle.std.specs.Prelude.{◌≡◌};
ghost use Rattle.semantics.specs.Evaluate.{evaluate_of};

use semantics::{Answer, Evaluated, Session};

// The answer, and in the lent session and table what document 01 leaves of them.
pub fn enter(session: &mut Session, table: &mut [u8], rule: &[u8], allowance: u16) -> Answer
    ensures { (record { answer = result; session = session.new }, table.new) ≡ evaluate_of rule.now allowance session.old table.old }
{
    let e = sessions::evaluate(*session, table, rule, allowance);
    *session = e.session;
    e.answer
}

// From a session by value to the lent one and back, for callers whose session stands in no place of its own.
pub fn enter_once(session: Session, table: &mut [u8], rule: &[u8], allowance: u16) -> Evaluated
    ensures { (result, table.new) ≡ evaluate_of rule.now allowance session table.old }
{
    let mut lent = session;
    let answer = enter(&mut lent, table, rule, allowance);
    Evaluated {
        answer,
        session: lent,
    }
}
