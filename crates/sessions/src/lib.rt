// Evaluating a rule in a session: the refusals 3 to 9 in their order, the halted session, then the evaluation. A
// refusal leaves session and table as they were. No public function has a `requires`.
#![tactic(auto)]

ghost use Rattle.std.specs.Prelude.{true, ◌≡◌, ◌<◌};
ghost use Rattle.semantics.specs.declared.Answer.TheVariants.{Refused};
ghost use Rattle.semantics.specs.Numbers.{rule_limit};
ghost use Rattle.semantics.specs.Refusals.{number_of};
ghost use Rattle.semantics.specs.Rules.{rule_refusal_of};
ghost use Rattle.semantics.specs.Fits.{fits_of};
ghost use Rattle.semantics.specs.Evaluate.{evaluated as «evaluated-by-rules», evaluate_of};
ghost use Rattle.fitting.specs.Opens.{Enters};

use evaluator::Rule;
use semantics::{Answer, Evaluated, Refusal, Session, numbers};
use terms::Table;

// A refusal by its number; the session stays as it was.
fn refused(session: Session, k: Refusal) -> Evaluated
    ensures { result ≡ record { answer = Refused (number_of k); session = session } }
{
    Evaluated {
        answer: Answer::Refused(k.number()),
        session,
    }
}

// The evaluation by the rules, from record 0 and input 0's binding. What a refused one wrote behind the count is zeroed.
fn evaluated(
    session: Session,
    table: &mut [u8],
    rule: &[u8],
    allowance: u16,
    environment: u16,
) -> Evaluated
    requires taken { (fits_of session table.old ≡ true) × (rule_refusal_of rule.now ≡ 0) × (session.accepted < rule_limit) }
    requires enters { Enters session.inputs environment }
    ensures { (result, table.new) ≡ «evaluated-by-rules» rule.now allowance session table.old }
{
    let mut terms = Table {
        bytes: &mut *table,
        count: session.count,
    };
    let rule = Rule {
        records: rule,
        before: session.accepted,
    };
    let out = evaluator::eval(&mut terms, rule, allowance, 0, environment, session.state);
    let count = terms.count;
    match out {
        Ok(out) => Evaluated {
            answer: acceptance::answer(out.result, out.used),
            session: acceptance::advanced(session, count, out.result),
        },
        Err(k) => {
            slices::wipe(table, session.count as usize * 8);
            refused(session, k)
        }
    }
}

// A rule, at an allowance, in a session over a lent table: the answer and the session then.
pub fn evaluate(session: Session, table: &mut [u8], rule: &[u8], allowance: u16) -> Evaluated
    ensures { (result, table.new) ≡ evaluate_of rule.now allowance session table.old }
{
    let environment = match fitting::start_of(session, table) {
        Some(environment) => environment,
        None => return refused(session, Refusal::Misfit),
    };
    match rules::check(rule) {
        Ok(()) => {}
        Err(k) => return refused(session, k),
    }
    if record_tests::bad_depth(allowance) {
        return refused(session, Refusal::BadAllowance);
    }
    if numbers::RULE_LIMIT <= session.accepted {
        return refused(session, Refusal::RulesSpent);
    }
    if session.halted {
        return acceptance::halted_again(session);
    }
    evaluated(session, table, rule, allowance, environment)
}
