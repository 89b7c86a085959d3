// What an accepted rule leaves: the answer, and the session with one rule more. The caller has tested that the session may
// accept one more (test 9).
#![tactic(auto, using(notation::proofs::Follow::tests), unfolding(semantics::specs::Answers::answer_of, semantics::specs::Evaluate::halted_again))]

ghost use Rattle.std.specs.Prelude.{List, ◌≡◌, ℕ, ◌<◌};
ghost use Rattle.semantics.specs.Numbers.{rule_limit};
ghost use Rattle.semantics.specs.Answers.{answer_of};
ghost use Rattle.semantics.specs.Evaluate.{advanced as «advanced-session», halted_again};

use semantics::{Answer, Evaluated, Result, Session};

// The session once a rule is accepted.
pub fn advanced(session: Session, count: u16, res: Result) -> Session
    requires { session.accepted < rule_limit }
    ensures { result ≡ «advanced-session» session count res }
{
    // `inputs: session.inputs` would copy an array field into the literal, which the borrow checker does not cover.
    let inputs = session.inputs;
    Session {
        inputs,
        count,
        state: res.state,
        halted: res.halted,
        accepted: session.accepted + 1,
    }
}

// The answer that an accepted rule's result and depth make.
pub fn answer(res: Result, depth: u16) -> Answer
    ensures { result ≡ answer_of res depth }
{
    if res.halted {
        return Answer::Halt {
            state: res.state,
            depth,
        };
    }
    Answer::Out {
        state: res.state,
        value: res.value,
        depth,
    }
}

// A halted session gives its halt again, and has accepted one rule more.
pub fn halted_again(session: Session) -> Evaluated
    requires { session.accepted < rule_limit }
    ensures { (s : List ℕ) → (result, s) ≡ halted_again session s }
{
    let halt = Result {
        state: session.state,
        value: 0,
        halted: true,
    };
    Evaluated {
        answer: Answer::Halt {
            state: session.state,
            depth: 1,
        },
        session: advanced(session, session.count, halt),
    }
}
