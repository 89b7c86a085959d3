// What a let, an if and a call do before their parts run and, for an if, after: each function goes as far as the next
// part and leaves it to the evaluator. None has a `requires`.
#![tactic(auto)]

ghost use Rattle.std.specs.Prelude.{◌≡◌, [], ◌∷◌, max, IfOk};
ghost use Rattle.semantics.specs.declared.State.{State};
ghost use Rattle.semantics.specs.Merge.{branch_of, merge_of};
ghost use Rattle.semantics.specs.Evaluation.{Evaluator, fork_of, if_of, apply_of};
ghost use Rattle.terms.specs.Gives.{mapped, Gives};
ghost use Rattle.expressions.specs.Evaluates.{ending_of};
ghost use Rattle.parts.specs.Onward.{Onward, tested, forked};

use expressions::Out;
use semantics::{Leaf, Refusal, State};
use states::Steps;
use terms::Table;

// How an if goes on: with the one branch that runs alone, where its test is constant; or with both, under its guard.
#[derive(Clone, Copy)]
pub enum Sides {
    Alone(u16),
    Both(u16),
}

// Not g, and the states that assume g and not g.
#[derive(Clone, Copy)]
pub struct Forked {
    pub guard: u16,
    pub yes: State,
    pub no: State,
}

// A target as its body is about to run: the body's record, its bindings and its state.
#[derive(Clone, Copy)]
pub struct Entered {
    pub body: u16,
    pub env: u16,
    pub state: State,
}

// The test at place p of an if whose branches are q and r.
pub fn test(table: &mut Table, p: u16, q: u16, r: u16, env: u16) -> Result<Sides, Refusal>
    ensures { Onward (λ (b : Evaluator × State). if_of b.0 p q r env b.1) (tested q r env) table.old result table.new }
{
    let value = expressions::place(table, p, env);
    let guard = factory::truth(table, value)?;
    match table.known(guard) {
        Some(true) => Ok(Sides::Alone(q)),
        Some(false) => Ok(Sides::Alone(r)),
        None => Ok(Sides::Both(guard)),
    }
}

// Not g, and both assumed states.
pub fn fork(table: &mut Table, g: u16, state: State) -> Result<Forked, Refusal>
    ensures { Gives (fork_of g state) table.old 0 (mapped forked result) table.new }
{
    let guard = formulas::not_of(table, g)?;
    let yes = state.assume(table, g)?;
    let no = state.assume(table, guard)?;
    Ok(Forked { guard, yes, no })
}

// Both branches of an if, each under its guard, merged over the state before.
pub fn join(
    table: &mut Table,
    state: State,
    g: u16,
    h: u16,
    first: Out,
    second: Out,
) -> Result<Out, Refusal>
    ensures merged { Gives (merge_of state (branch_of g first.result ∷ branch_of h second.result ∷ [])) table.old 0 (ending_of result) table.new }
    ensures used { IfOk result (λ o. o.used ≡ max first.used second.used) }
{
    let yes = branches::branch(g, first.result);
    let no = branches::branch(h, second.result);
    let result = merge::merge(table, state, &[yes, no])?;
    Ok(Out {
        used: first.used.max(second.used),
        result,
    })
}

// A target up to its body: its guard is assumed, then its argument bound.
pub fn enter(
    table: &mut Table,
    rule: &[u8],
    leaf: Leaf,
    arg: u16,
    state: State,
) -> Result<Entered, Refusal>
    ensures { Onward (λ (run : Evaluator). apply_of run rule.now arg state leaf) (λ e run. run e.body e.env e.state) table.old result table.new }
{
    let state = state.assume(table, leaf.guard)?;
    let target = leaf.term;
    let procedure = records::record_at(rule, target.a);
    let env = makers::make_binding(table, arg, target.b)?;
    Ok(Entered {
        body: procedure.p,
        env,
        state,
    })
}
