// Evaluating an expression and applying a procedure, which call each other. The depth allowance falls with every
// expression and is the measure of the cycle. An expression is a record's number in a lent rule; `env` is the chain
// of bindings, `depth` what the expression's parts have.
#![tactic(auto)]

ghost use Rattle.std.specs.Prelude.{◌≡◌, ◌<◌, ◌≤◌, [], ◌∷◌, ◌++◌, length};
ghost use Rattle.semantics.specs.Numbers.{leaf_limit};
ghost use Rattle.semantics.specs.Evaluation.{under_of, let_of, both_of, if_of, apply_of, targets_of, call_of, expression_of, live_of, eval_of};
ghost use Rattle.expressions.specs.Evaluates.{Evaluates};

use expressions::Out;
use parts::Sides;
use semantics::{Branch, Leaf, Record, Refusal, State, numbers};
use states::Steps;
use std::marker::Model;
use terms::Table;

// A lent rule, and the count of rules accepted before it.
#[derive(Clone, Copy)]
pub struct Rule<'a> {
    pub records: &'a [u8],
    pub before: u16,
}

// What the targets of a call give, in the order in which they ran. An `ArrayVec` would want `Default` of a `Branch`, which has none.
#[derive(Drop)]
struct Results {
    list: [Branch; numbers::LEAF_LIMIT],
    have: usize,
}

impl Model for Results {
    ghost use Rattle.std.specs.Prelude.{◌≡◌, ◌≤◌, List, length, take};
    ghost use Rattle.semantics.specs.Numbers.{leaf_limit};
    ghost use Rattle.semantics.specs.declared.Branch.{Branch as Given};

    ghost Value = { List Given };

    ghost view = { λ v. take v.have v.list };

    ghost invariant = { λ v. (v.have ≤ leaf_limit) × (length v.list ≡ leaf_limit) };
}

impl Results {
    // None yet.
    fn new() -> Results
        ensures { result ≡ [] }
    {
        let blank = Branch {
            guard: 0,
            state: State {
                assumed: 0,
                asserted: 0,
            },
            value: 0,
            halted: false,
        };
        Results {
            list: [blank; numbers::LEAF_LIMIT],
            have: 0,
        }
    }

    // One more. A call has no more targets than leaves, so that there is room.
    fn push(&mut self, branch: Branch)
        requires { length self.old < leaf_limit }
        ensures { self.new ≡ self.old ++ branch ∷ [] }
    {
        self.list[self.have] = branch;
        self.have += 1;
    }

    // Those given.
    fn as_slice(&self) -> &[Branch]
        ensures { result.now ≡ self.now }
    {
        &self.list[..self.have]
    }
}

// The expression at record i, with at most the depth given; depth zero is refused before all else.
#[cycle(evaluation)]
pub fn eval(
    table: &mut Table,
    rule: Rule,
    depth: u16,
    i: u16,
    env: u16,
    state: State,
) -> Result<Out, Refusal>
    ensures { Evaluates depth (eval_of rule.entry.records.now rule.entry.before depth i env state) table.old result table.new }
{
    if depth == 0 {
        return Err(Refusal::DepthSpent);
    }
    let out = live(table, rule, depth - 1, i, env, state)?;
    Ok(Out {
        used: out.used + 1,
        result: out.result,
    })
}

// The expression at record i. A state with false on either side halts.
#[cycle(evaluation)]
fn live(
    table: &mut Table,
    rule: Rule,
    depth: u16,
    i: u16,
    env: u16,
    state: State,
) -> Result<Out, Refusal>
    ensures { Evaluates depth (live_of rule.entry.records.now rule.entry.before (eval_of rule.entry.records.now rule.entry.before depth) i env state) table.old result table.new }
{
    if state.halts(table) {
        return Ok(Out::halt(state));
    }
    let here = records::record_at(rule.records, i);
    expression(table, rule, depth, here, i, env, state)
}

// The record here, whose number is i.
#[cycle(evaluation)]
fn expression(
    table: &mut Table,
    rule: Rule,
    depth: u16,
    here: Record,
    i: u16,
    env: u16,
    state: State,
) -> Result<Out, Refusal>
    ensures { Evaluates depth (expression_of rule.entry.records.now rule.entry.before (eval_of rule.entry.records.now rule.entry.before depth) here i env state) table.old result table.new }
{
    match here.kind {
        numbers::DATUM_RECORD => expressions::datum(table, here, state),
        numbers::VARIABLE_RECORD => expressions::variable(table, here.p, env, state),
        numbers::PROCEDURE_RECORD => expressions::procedure(table, i, env, rule.before, state),
        numbers::CALL_RECORD => {
            let called = expressions::place(table, here.p, env);
            let arg = expressions::place(table, here.q, env);
            call(table, rule, depth, called, arg, state)
        }
        numbers::OPERATOR_RECORD => {
            let a = expressions::place(table, here.p, env);
            let b = expressions::second(table, here.op, here.q, env);
            expressions::operator(table, here.op, a, b, state)
        }
        numbers::LET_RECORD => bind(table, rule, depth, here.p, here.q, env, state),
        numbers::IF_RECORD => decide(table, rule, depth, here.p, here.q, here.r, env, state),
        numbers::ABORT_RECORD => expressions::abort(table, state),
        _ => expressions::error(table, state),
    }
}

// A let: p is evaluated, then q under its value. A halt of p is the answer.
#[cycle(evaluation)]
fn bind(
    table: &mut Table,
    rule: Rule,
    depth: u16,
    p: u16,
    q: u16,
    env: u16,
    state: State,
) -> Result<Out, Refusal>
    ensures { Evaluates depth (let_of (eval_of rule.entry.records.now rule.entry.before depth) p q env state) table.old result table.new }
{
    let first = eval(table, rule, depth, p, env, state)?;
    let value = first.result;
    if value.halted {
        return Ok(first);
    }
    let second = under(table, rule, depth, q, value.value, env, value.state)?;
    Ok(Out {
        used: first.used.max(second.used),
        result: second.result,
    })
}

// The part q with the value bound nearest.
#[cycle(evaluation)]
fn under(
    table: &mut Table,
    rule: Rule,
    depth: u16,
    q: u16,
    value: u16,
    env: u16,
    state: State,
) -> Result<Out, Refusal>
    ensures { Evaluates depth (under_of (eval_of rule.entry.records.now rule.entry.before depth) q value env state) table.old result table.new }
{
    let bound = makers::make_binding(table, value, env)?;
    eval(table, rule, depth, q, bound, state)
}

// An if: one branch only where the test is constant.
#[cycle(evaluation)]
fn decide(
    table: &mut Table,
    rule: Rule,
    depth: u16,
    p: u16,
    q: u16,
    r: u16,
    env: u16,
    state: State,
) -> Result<Out, Refusal>
    ensures { Evaluates depth (if_of (eval_of rule.entry.records.now rule.entry.before depth) p q r env state) table.old result table.new }
{
    match parts::test(table, p, q, r, env)? {
        Sides::Alone(part) => eval(table, rule, depth, part, env, state),
        Sides::Both(g) => both(table, rule, depth, g, q, r, env, state),
    }
}

// Both branches, each from its assumed state, merged over the state before.
#[cycle(evaluation)]
fn both(
    table: &mut Table,
    rule: Rule,
    depth: u16,
    g: u16,
    q: u16,
    r: u16,
    env: u16,
    state: State,
) -> Result<Out, Refusal>
    ensures { Evaluates depth (both_of (eval_of rule.entry.records.now rule.entry.before depth) g q r env state) table.old result table.new }
{
    let fork = parts::fork(table, g, state)?;
    let first = eval(table, rule, depth, q, env, fork.yes)?;
    let second = eval(table, rule, depth, r, env, fork.no)?;
    parts::join(table, state, g, fork.guard, first, second)
}

// A call: where it goes is asserted, then each target runs.
#[cycle(evaluation)]
fn call(
    table: &mut Table,
    rule: Rule,
    depth: u16,
    called: u16,
    arg: u16,
    state: State,
) -> Result<Out, Refusal>
    ensures { Evaluates depth (call_of (eval_of rule.entry.records.now rule.entry.before depth) rule.entry.records.now called arg state) table.old result table.new }
{
    let aim = walk::aim(table, called, state)?;
    let asserted = aim.state;
    if asserted.halts(table) {
        return Ok(Out::halt(asserted));
    }
    targets(table, rule, depth, aim.leaves.as_slice(), arg, asserted)
}

// The targets among the leaves, each run in turn, merged over the asserted state.
#[cycle(evaluation)]
fn targets(
    table: &mut Table,
    rule: Rule,
    depth: u16,
    leaves: &[Leaf],
    arg: u16,
    state: State,
) -> Result<Out, Refusal>
    requires { length leaves.now ≤ leaf_limit }
    ensures { Evaluates depth (targets_of (eval_of rule.entry.records.now rule.entry.before depth) rule.entry.records.now arg state leaves.now) table.old result table.new }
{
    let mut results = Results::new();
    let mut used: u16 = 0;
    for leaf in leaves {
        let leaf = *leaf;
        if leaf.term.kind != numbers::PROCEDURE_TERM {
            continue;
        }
        let out = apply(table, rule, depth, leaf, arg, state)?;
        results.push(branches::branch(leaf.guard, out.result));
        used = used.max(out.used);
    }
    let result = merge::merge(table, state, results.as_slice())?;
    Ok(Out { used, result })
}

// A procedure applied: its guard is assumed, its argument bound, and its body run.
#[cycle(evaluation)]
fn apply(
    table: &mut Table,
    rule: Rule,
    depth: u16,
    leaf: Leaf,
    arg: u16,
    state: State,
) -> Result<Out, Refusal>
    ensures { Evaluates depth (apply_of (eval_of rule.entry.records.now rule.entry.before depth) rule.entry.records.now arg state leaf) table.old result table.new }
{
    let entered = parts::enter(table, rule.records, leaf, arg, state)?;
    eval(table, rule, depth, entered.body, entered.env, entered.state)
}
