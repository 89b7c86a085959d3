// Merging guarded results over a state: a pass for every S, one for every T, and one for the values, from the right by
// choice. The results are a lent list. No public function has a `requires`.
#![tactic(auto)]

ghost use Rattle.semantics.specs.Steps.{each};
ghost use Rattle.semantics.specs.Merge.{assumed_step, asserted_step, merge_values_of, merge_of};
ghost use Rattle.terms.specs.Gives.{Gives};
ghost use Rattle.branches.specs.Values.{GivesValue};

use semantics::{Branch, Refusal, State};
use states::Steps;
use terms::Table;

// The result of guarded branches, merged over the state x.
pub fn merge(table: &mut Table, x: State, branches: &[Branch]) -> Result<semantics::Result, Refusal>
    ensures { Gives (merge_of x branches.now) table.old 0 result table.new }
{
    let assumed = merge_assumed(table, x, branches)?;
    let merged = merge_asserted(table, assumed, branches)?;
    let value = merge_values(table, branches)?;
    Ok(branches::finish(table, merged, value))
}

// Every branch's S, in order.
fn merge_assumed(table: &mut Table, x: State, branches: &[Branch]) -> Result<State, Refusal>
    ensures { Gives (each assumed_step x branches.now) table.old 0 result table.new }
{
    let mut state = x;
    for b in branches {
        state = state.merge_assumed(table, b.guard, b.state.assumed)?;
    }
    Ok(state)
}

// Every branch's T, in order.
fn merge_asserted(table: &mut Table, x: State, branches: &[Branch]) -> Result<State, Refusal>
    ensures { Gives (each asserted_step x branches.now) table.old 0 result table.new }
{
    let mut state = x;
    for b in branches {
        state = state.merge_asserted(table, b.guard, b.state.asserted)?;
    }
    Ok(state)
}

// The branches' value, from the right; none where no branch gives one.
fn merge_values(table: &mut Table, branches: &[Branch]) -> Result<Option<u16>, Refusal>
    ensures { GivesValue (merge_values_of branches.now) table.old result table.new }
{
    let mut value = None;
    for b in branches.iter().rev() {
        value = branches::merge_value(table, *b, value)?;
    }
    Ok(value)
}
