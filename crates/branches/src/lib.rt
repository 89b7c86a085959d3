// What merging guarded results over a state takes of one branch, and what ends it: a result under its guard, the step of the
// values, and the halt test. No public function has a `requires`.
#![tactic(auto)]

ghost use Rattle.std.specs.Prelude.{◌≡◌};
ghost use Rattle.std.specs.declared.result.Result.TheVariants.{Ok};
ghost use Rattle.semantics.specs.Merge.{branch_of, value_step_of, finish_of};
ghost use Rattle.terms.specs.Gives.{Gives};
ghost use Rattle.branches.specs.Values.{folded_of, GivesValue};

use semantics::{Branch, Refusal, State};
use states::Steps;
use terms::Table;

// A result under its guard.
pub fn branch(guard: u16, x: semantics::Result) -> Branch
    ensures { result ≡ branch_of guard x }
{
    Branch {
        guard,
        state: x.state,
        value: x.value,
        halted: x.halted,
    }
}

// A branch before the later ones' value: a choice under its guard. A halted branch gives none.
pub fn merge_value(table: &mut Table, b: Branch, later: Option<u16>) -> Result<Option<u16>, Refusal>
    ensures { GivesValue (value_step_of b (folded_of later)) table.old result table.new }
{
    if b.halted {
        return Ok(later);
    }
    match later {
        None => Ok(Some(b.value)),
        Some(later) => {
            let chosen = makers::choice(table, b.guard, b.value, later)?;
            Ok(Some(chosen))
        }
    }
}

// All halted, or none ran: halt. Else halt only if S or T is false.
pub fn finish(table: &Table, state: State, value: Option<u16>) -> semantics::Result
    ensures { Gives (finish_of state (folded_of value)) table.now 0 (Ok result) table.now }
{
    match value {
        Some(value) if !state.halts(table) => semantics::Result {
            state,
            value,
            halted: false,
        },
        _ => semantics::Result {
            state,
            value: 0,
            halted: true,
        },
    }
}
