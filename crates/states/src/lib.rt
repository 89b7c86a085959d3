// The state of an evaluation, by value. Assuming, asserting and merging one branch are methods that take the state and
// answer the next one, or a refusal. Each promises what its definition gives on all arguments. None has a `requires`.
#![tactic(auto)]

ghost use Rattle.std.specs.Prelude.{◌≡◌};
ghost use Rattle.semantics.specs.States.{merge_assumed_of, merge_asserted_of, assume_of, assert_of, halts_of};
ghost use Rattle.terms.specs.Gives.{held, Gives};

use semantics::{Refusal, State};
use terms::Table;

// The steps of a state over a lent table. A trait, since a method by itself would have to stand in `semantics`, beside `State`.
pub trait Steps {
    // Assume g: S becomes and(S, implies(T, g)).
    fn assume(self, table: &mut Table, g: u16) -> Result<Self, Refusal>;

    // Assert g: T becomes and(T, implies(S, g)).
    fn assert(self, table: &mut Table, g: u16) -> Result<Self, Refusal>;

    // One branch of a merge: S is and'ed with implies(guard, the branch's S).
    fn merge_assumed(self, table: &mut Table, guard: u16, assumed: u16) -> Result<Self, Refusal>;

    // One branch of a merge: T is and'ed with implies(guard, the branch's T).
    fn merge_asserted(self, table: &mut Table, guard: u16, asserted: u16) -> Result<Self, Refusal>;

    // Whether S or T is the term false.
    fn halts(self, table: &Table) -> bool;
}

impl Steps for State {
    fn assume(self, table: &mut Table, g: u16) -> Result<State, Refusal>
        ensures { Gives (assume_of self g) table.old 0 result table.new }
    {
        self.merge_assumed(table, self.asserted, g)
    }

    fn assert(self, table: &mut Table, g: u16) -> Result<State, Refusal>
        ensures { Gives (assert_of self g) table.old 0 result table.new }
    {
        self.merge_asserted(table, self.assumed, g)
    }

    fn merge_assumed(self, table: &mut Table, guard: u16, assumed: u16) -> Result<State, Refusal>
        ensures { Gives (merge_assumed_of self guard assumed) table.old 0 result table.new }
    {
        let implied = formulas::implies(table, guard, assumed)?;
        let assumed = formulas::and_of(table, self.assumed, implied)?;
        Ok(State {
            assumed,
            asserted: self.asserted,
        })
    }

    fn merge_asserted(self, table: &mut Table, guard: u16, asserted: u16) -> Result<State, Refusal>
        ensures { Gives (merge_asserted_of self guard asserted) table.old 0 result table.new }
    {
        let implied = formulas::implies(table, guard, asserted)?;
        let asserted = formulas::and_of(table, self.asserted, implied)?;
        Ok(State {
            assumed: self.assumed,
            asserted,
        })
    }

    fn halts(self, table: &Table) -> bool
        ensures { result ≡ halts_of self (held table.now) }
    {
        table.known(self.assumed) == Some(false) || table.known(self.asserted) == Some(false)
    }
}
