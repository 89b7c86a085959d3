// The choices that a call walks. The leaves found are lent down the walk, so that one thousands of choices down keeps little on the stack.
// It has no `requires`.
#![tactic(auto)]

ghost use Rattle.std.specs.Prelude.{◌≡◌, ◌<◌, ◌≤◌, [], ◌∷◌, ◌++◌, length, OnOk, IfErr};
ghost use Rattle.semantics.specs.Numbers.{leaf_limit, call_too_wide, false_number};
ghost use Rattle.semantics.specs.Refusals.{number_of};
ghost use Rattle.semantics.specs.Steps.{each};
ghost use Rattle.semantics.specs.Walk.{left_side_of, walk_of, or_target_of, aim_of};
ghost use Rattle.terms.specs.Gives.{Gives, Makes};
ghost use Rattle.walk.specs.Leaves.{aim_shown, walk_shown};

use semantics::{Leaf, Refusal, State, Term, numbers};
use states::Steps;
use std::marker::Model;
use terms::Table;

// The leaves of one call, in the order in which they are met. An `ArrayVec` would want `Default` of a `Leaf`, which has none.
#[derive(Clone, Copy)]
pub struct Leaves {
    list: [Leaf; numbers::LEAF_LIMIT],
    count: usize,
}

impl Model for Leaves {
    ghost use Rattle.std.specs.Prelude.{◌≡◌, ◌≤◌, ◌-◌, ◌++◌, List, length, take, drop, replicate};
    ghost use Rattle.semantics.specs.Numbers.{leaf_limit};
    ghost use Rattle.semantics.specs.declared.Leaf.{Leaf as Met};
    ghost use Rattle.walk.specs.Blank.{no_leaf, padded, counted};

    ghost Value = { List Met };

    ghost view = { λ v. take v.count v.list };

    ghost invariant = { λ v. (v.count ≤ leaf_limit) × (length v.list ≡ leaf_limit) × (drop v.count v.list ≡ replicate (leaf_limit - v.count) no_leaf) };

    ghost inverse = { λ ls. record { list = ls ++ replicate (leaf_limit - length ls) no_leaf; count = length ls } };

    ghost inverse_ok = { λ v h i. record {
      list = padded no_leaf leaf_limit v.count v.list h.0 h.1 h.2 i;
      count = counted leaf_limit v.count v.list h.0 h.1 i;
    } };
}

impl Leaves {
    // None yet.
    fn new() -> Leaves
        ensures { result ≡ [] }
    {
        let blank = Leaf {
            guard: 0,
            term: Term {
                kind: 0,
                op: 0,
                a: 0,
                b: 0,
                c: 0,
            },
        };
        Leaves {
            list: [blank; numbers::LEAF_LIMIT],
            count: 0,
        }
    }

    // One leaf more, unless there are as many as a call may have.
    fn push(&mut self, leaf: Leaf) -> Result<(), Refusal>
        ensures more { OnOk result ((length self.old < leaf_limit) × (self.new ≡ self.old ++ leaf ∷ [])) }
        ensures too_many { IfErr result (λ k. (leaf_limit ≤ length self.old) × (number_of k ≡ call_too_wide)) }
    {
        if self.count < numbers::LEAF_LIMIT {
            self.list[self.count] = leaf;
            self.count += 1;
            Ok(())
        } else {
            Err(Refusal::CallTooWide)
        }
    }

    // Those met.
    pub fn as_slice(&self) -> &[Leaf]
        ensures value { result.now ≡ self.now }
        ensures few { length result.now ≤ leaf_limit }
    {
        &self.list[..self.count]
    }
}

// The leaves under the value of a call, and the state once it is asserted that one is a target.
#[derive(Clone, Copy)]
pub struct Aimed {
    pub leaves: Leaves,
    pub state: State,
}

// Where a call goes: every leaf under the value called, and the asserted or of the targets' guards. Not inlined: what it
// works with would stay on the stack while the targets run, at every level.
#[inline(never)]
pub fn aim(table: &mut Table, f: u16, state: State) -> Result<Aimed, Refusal>
    ensures { Gives (aim_of f state) table.old 0 (aim_shown result) table.new }
{
    let mut leaves = Leaves::new();
    walk(
        table,
        &mut leaves,
        numbers::TERM_LIMIT,
        numbers::TRUE_NUMBER,
        f,
    )?;
    let any = any_target(table, leaves.as_slice())?;
    let state = state.assert(table, any)?;
    Ok(Aimed { leaves, state })
}

// The leaves under term x, after those found before. A choice names only lower terms, so the fuel is never spent.
#[cycle(side_walk)]
fn walk(table: &mut Table, leaves: &mut Leaves, fuel: u16, path: u16, x: u16) -> Result<(), Refusal>
    ensures { Gives (walk_of fuel path x leaves.old) table.old 0 (walk_shown leaves.new result) table.new }
{
    if fuel == 0 {
        return Ok(());
    }
    let term = table.term(x);
    if term.kind != numbers::CHOICE_TERM {
        return leaves.push(Leaf { guard: path, term });
    }
    side(table, leaves, fuel - 1, path, term.a, term.b)?;
    let negated = formulas::not_of(table, term.a)?;
    side(table, leaves, fuel - 1, path, negated, term.c)
}

// The side of a choice that the test leads to, unless its guard is false.
#[cycle(side_walk)]
fn side(
    table: &mut Table,
    leaves: &mut Leaves,
    fuel: u16,
    path: u16,
    test: u16,
    x: u16,
) -> Result<(), Refusal>
    ensures { Gives (left_side_of (walk_of fuel) path test x leaves.old) table.old 0 (walk_shown leaves.new result) table.new }
{
    let guard = formulas::and_of(table, path, test)?;
    if table.known(guard) == Some(false) {
        return Ok(());
    }
    walk(table, leaves, fuel, guard, x)
}

// The or of the targets' guards, from the left starting at false.
fn any_target(table: &mut Table, leaves: &[Leaf]) -> Result<u16, Refusal>
    ensures { Makes (each or_target_of false_number leaves.now) table.old result table.new }
{
    let mut any = numbers::FALSE_NUMBER;
    for leaf in leaves {
        if leaf.term.kind == numbers::PROCEDURE_TERM {
            any = formulas::or_of(table, any, leaf.guard)?;
        }
    }
    Ok(any)
}
