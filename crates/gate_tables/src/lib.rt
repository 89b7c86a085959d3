// The gates of the operators' codes as one constant table of numbers, and what each code has of them. Each function equals what
// the definitions give, on all arguments; none has a `requires`.
#![tactic(auto)]

mod constants;

ghost use Rattle.std.specs.Prelude.{◌≡◌, map, ◌<◌, length, get_or};
ghost use Rattle.circuits.specs.Gates.{clauses};
ghost use Rattle.clauses.specs.Clauses.{code_gates, helpers};
ghost use Rattle.gate_tables.specs.Tables.{slots, slot_starts, gate_starts};
ghost use Rattle.gate_tables.specs.Packed.{packed, gate_table, row_of_code};

use crate::constants::{
    CLAUSE_COUNTS, GATE_COUNTS, GATE_STARTS, GATES, HELPER_COUNTS, SLOT_STARTS, SLOTS,
};

// A literal of a function's clauses, or the end of one.
pub fn slot(i: usize) -> u8
    ensures { result ≡ get_or slots i 0 }
{
    SLOTS.get(i).copied().unwrap_or(0)
}

// Where the clauses of a function begin.
pub fn slot_start(f: usize) -> u8
    ensures { result ≡ get_or slot_starts f 0 }
{
    SLOT_STARTS.get(f).copied().unwrap_or(0)
}

// A code's row: those from 36 on have the last one's.
#[tactic(auto, using(notation::proofs::Follow::values), unfolding(crate::specs::Packed::row_of_code))]
fn row(op: u8) -> usize
    ensures { (result ≡ row_of_code op) × (result < 36) }
{
    usize::from(op.min(35))
}

// How many gates a code has.
#[tactic(auto, using(crate::proofs::Right::counted))]
pub fn gate_count(op: u8) -> u16
    ensures { result ≡ length (code_gates op) }
{
    GATE_COUNTS[row(op)]
}

// How many helpers they have.
pub fn helper_count(op: u8) -> u16
    ensures { (result ≡ helpers (code_gates op)) × (result < 1024) }
{
    HELPER_COUNTS[row(op)]
}

// How many clauses they are.
#[tactic(auto, using(crate::proofs::Right::claused))]
pub fn clause_count(op: u8) -> u16
    ensures { result ≡ length (clauses (code_gates op)) }
{
    CLAUSE_COUNTS[row(op)]
}

fn gate_start(op: u8) -> u16
    ensures { result ≡ get_or gate_starts (row_of_code op) 0 }
{
    GATE_STARTS[row(op)]
}

fn gate_number(i: usize) -> u64
    ensures { result ≡ get_or gate_table i 0 }
{
    GATES.get(i).copied().unwrap_or(0)
}

// A code's gate with a number; 0 where there is none.
#[tactic(auto, using(crate::proofs::Right::no_gate))]
pub fn code_gate(op: u8, i: u16) -> u64
    ensures { result ≡ get_or (map packed (code_gates op)) i 0 }
{
    if i < gate_count(op) {
        return gate_number(usize::from(gate_start(op)) + usize::from(i));
    }
    0
}
