// The gates of a term by number, each packed as one number, and how many gates, helpers and clauses a term has. A term comes with
// the term that its b names: a shift by a word constant has gates of its own. No function has a `requires`.
#![tactic(auto)]

ghost use Rattle.std.specs.Prelude.{◌≡◌, true, false, [], map, ◌-◌, ◌<◌, length, get_or};
ghost use Rattle.words.specs.Words.{width};
ghost use Rattle.circuits.specs.Gates.{clauses};
ghost use Rattle.circuits.specs.Templates.{kinds, shift_by_gates};
ghost use Rattle.clauses.specs.Clauses.{levels, owned, digits, choices, operation_gates, term_gates, helpers, helpers_of};
ghost use Rattle.gate_tables.specs.Packed.{packed};
ghost use Rattle.term_gates.specs.Moved.{shifted, moved_literal, moved_gate, by_constant};

use semantics::{Term, numbers};
use words::{WIDTH, Word};

// The wires that a term owns, and the gates of a shift by a constant: two for the kind, one that says that the operand is a word,
// and one for each bit.
const OWNED: u16 = WIDTH as u16 + 2;

const SHIFT_GATES: u16 = WIDTH as u16 + 3;

// Helper 0 is true where the first operand is a word.
const ONE_WORD: u64 = 2306757830805291011;

// The literal that is false.
const NONE: u64 = 20485;

// The gates of a kind and of the bits of w.
#[tactic(auto, using(crate::proofs::Numbered::kind_bit, crate::proofs::Numbered::kind_past))]
fn bits_gate(first: bool, second: bool, w: Word, i: u16) -> u64
    ensures { result ≡ get_or (map packed (kinds first second (digits 2 width w))) i 0 }
{
    match i {
        0 => u64::from(operators::bit(first)) + 32768,
        1 => u64::from(operators::bit(second)) + 32784,
        _ if i < OWNED => u64::from((w >> (i - 2)) % 2) + 16 * (2048 + u64::from(i)),
        _ => 0,
    }
}

// All but the lowest bit are fixed.
#[tactic(auto, using(crate::proofs::Numbered::free_kind, crate::proofs::Numbered::free_bit, crate::proofs::Numbered::free_past))]
fn free_truth_gate(i: u16) -> u64
    ensures { result ≡ get_or (map packed (kinds false false (digits 3 (width - 1) 0))) i 0 }
{
    if i < 2 {
        return bits_gate(false, false, 0, i);
    }
    if i < OWNED - 1 {
        return bits_gate(false, false, 0, i + 1);
    }
    0
}

// The gates of a kind alone.
#[tactic(auto, using(crate::proofs::Numbered::alone, crate::proofs::Numbered::alone_past))]
fn kind_gate(first: bool, second: bool, i: u16) -> u64
    ensures { result ≡ get_or (map packed (kinds first second [])) i 0 }
{
    if i < 2 {
        return bits_gate(first, second, 0, i);
    }
    0
}

#[tactic(auto, using(crate::proofs::Numbered::choice_at, crate::proofs::Numbered::choice_past))]
fn choice_gate(i: u16) -> u64
    ensures { result ≡ get_or (map packed (choices 0 owned)) i 0 }
{
    if i < OWNED {
        let k = u64::from(i);
        return 9
            + 16 * (2048 + k + 16384 * (8196 + 32768 * (12288 + 2 * k + 32768 * (16384 + 2 * k))));
    }
    0
}

// What bit j is after a shift by w: another bit of the operand, or none.
#[tactic(auto, using(notation::proofs::Follow::values), unfolding(crate::specs::Moved::moved_literal))]
fn moved(up: bool, w: Word, j: u16) -> u64
    ensures { (result ≡ moved_literal up w j) × (result < 32768) }
{
    if j >= WIDTH {
        return NONE;
    }
    if up {
        if j < w {
            return NONE;
        }
        return 2 * (4098 + u64::from(j - w));
    }
    if w < WIDTH - j {
        return 2 * (4098 + u64::from(j + w));
    }
    NONE
}

// The gate of bit j of a shift by w.
#[tactic(auto, using(notation::proofs::Follow::values), unfolding(crate::specs::Moved::moved_gate))]
fn moved_gate(up: bool, w: Word, j: u16) -> u64
    ensures { result ≡ moved_gate up w j }
{
    let l = moved(up, w, j);
    3 + 16 * (2050 + u64::from(j) + 16384 * (32768 * (l + 32768 * l)))
}

// The gates of a shift by a constant, up or down.
#[tactic(auto, using(crate::proofs::Moving::shift_kind, crate::proofs::Moving::shift_guard, crate::proofs::Moving::shift_bit, crate::proofs::Moving::shift_past))]
fn shift_gate(up: bool, w: Word, i: u16) -> u64
    ensures { result ≡ get_or (map packed (shift_by_gates levels (shifted up) w)) i 0 }
{
    if i < 2 {
        return bits_gate(true, false, 0, i);
    }
    if i == 2 {
        return ONE_WORD;
    }
    if i < SHIFT_GATES {
        return moved_gate(up, w, i - 3);
    }
    0
}

// The code is a shift and u a word constant.
#[tactic(auto, using(notation::proofs::Follow::tests), unfolding(crate::specs::Moved::by_constant))]
fn by_constant(op: u8, u: Term) -> bool
    ensures { result ≡ by_constant op u }
{
    u.kind == numbers::WORD_TERM && (op == numbers::LEFT_CODE || op == numbers::RIGHT_CODE)
}

// An operator term's gate, over the term that its b names.
fn operation_gate(op: u8, u: Term, i: u16) -> u64
    ensures { result ≡ get_or (map packed (operation_gates op u)) i 0 }
{
    if by_constant(op, u) {
        return shift_gate(op == numbers::LEFT_CODE, words::join(u.a, u.b), i);
    }
    gate_tables::code_gate(op, i)
}

// A term's gate with a number, where its b names u; 0 where there is none.
pub fn gate_at(t: Term, u: Term, i: u16) -> u64
    ensures { result ≡ get_or (map packed (term_gates t u)) i 0 }
{
    match t.kind {
        numbers::TRUTH_TERM => bits_gate(false, false, t.a, i),
        numbers::WORD_TERM => bits_gate(true, false, words::join(t.a, t.b), i),
        numbers::FREE_TRUTH_TERM => free_truth_gate(i),
        numbers::FREE_WORD_TERM => kind_gate(true, false, i),
        numbers::OPERATOR_TERM => operation_gate(t.op, u, i),
        numbers::CHOICE_TERM => choice_gate(i),
        numbers::PROCEDURE_TERM => bits_gate(false, true, t.a, i),
        _ => kind_gate(true, true, i),
    }
}

fn operation_gate_count(op: u8, u: Term) -> u16
    ensures { result ≡ length (operation_gates op u) }
{
    if by_constant(op, u) {
        return SHIFT_GATES;
    }
    gate_tables::gate_count(op)
}

fn operation_clause_count(op: u8, u: Term) -> u16
    ensures { result ≡ length (clauses (operation_gates op u)) }
{
    if by_constant(op, u) {
        return 3 * SHIFT_GATES - 4;
    }
    gate_tables::clause_count(op)
}

// How many gates a term has.
// `gate_at` and the two counts match the kind each, as `term_gates` does: one list of a kind's gates would need the heap.
pub fn gate_count(t: Term, u: Term) -> u16
    ensures { result ≡ length (term_gates t u) }
{
    match t.kind {
        numbers::TRUTH_TERM => OWNED,
        numbers::WORD_TERM => OWNED,
        numbers::FREE_TRUTH_TERM => OWNED - 1,
        numbers::FREE_WORD_TERM => 2,
        numbers::OPERATOR_TERM => operation_gate_count(t.op, u),
        numbers::CHOICE_TERM => OWNED,
        numbers::PROCEDURE_TERM => OWNED,
        _ => 2,
    }
}

// How many helpers.
pub fn helper_count(t: Term, u: Term) -> u16
    ensures { (result ≡ helpers_of t u) × (result < 1024) }
{
    if t.kind != numbers::OPERATOR_TERM {
        return 0;
    }
    if by_constant(t.op, u) {
        return 1;
    }
    gate_tables::helper_count(t.op)
}

// How many clauses.
pub fn clause_count(t: Term, u: Term) -> u16
    ensures { result ≡ length (clauses (term_gates t u)) }
{
    match t.kind {
        numbers::TRUTH_TERM => OWNED,
        numbers::WORD_TERM => OWNED,
        numbers::FREE_TRUTH_TERM => OWNED - 1,
        numbers::FREE_WORD_TERM => 2,
        numbers::OPERATOR_TERM => operation_clause_count(t.op, u),
        numbers::CHOICE_TERM => 4 * OWNED,
        numbers::PROCEDURE_TERM => OWNED,
        _ => 2,
    }
}
