// The operators by their codes: the one constant table of operand counts and result kinds, and what the codes
// 1 to 12 give on words. No public function has a `requires`.
#![tactic(auto)]

ghost use Rattle.std.specs.Prelude.{◌≡◌};
ghost use Rattle.operators.specs.Operators.{row_of, operands_of, gives_truth_of, bit_of, operate_of};

use words::Word;

// Every code is below this.
const CODES: usize = 36;

// For each code its operands, and 4 more where it gives a truth; 0: no such code.
// Both in one number, as `row_of` has them: the table here is the one of the definitions.
const OPERATORS: [u8; CODES] = [
    0, 2, 2, 2, 2, 2, 2, 2, 2, 1, 1, 6, 6, 5, 5, 5, 0, 0, 0, 0, 0, 0, 0, 0, 0, 0, 0, 0, 0, 0, 0, 0,
    5, 6, 6, 5,
];

// A truth as a number.
pub fn bit(b: bool) -> Word
    ensures { result ≡ bit_of b }
{
    Word::from(b)
}

// What the operator with a code from 1 to 12 gives on two words: a word, or a truth as 0 or 1. Any other code
// is taken for 12.
// By the code's number and no enum: `operate_of` is over every number, and callers have it from a byte.
#[tactic(auto, using(notation::proofs::Follow::values), unfolding(crate::specs::Operators::operate_of))]
pub fn operate(op: u8, x: Word, y: Word) -> Word
    ensures { result ≡ operate_of op x y }
{
    match op {
        1 => words::add(x, y),
        2 => words::subtract(x, y),
        3 => words::multiply(x, y),
        4 => words::and(x, y),
        5 => words::or(x, y),
        6 => words::xor(x, y),
        7 => words::shift_left(x, y),
        8 => words::shift_right(x, y),
        9 => words::count_ones(x),
        10 => words::leading_zeros(x),
        11 => bit(x < y),
        _ => bit(x == y),
    }
}

// An operator's row of the table; 0 past its end.
#[tactic(auto, unfolding(crate::specs::Operators::row_of))]
fn row(op: u8) -> u8
    ensures { result ≡ row_of op }
{
    OPERATORS.get(usize::from(op)).copied().unwrap_or(0)
}

// How many operands an operator has; 0: no such code.
#[tactic(auto, unfolding(crate::specs::Operators::operands_of))]
pub fn operands(op: u8) -> u8
    ensures { result ≡ operands_of op }
{
    row(op) % 4
}

// Whether an operator gives a truth.
#[tactic(auto, unfolding(crate::specs::Operators::gives_truth_of))]
pub fn gives_truth(op: u8) -> bool
    ensures { result ≡ gives_truth_of op }
{
    4 < row(op)
}
