// Words: the operators of document 01, and a word in the fields of 16 bits of a record or a term. The width stands in
// this crate alone. No function has a `requires`.
#![tactic(auto)]

ghost use Rattle.std.specs.Prelude.{◌≡◌, ◌%◌};
ghost use Rattle.words.specs.Words.{width, word_limit, low_of, high_of, join_of, sum_of, difference_of, product_of, and_of, or_of, xor_of, left_of, right_of, ones_of, zeros_of};

pub type Word = u16;

// A number of twice a word's width.
pub type Wide = u32;

// The bits of a word.
pub const WIDTH: Word = 16;

// The fields of 16 bits that a word takes.
pub const FIELDS: u8 = (WIDTH / 16) as u8;

// The bytes that a word takes.
pub const BYTES: usize = WIDTH as usize / 8;

// How many words there are.
pub const WORDS: Wide = 1 << (WIDTH as Wide);

// A word's first field.
#[tactic(auto, unfolding(crate::specs::Words::low_of))]
pub fn low(w: Word) -> u16
    ensures { result ≡ low_of w }
{
    w
}

// A word's second field; 0 where a word takes one.
#[tactic(auto, unfolding(crate::specs::Words::high_of))]
pub fn high(w: Word) -> u16
    ensures { result ≡ high_of w }
{
    0
}

// The word in two fields.
#[tactic(auto, unfolding(crate::specs::Words::join_of))]
pub fn join(first: u16, second: u16) -> Word
    ensures { result ≡ join_of first second }
{
    first
}

// A word as a number of four bytes.
pub fn widen(n: Word) -> u32
    ensures { result ≡ n }
{
    u32::from(n)
}

// The word in a number of four bytes: its low bits.
pub fn narrow(n: u32) -> Word
    ensures { result ≡ n % word_limit }
{
    (Wide::from(n) % WORDS) as Word
}

// The sum, wrapped.
pub fn add(a: Word, b: Word) -> Word
    ensures { result ≡ sum_of width a b }
{
    a.wrapping_add(b)
}

// The difference, wrapped.
pub fn subtract(a: Word, b: Word) -> Word
    ensures { result ≡ difference_of width a b }
{
    a.wrapping_sub(b)
}

// The low half of the product.
pub fn multiply(a: Word, b: Word) -> Word
    ensures { result ≡ product_of width a b }
{
    a.wrapping_mul(b)
}

pub fn and(a: Word, b: Word) -> Word
    ensures { result ≡ and_of a b }
{
    a & b
}

pub fn or(a: Word, b: Word) -> Word
    ensures { result ≡ or_of a b }
{
    a | b
}

pub fn xor(a: Word, b: Word) -> Word
    ensures { result ≡ xor_of a b }
{
    a ^ b
}

// Zero once the amount reaches the width.
#[tactic(auto, using(notation::proofs::Follow::values))]
pub fn shift_left(a: Word, b: Word) -> Word
    ensures { result ≡ left_of width a b }
{
    if b < WIDTH { a << b } else { 0 }
}

// Zero once the amount reaches the width.
#[tactic(auto, using(notation::proofs::Follow::values))]
pub fn shift_right(a: Word, b: Word) -> Word
    ensures { result ≡ right_of width a b }
{
    if b < WIDTH { a >> b } else { 0 }
}

pub fn count_ones(a: Word) -> Word
    ensures { result ≡ ones_of a }
{
    a.count_ones() as Word
}

// The width for 0.
pub fn leading_zeros(a: Word) -> Word
    ensures { result ≡ zeros_of width a }
{
    a.leading_zeros() as Word
}
