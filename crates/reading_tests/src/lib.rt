// Whether the numbers and the result of a reading are such as can be read, the tests 13 and 14, and the number of an input. No
// public function has a `requires`.
#![tactic(auto)]

ghost use Rattle.std.specs.Prelude.{◌≡◌, get_or};
ghost use Rattle.std.specs.List.{zip, list_all};
ghost use Rattle.semantics.specs.Terms.{terms_in};
ghost use Rattle.semantics.specs.Reading.{numbers_taken, result_taken};
ghost use Rattle.reading_tests.specs.Taken.{number_taken};

use semantics::{Input, Result, numbers};
use words::Word;

// No free truth is given a number over 1.
pub fn numbers_taken(inputs: [Input; 16], numbers: [Word; 16]) -> bool
    ensures { result ≡ numbers_taken inputs numbers }
{
    each_taken(&inputs, &numbers)
}

// Each number, by its own input. A function of its own, since its clause follows the chain.
fn each_taken(inputs: &[Input], numbers: &[Word]) -> bool
    ensures { result ≡ list_all (λ p. number_taken p.0 p.1) (zip inputs.now numbers.now) }
{
    inputs
        .iter()
        .zip(numbers)
        .all(|(x, n)| number_taken(*x, *n))
}

// Any number will do for an input that is no free truth.
#[tactic(auto, using(notation::proofs::Follow::tests), unfolding(crate::specs::Taken::number_taken))]
fn number_taken(x: Input, n: Word) -> bool
    ensures { result ≡ number_taken x n }
{
    x.kind != numbers::FREE_TRUTH || n < 2
}

// The number of an input; 0 past the last.
pub fn number(numbers: [Word; 16], i: u16) -> Word
    ensures { result ≡ get_or numbers i 0 }
{
    numbers.get(i as usize).copied().unwrap_or(0)
}

// What is assumed and what is asserted are truths below the count, and the value is below it and no binding. A
// halt has no value.
#[tactic(auto, using(notation::proofs::Follow::tests), unfolding(semantics::specs::Reading::result_taken))]
pub fn result_taken(table: &[u8], count: u16, res: Result) -> bool
    ensures { result ≡ result_taken (terms_in table.now count) res }
{
    terms::names_truth(table, count, res.state.assumed)
        && terms::names_truth(table, count, res.state.asserted)
        && (res.halted || terms::names_value(table, count, res.value))
}
