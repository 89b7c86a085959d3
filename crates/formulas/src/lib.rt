// Not, and, or and implies over terms, folded where documents 01 and 02 fold. Each function promises what its definition gives
// on all arguments. None has a `requires`.
#![tactic(auto)]

ghost use Rattle.std.specs.Prelude.{◌≡◌};
ghost use Rattle.semantics.specs.Factory.{is_not_of, not_of, and_of, or_of, implies_of};
ghost use Rattle.terms.specs.Gives.{Makes};

use semantics::{Refusal, Term, numbers};
use terms::Table;

// Whether a term is itself a not.
fn is_not(t: Term) -> bool
    ensures { result ≡ is_not_of t }
{
    t.kind == numbers::OPERATOR_TERM && t.op == numbers::NEGATION_CODE
}

// Not of a constant is the other one, not of a not its operand.
pub fn not_of(table: &mut Table, x: u16) -> Result<u16, Refusal>
    ensures { Makes (not_of x) table.old result table.new }
{
    match table.known(x) {
        Some(false) => return Ok(numbers::TRUE_NUMBER),
        Some(true) => return Ok(numbers::FALSE_NUMBER),
        None => {}
    }
    let operand = table.term(x);
    if is_not(operand) {
        return Ok(operand.a);
    }
    makers::make_operator(table, numbers::NEGATION_CODE, x, 0)
}

// And with false is false, with true the other side, of one term twice that term.
pub fn and_of(table: &mut Table, x: u16, y: u16) -> Result<u16, Refusal>
    ensures { Makes (and_of x y) table.old result table.new }
{
    match table.known(x) {
        Some(false) => return Ok(numbers::FALSE_NUMBER),
        Some(true) => return Ok(y),
        None => {}
    }
    match table.known(y) {
        Some(false) => return Ok(numbers::FALSE_NUMBER),
        Some(true) => return Ok(x),
        None => {}
    }
    if x == y {
        return Ok(x);
    }
    makers::make_operator(table, numbers::CONJUNCTION_CODE, x, y)
}

// Or with true is true, with false the other side, of one term twice that term.
pub fn or_of(table: &mut Table, x: u16, y: u16) -> Result<u16, Refusal>
    ensures { Makes (or_of x y) table.old result table.new }
{
    match table.known(x) {
        Some(true) => return Ok(numbers::TRUE_NUMBER),
        Some(false) => return Ok(y),
        None => {}
    }
    match table.known(y) {
        Some(true) => return Ok(numbers::TRUE_NUMBER),
        Some(false) => return Ok(x),
        None => {}
    }
    if x == y {
        return Ok(x);
    }
    makers::make_operator(table, numbers::DISJUNCTION_CODE, x, y)
}

// The or of not x and y; the not is made even where the or then folds.
pub fn implies(table: &mut Table, x: u16, y: u16) -> Result<u16, Refusal>
    ensures { Makes (implies_of x y) table.old result table.new }
{
    let negated = not_of(table, x)?;
    or_of(table, negated, y)
}
