// What a rule's operators make of terms: the truth of a value, the tests of sort, and the operators on words, worked out on
// constants and folded where documents 01 and 02 fold. The terms are made by `makers`. Each function promises what its
// definition gives on all arguments. None has a `requires`.
#![tactic(auto)]

ghost use Rattle.std.specs.Prelude.{◌≡◌};
ghost use Rattle.semantics.specs.Factory.{truth_of, is_word_of, is_procedure_of, constant_of, is_zero_of, zero_absorbs_of, zero_fold_of, operator_term_of};
ghost use Rattle.terms.specs.Gives.{Makes};

use semantics::{Refusal, Term, numbers};
use terms::Table;
use words::Word;

// The truth of a value: only false fails a test.
pub fn truth(table: &mut Table, x: u16) -> Result<u16, Refusal>
    ensures { Makes (truth_of x) table.old result table.new }
{
    match table.sort(x) {
        numbers::CHOICE_TERM => makers::make_operator(table, numbers::TRUTH_CODE, x, 0),
        numbers::TRUTH_TERM => Ok(x),
        _ => Ok(numbers::TRUE_NUMBER),
    }
}

// Whether a value is a word.
pub fn is_word(table: &mut Table, x: u16) -> Result<u16, Refusal>
    ensures { Makes (is_word_of x) table.old result table.new }
{
    match table.sort(x) {
        numbers::CHOICE_TERM => makers::make_operator(table, numbers::IS_WORD_CODE, x, 0),
        numbers::WORD_TERM => Ok(numbers::TRUE_NUMBER),
        _ => Ok(numbers::FALSE_NUMBER),
    }
}

// Whether a value is a procedure.
pub fn is_procedure(table: &mut Table, x: u16) -> Result<u16, Refusal>
    ensures { Makes (is_procedure_of x) table.old result table.new }
{
    match table.sort(x) {
        numbers::CHOICE_TERM => makers::make_operator(table, numbers::IS_PROCEDURE_CODE, x, 0),
        numbers::PROCEDURE_TERM => Ok(numbers::TRUE_NUMBER),
        _ => Ok(numbers::FALSE_NUMBER),
    }
}

// What an operator gives, worked out: a truth has the number of the term false or true.
fn constant(table: &mut Table, op: u8, w: Word) -> Result<u16, Refusal>
    ensures { Makes (constant_of op w) table.old result table.new }
{
    if operators::gives_truth(op) {
        return Ok(terms::truth_number(w));
    }
    makers::make_word(table, w)
}

// Whether a term is the word constant 0.
fn is_zero(t: Term) -> bool
    ensures { result ≡ is_zero_of t }
{
    t.kind == numbers::WORD_TERM && terms::word(t) == 0
}

// Whether an operator gives 0 on 0 and any word.
fn zero_absorbs(op: u8) -> bool
    ensures { result ≡ zero_absorbs_of op }
{
    op == numbers::MULTIPLY_CODE || op == numbers::BITWISE_AND_CODE
}

// The term of an operator that is not worked out: word 0 where 0 is an operand and absorbs the other.
fn zero_fold(table: &mut Table, op: u8, x: u16, y: u16) -> Result<u16, Refusal>
    ensures { Makes (zero_fold_of op x y) table.old result table.new }
{
    if !zero_absorbs(op) {
        return makers::make_operator(table, op, x, y);
    }
    if is_zero(table.term(x)) {
        return makers::make_word(table, 0);
    }
    if is_zero(table.term(y)) {
        return makers::make_word(table, 0);
    }
    makers::make_operator(table, op, x, y)
}

// The term of an operator 1 to 12, worked out on word constants.
pub fn operator(table: &mut Table, op: u8, x: u16, y: u16) -> Result<u16, Refusal>
    ensures { Makes (operator_term_of op x y) table.old result table.new }
{
    let first = table.term(x);
    if first.kind != numbers::WORD_TERM {
        return zero_fold(table, op, x, y);
    }
    if operators::operands(op) == 1 {
        return constant(table, op, operators::operate(op, terms::word(first), 0));
    }
    let second = table.term(y);
    if second.kind != numbers::WORD_TERM {
        return zero_fold(table, op, x, y);
    }
    constant(
        table,
        op,
        operators::operate(op, terms::word(first), terms::word(second)),
    )
}
