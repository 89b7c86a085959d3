// The expressions that run no part: data, variables, procedures, operators, abort and error. Each function promises
// what its definition gives on all arguments. None has a `requires`.
#![tactic(auto)]

ghost use Rattle.std.specs.Prelude.{◌≡◌};
ghost use Rattle.semantics.specs.Records.{datum_word};
ghost use Rattle.semantics.specs.Steps.{give, reads};
ghost use Rattle.semantics.specs.States.{out_of, halt_of};
ghost use Rattle.semantics.specs.Evaluation.{place_of, datum_of, procedure_of, abort_of, error_of, words_of, operation_of, test_of, operator_of, second_of};
ghost use Rattle.terms.specs.Gives.{held, Makes};
ghost use Rattle.expressions.specs.Evaluates.{Evaluates};

use semantics::{Record, Refusal, State, numbers};
use states::Steps;
use terms::Table;

// What an expression comes to, and the depth that it used.
#[derive(Clone, Copy)]
pub struct Out {
    pub used: u16,
    pub result: semantics::Result,
}

impl Out {
    // A halt in the state x, before any part was run.
    pub fn halt(x: State) -> Out
        ensures { result ≡ record { used = 0; result = halt_of x } }
    {
        Out {
            used: 0,
            result: semantics::Result {
                state: x,
                value: 0,
                halted: true,
            },
        }
    }

    // The value v in the state x, with no part run.
    fn value(v: u16, x: State) -> Out
        ensures { result ≡ record { used = 0; result = out_of x v } }
    {
        Out {
            used: 0,
            result: semantics::Result {
                state: x,
                value: v,
                halted: false,
            },
        }
    }
}

// The value at place p of the bindings env; place 0 is the nearest.
pub fn place(table: &Table, p: u16, env: u16) -> u16
    ensures { result ≡ place_of p env (held table.now) }
{
    let mut chain = env;
    for _ in 0..p {
        chain = table.term(chain).b;
    }
    table.term(chain).a
}

// The second operand's value; 0 for an operator with one.
pub fn second(table: &Table, op: u8, q: u16, env: u16) -> u16
    ensures { result ≡ second_of op q env (held table.now) }
{
    if operators::operands(op) == 1 {
        return 0;
    }
    place(table, q, env)
}

// The value at place p.
pub fn variable(table: &Table, p: u16, env: u16, x: State) -> Result<Out, Refusal>
    ensures { Evaluates 0 (reads (place_of p env) λ v. give (out_of x v)) table.now result table.now }
{
    Ok(Out::value(place(table, p, env), x))
}

// A word datum; else a truth, whose op is the number of the term false or true.
pub fn datum(table: &mut Table, x: Record, y: State) -> Result<Out, Refusal>
    ensures { Evaluates 0 (datum_of x.op (datum_word x) y) table.old result table.new }
{
    if x.op != numbers::WORD_DATUM {
        return Ok(Out::value(x.op as u16, y));
    }
    let made = makers::make_word(table, fields::datum_word(x))?;
    Ok(Out::value(made, y))
}

// The closure of record i with the bindings env, of the rule accepted after `before` others.
pub fn procedure(table: &mut Table, i: u16, env: u16, before: u16, x: State) -> Result<Out, Refusal>
    ensures { Evaluates 0 (procedure_of i env before x) table.old result table.new }
{
    let made = makers::make_procedure(table, i, env, before)?;
    Ok(Out::value(made, x))
}

// Abort assumes false and halts.
pub fn abort(table: &mut Table, x: State) -> Result<Out, Refusal>
    ensures { Evaluates 0 (abort_of x) table.old result table.new }
{
    let after = x.assume(table, numbers::FALSE_NUMBER)?;
    Ok(Out::halt(after))
}

// Error asserts false and halts.
pub fn error(table: &mut Table, x: State) -> Result<Out, Refusal>
    ensures { Evaluates 0 (error_of x) table.old result table.new }
{
    let after = x.assert(table, numbers::FALSE_NUMBER)?;
    Ok(Out::halt(after))
}

// An operator on the values a and b; b is not looked at where there is one operand.
pub fn operator(table: &mut Table, op: u8, a: u16, b: u16, x: State) -> Result<Out, Refusal>
    ensures { Evaluates 0 (operator_of op a b x) table.old result table.new }
{
    if op < numbers::NOT_CODE {
        return operation(table, op, a, b, x);
    }
    let made = test(table, op, a)?;
    Ok(Out::value(made, x))
}

// Codes 13 to 15, which assert nothing.
fn test(table: &mut Table, op: u8, a: u16) -> Result<u16, Refusal>
    ensures { Makes (test_of op a) table.old result table.new }
{
    if op == numbers::NOT_CODE {
        let truth = factory::truth(table, a)?;
        return formulas::not_of(table, truth);
    }
    if op == numbers::IS_WORD_CODE {
        return factory::is_word(table, a);
    }
    factory::is_procedure(table, a)
}

// That the operands are words.
fn words(table: &mut Table, op: u8, a: u16, b: u16) -> Result<u16, Refusal>
    ensures { Makes (words_of op a b) table.old result table.new }
{
    let first = factory::is_word(table, a)?;
    if operators::operands(op) == 1 {
        return Ok(first);
    }
    let second = factory::is_word(table, b)?;
    formulas::and_of(table, first, second)
}

// Codes 1 to 12: assert that the operands are words, halt if S or T is then false, and only then make the term.
fn operation(table: &mut Table, op: u8, a: u16, b: u16, x: State) -> Result<Out, Refusal>
    ensures { Evaluates 0 (operation_of op a b x) table.old result table.new }
{
    let on_words = words(table, op, a, b)?;
    let after = x.assert(table, on_words)?;
    if after.halts(table) {
        return Ok(Out::halt(after));
    }
    let made = factory::operator(table, op, a, b)?;
    Ok(Out::value(made, after))
}
