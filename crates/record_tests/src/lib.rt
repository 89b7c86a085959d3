// The tests of what is a rule that look at one thing by itself: 4 at a rule's size, 5 at each record, without the others, and 8
// at the allowance that it is evaluated with. No public function has a `requires`.
#![tactic(auto)]

ghost use Rattle.std.specs.Prelude.{◌≡◌, ◌<◌, IfSome};
ghost use Rattle.notation.specs.Notation.{up_to};
ghost use Rattle.semantics.specs.Records.{record_at};
ghost use Rattle.semantics.specs.Rules.{bad_rule_size, uses_of, shaped_of};
ghost use Rattle.semantics.specs.Evaluate.{bad_depth};
ghost use Rattle.record_tests.specs.Uses.{use_count};

use semantics::Record;
use semantics::numbers::{
    ABORT_RECORD, ALLOWANCE_LIMIT, CALL_RECORD, DATUM_RECORD, ERROR_RECORD, IF_RECORD,
    IS_PROCEDURE_CODE, LET_RECORD, OPERATOR_RECORD, PROCEDURE_RECORD, RULE_BYTES, VARIABLE_RECORD,
    WORD_DATUM,
};

// Test 4: there are no bytes, too many, or not whole records.
#[tactic(auto, using(crate::proofs::Follow::tests), unfolding(semantics::specs::Rules::bad_rule_size))]
pub fn bad_size(l: usize) -> bool
    ensures { result ≡ bad_rule_size l }
{
    l == 0 || RULE_BYTES < l || l % 8 != 0
}

// Test 5 lets the first n records pass.
pub fn shapes(rule: &[u8], n: u16) -> bool
    ensures { result ≡ up_to n (λ i. shaped_of (record_at rule.now i)) }
{
    (0..n).all(|i| shaped(records::record_at(rule, i)))
}

// A record's kind and op are among those there are, and the fields that it does not use are zero.
#[tactic(auto, using(crate::proofs::Follow::tests), unfolding(semantics::specs::Rules::shaped_of))]
fn shaped(x: Record) -> bool
    ensures { result ≡ shaped_of x }
{
    match uses(x) {
        Some(u) => {
            fields::field(u, 0, x.p) && fields::field(u, 1, x.q) && fields::field(u, 2, x.r)
        }
        None => false,
    }
}

// How many of p, q and r, in this order, a record of its kind and op uses; none where there is no such kind or op.
#[tactic(auto, using(crate::proofs::Follow::tests), unfolding(semantics::specs::Rules::uses_of))]
fn uses(x: Record) -> Option<u8>
    ensures count { use_count result ≡ uses_of x }
    ensures few { IfSome result (λ u. u < 4) }
{
    match x.kind {
        DATUM_RECORD => match x.op {
            0..WORD_DATUM => Some(0),
            WORD_DATUM => Some(words::FIELDS),
            _ => None,
        },
        OPERATOR_RECORD => {
            if IS_PROCEDURE_CODE < x.op {
                return None;
            }
            match operators::operands(x.op) {
                0 => None,
                n => Some(n),
            }
        }
        kind => {
            if x.op != 0 {
                return None;
            }
            match kind {
                VARIABLE_RECORD | PROCEDURE_RECORD => Some(1),
                CALL_RECORD | LET_RECORD => Some(2),
                IF_RECORD => Some(3),
                ABORT_RECORD | ERROR_RECORD => Some(0),
                _ => None,
            }
        }
    }
}

// Test 8: an allowance outside 1 to 256.
#[tactic(auto, using(crate::proofs::Follow::tests), unfolding(semantics::specs::Evaluate::bad_depth))]
pub fn bad_depth(allowance: u16) -> bool
    ensures { result ≡ bad_depth allowance }
{
    allowance == 0 || ALLOWANCE_LIMIT < allowance
}
