// What is a rule: the tests 4 to 7 of document 01, in one pass over the records for test 5 and one for 6 and 7, which
// counts its turns. What a test asks of one record is in `record_tests`, with 4 and 8, and in `children`. Nothing is evaluated
// here, and nothing is kept. No public function has a `requires`.
#![tactic(auto)]

ghost use Rattle.std.specs.Prelude.{◌≡◌, ◌<◌, ◌≤◌, set};
ghost use Rattle.semantics.specs.Numbers.{record_limit};
ghost use Rattle.semantics.specs.Records.{records_in};
ghost use Rattle.semantics.specs.Refusals.{answer_number};
ghost use Rattle.semantics.specs.Rules.{rule_refusal_of};
ghost use Rattle.children.specs.Children.{children_of, OneMore};
ghost use Rattle.rules.specs.Passes.{told_of, Cleared, tree_and_scopes_of};
ghost use Rattle.rules.specs.Turns.{turns_of, rule_turns_of};
ghost use Rattle.scopes.specs.Scopes.{KeptInScope};

use children::Children;
use semantics::Refusal;
use semantics::numbers::{INPUT_COUNT, RECORD_LIMIT};

// The lengths of a list that has a number for each record: of few records, of more, and of the most. It is cleared whole,
// which a short rule should not pay for the longest.
const FEW: usize = 64;

const MORE: usize = 512;

const RECORDS: usize = RECORD_LIMIT as usize;

// The tests 4 to 7: the first that refuses a rule, where one does.
pub fn check(rule: &[u8]) -> Result<(), Refusal>
    ensures { answer_number result ≡ rule_refusal_of rule.now }
{
    let mut turns = 0;
    counted(rule, &mut turns)
}

// The number of the first test of 4 to 7 that refuses a rule; 0 where none does.
pub fn refusal(rule: &[u8]) -> u8
    ensures { result ≡ rule_refusal_of rule.now }
{
    semantics::answer_number(check(rule))
}

// How many turns the pass for the tests 6 and 7 takes on a rule: at most one for each record; none where 4 or 5 refuses it.
pub fn turns(rule: &[u8]) -> u16
    ensures count { result ≡ rule_turns_of rule.now }
    ensures few { result ≤ records_in rule.now }
{
    let mut turns = 0;
    let _ = counted(rule, &mut turns);
    turns
}

// The tests 4 to 7. The turns of the pass for 6 and 7 are counted up from 0.
#[tactic(auto, using(record_tests::proofs::Follow::tests), unfolding(semantics::specs::Rules::rule_refusal_of, semantics::specs::Rules::tests_of, crate::specs::Passes::tree_and_scopes_of, crate::specs::Turns::rule_turns_of, crate::specs::Turns::test_turns_of))]
fn counted(rule: &[u8], turns: &mut u16) -> Result<(), Refusal>
    requires { turns.old ≡ 0 }
    ensures refusal { answer_number result ≡ rule_refusal_of rule.now }
    ensures turns { turns.new ≡ rule_turns_of rule.now }
{
    if record_tests::bad_size(rule.len()) {
        return Err(Refusal::RuleSize);
    }
    let n = (rule.len() / 8) as u16;
    if !record_tests::shapes(rule, n) {
        return Err(Refusal::BadRecord);
    }
    tree_and_scopes(rule, n, turns)
}

// The tests 6 and 7 on a rule of n records, in the shortest lists that are long enough.
fn tree_and_scopes(rule: &[u8], n: u16, turns: &mut u16) -> Result<(), Refusal>
    requires in_limit { n ≤ record_limit }
    requires start { turns.old ≡ 0 }
    ensures refusal { answer_number result ≡ tree_and_scopes_of rule.now n }
    ensures turns { turns.new ≡ turns_of rule.now n n }
{
    if n as usize <= FEW {
        return in_lists_of::<FEW>(rule, n, turns);
    }
    if n as usize <= MORE {
        return in_lists_of::<MORE>(rule, n, turns);
    }
    in_lists_of::<RECORDS>(rule, n, turns)
}

// The tests 6 and 7 on a rule of n records, with lists for N.
#[tactic(auto, using(crate::proofs::Scopes::cleared))]
fn in_lists_of<const N: usize>(rule: &[u8], n: u16, turns: &mut u16) -> Result<(), Refusal>
    requires room { n ≤ N }
    requires in_limit { N ≤ record_limit }
    requires start { turns.old ≡ 0 }
    ensures refusal { answer_number result ≡ tree_and_scopes_of rule.now n }
    ensures turns { turns.new ≡ turns_of rule.now n n }
{
    let mut marks: [u8; N] = [0; N];
    let mut bindings: [u16; N] = [0; N];
    tree_and_scopes_in(rule, n, &mut marks, &mut bindings, turns)
}

// The tests 6 and 7 in one pass over the records, with a lent list for the marks and one for the counts of bindings. Parents
// come first, so when the pass reaches a record, all that have it for a child have marked it, and its parent has told it the
// bindings in scope; record 0 has none. A place out of scope is only remembered, since a bad tree further on is refused
// before it.
// Two lists and not one of structs: the memory is fixed, and a mark with a count beside it would take 4 bytes in place of 3.
fn tree_and_scopes_in(
    rule: &[u8],
    n: u16,
    marks: &mut [u8],
    bindings: &mut [u16],
    turns: &mut u16,
) -> Result<(), Refusal>
    requires in_limit { n ≤ record_limit }
    requires marks { Cleared n marks.old }
    requires bindings { Cleared n bindings.old }
    requires start { turns.old ≡ 0 }
    ensures refusal { answer_number result ≡ tree_and_scopes_of rule.now n }
    ensures turns { turns.new ≡ turns_of rule.now n n }
    ensures kept { KeptInScope rule.now n bindings.new }
{
    let mut scoped = true;
    for i in 0..n {
        *turns += 1;
        let x = records::record_at(rule, i);
        let c = children::children_of(x);
        if !children::ordered(c, i, n) {
            return Err(Refusal::BadTree);
        }
        if !children::once(i, marks[i as usize]) {
            return Err(Refusal::BadTree);
        }
        let d = bindings[i as usize];
        scoped &= children::placed(x, d + INPUT_COUNT);
        children::mark(marks, c);
        tell(bindings, c, d);
    }
    if scoped {
        Ok(())
    } else {
        Err(Refusal::BadPlace)
    }
}

// A record under d bindings tells its children theirs.
#[tactic(auto, unfolding(crate::specs::Passes::told_of))]
fn tell(bindings: &mut [u16], c: Children, d: u16)
    requires one_more { OneMore c }
    requires low { d < record_limit }
    ensures { bindings.new ≡ told_of d (children_of c) bindings.old }
{
    match c {
        Children::Empty => {}
        Children::One(a) => put(bindings, a.at, d + a.more),
        Children::Two(a, b) => {
            put(bindings, a.at, d + a.more);
            put(bindings, b.at, d + b.more);
        }
    }
}

// Stores a number in a list; past its end nothing.
// By its index: what the rest of the list is after a `get_mut` does not reach the proof (tried here and in `children::bump`).
fn put(list: &mut [u16], at: u16, v: u16)
    ensures { list.new ≡ set list.old at v }
{
    let i = usize::from(at);
    if i < list.len() {
        list[i] = v;
    }
}
