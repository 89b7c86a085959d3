// The desk's operations as callers in other languages have them, over numbers and byte slices; `desk_c` exports them. Each answer
// is 0 or the number of a refusal, but for `desk_rule_turns`, which counts. Numbers of two bytes have the low one first; so
// have words, which take two.
//   inputs    64 bytes: 16 times a kind, a zero and a word
//   session   74 bytes: the inputs, then count, S, T and accepted rules, two bytes each, the halted mark and a zero
//   numbers   32 bytes: 16 words
//   result     8 bytes: S, T and the value, two bytes each, the halted mark and a zero
//   answer    10 bytes: S, T, the value (0 of a halt), the halted mark and the depth, two bytes each
//   reading    4 bytes: 1 a truth, 2 a word, 7 a procedure, 8 an abort or 9 an error, and its number, each as a word
//   reports   a list of numbers of four bytes: of each term its sort (0 open, 1 a truth, 2 a word), its low and its high
//   samples   a list of words, 16 for a sample; the answers are a list of places, of each sample a reading as one number: what
//             it is, times 65,536, and its number; of a sample that 13 refuses 13 alone
//   goal       4 bytes: as a reading, 2 a word and the word, 8 an abort and 0, 9 an error and 0
//   length    a list of one number of eight bytes: that of the text's bytes
//   spans     two forms of numbers, the lows and the highs; or two empty ones, where none are given
//   hit       34 bytes: 1 or 0, whether there is one, and its 16 numbers, each as a word; all zero where there is none
// A form of another length than its own is refused by 255 before anything else, and so is a goal that is not of its form; inputs of another length, and what stands
// in a form (a pad byte that is not zero, a mark over 1), by the operation's own number in its order of tests: inputs by
// 2, a session by 3, a result by 14. A refusal leaves what is lent as it was, but for the work list and the store, which
// are zero on every return. No public function has a `requires`.
#![tactic(auto)]

ghost use Rattle.std.specs.Prelude.{◌≡◌, ◌≤◌};
ghost use Rattle.semantics.specs.Records.{records_in};
ghost use Rattle.semantics.specs.Rules.{rule_refusal_of};
ghost use Rattle.rules.specs.Turns.{rule_turns_of};
ghost use Rattle.byte_opening.specs.Open.{desk_open};
ghost use Rattle.byte_fitting.specs.Fits.{desk_fits};
ghost use Rattle.byte_evaluating.specs.Evaluate.{desk_evaluate};
ghost use Rattle.byte_reading.specs.Read.{desk_read};
ghost use Rattle.byte_running.specs.Run.{desk_run};
ghost use Rattle.byte_spans.specs.Spans.{desk_spans};
ghost use Rattle.byte_samples.specs.Samples.{desk_read_all};
ghost use Rattle.byte_clauses.specs.Clauses.{desk_clauses};
ghost use Rattle.byte_witness.specs.Witness.{desk_witness};

use reader::Place;
use words::Word;

// Opens a session over a table and writes it.
pub fn desk_open(inputs: &[u8], table: &mut [u8], session: &mut [u8]) -> u8
    ensures { (result, table.new, session.new) ≡ desk_open inputs.now table.old session.old }
{
    byte_opening::open(inputs, table, session)
}

// The first of the tests 4 to 7 that refuses a rule.
pub fn desk_rule_refusal(rule: &[u8]) -> u8
    ensures { result ≡ rule_refusal_of rule.now }
{
    rules::refusal(rule)
}

// How many turns the pass over the tree and the places of a rule takes (the tests 6 and 7): at most one for each record.
pub fn desk_rule_turns(rule: &[u8]) -> u16
    ensures { (result ≡ rule_turns_of rule.now) × (result ≤ records_in rule.now) }
{
    rules::turns(rule)
}

// Test 3: 0 where a session and a table fit, else 3.
pub fn desk_fits(session: &[u8], table: &[u8]) -> u8
    ensures { result ≡ desk_fits session.now table.now }
{
    byte_fitting::fits(session, table)
}

// Evaluates a rule in a session over a table, and advances both.
pub fn desk_evaluate(
    session: &mut [u8],
    table: &mut [u8],
    rule: &[u8],
    allowance: u16,
    answer: &mut [u8],
) -> u8
    ensures { (result, session.new, table.new, answer.new) ≡ desk_evaluate session.old table.old rule.now allowance answer.old }
{
    byte_evaluating::evaluate(session, table, rule, allowance, answer)
}

// Reads a result under sixteen numbers.
pub fn desk_read(
    session: &[u8],
    table: &[u8],
    numbers: &[u8],
    res: &[u8],
    work: &mut [Place],
    reading: &mut [u8],
) -> u8
    ensures { (result, work.new, reading.new) ≡ desk_read session.now table.now numbers.now res.now work.old reading.old }
{
    byte_reading::read(session, table, numbers, res, work, reading)
}

// Runs a rule plainly under sixteen numbers.
pub fn desk_run(
    inputs: &[u8],
    numbers: &[u8],
    rule: &[u8],
    allowance: u16,
    store: &mut [u8],
    reading: &mut [u8],
) -> u8
    ensures { (result, store.new, reading.new) ≡ desk_run inputs.now numbers.now rule.now allowance store.old reading.old }
{
    byte_running::run(inputs, numbers, rule, allowance, store, reading)
}

// Reports on each term, with the free words within their spans. Where the session was kept from its opening and the report
// of its T can only be true (sort 1, low 1), no head that stays within its span brings about an error: neither does
// reading the last accepted result under such numbers, nor running the accepted rules (theorem no_reading_errs).
pub fn desk_spans(
    session: &[u8],
    table: &[u8],
    lows: &[u8],
    highs: &[u8],
    reports: &mut [u32],
) -> u8
    ensures { (result, reports.new) ≡ desk_spans session.now table.now lows.now highs.now reports.old }
{
    byte_spans::spans(session, table, lows, highs, reports)
}

// Reads a result under many samples, sixteen numbers each: the answers are those of single readings, in the samples' order.
pub fn desk_read_all(
    session: &[u8],
    table: &[u8],
    res: &[u8],
    numbers: &[Word],
    work: &mut [Place],
    answers: &mut [Place],
) -> u8
    ensures { (result, work.new, answers.new) ≡ desk_read_all session.now table.now res.now numbers.now work.old answers.old }
{
    byte_samples::read_all(session, table, res, numbers, work, answers)
}

// Writes the clauses of a table and a goal as DIMACS CNF text. They can be satisfied exactly where some sixteen numbers make
// reading the result reach the goal, and the input variables of what satisfies them are such numbers (theorems clauses_exact,
// model_is_reading). Where the session was kept from its opening and the clauses for an error of its last accepted result can't
// be satisfied, no run of the accepted rules errs (theorem unsatisfied_never_errs).
pub fn desk_clauses(
    session: &[u8],
    table: &[u8],
    res: &[u8],
    goal: &[u8],
    text: &mut [u8],
    length: &mut [u64],
) -> u8
    ensures { (result, text.new, length.new) ≡ desk_clauses session.now table.now res.now goal.now text.old length.old }
{
    byte_clauses::clauses(session, table, res, goal, text, length)
}

// Looks for the first reading that reaches a goal, inside spans where they are given, and writes it.
pub fn desk_witness(
    session: &[u8],
    table: &[u8],
    res: &[u8],
    goal: &[u8],
    lows: &[u8],
    highs: &[u8],
    work: &mut [Place],
    hit: &mut [u8],
) -> u8
    ensures { (result, work.new, hit.new) ≡ desk_witness session.now table.now res.now goal.now lows.now highs.now work.old hit.old }
{
    byte_witness::witness(session, table, res, goal, lows, highs, work, hit)
}
