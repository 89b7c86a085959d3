// The desk's library for callers in other languages, over numbers and byte slices: an export for each function of `desk`, of the
// same name and with the same promise. include/desk.h documents them, and `desk` the forms of what is lent.
#![tactic(auto)]

ghost use Rattle.std.specs.Prelude.{◌≡◌, ◌≤◌};
ghost use Rattle.semantics.specs.Records.{records_in};
ghost use Rattle.semantics.specs.Rules.{rule_refusal_of};
ghost use Rattle.rules.specs.Turns.{rule_turns_of};
ghost use Rattle.byte_opening.specs.Open.{desk_open};
ghost use Rattle.byte_fitting.specs.Fits.{desk_fits};
ghost use Rattle.byte_evaluating.specs.Evaluate.{desk_evaluate};
ghost use Rattle.byte_reading.specs.Read.{desk_read};
ghost use Rattle.byte_running.specs.Run.{desk_run};
ghost use Rattle.byte_spans.specs.Spans.{desk_spans};
ghost use Rattle.byte_samples.specs.Samples.{desk_read_all};
ghost use Rattle.byte_clauses.specs.Clauses.{desk_clauses};
ghost use Rattle.byte_witness.specs.Witness.{desk_witness};

use reader::Place;
use words::Word;

// Opens a session over a table and writes it.
#[unsafe(no_mangle)]
pub extern "C" fn desk_open(inputs: &[u8], table: &mut [u8], session: &mut [u8]) -> u8
    ensures { (result, table.new, session.new) ≡ desk_open inputs.now table.old session.old }
{
    desk::desk_open(inputs, table, session)
}

// The first of the tests 4 to 7 that refuses a rule.
#[unsafe(no_mangle)]
pub extern "C" fn desk_rule_refusal(rule: &[u8]) -> u8
    ensures { result ≡ rule_refusal_of rule.now }
{
    desk::desk_rule_refusal(rule)
}

// How many turns the pass over the tree and the places of a rule takes (the tests 6 and 7): at most one for each record.
#[unsafe(no_mangle)]
pub extern "C" fn desk_rule_turns(rule: &[u8]) -> u16
    ensures { (result ≡ rule_turns_of rule.now) × (result ≤ records_in rule.now) }
{
    desk::desk_rule_turns(rule)
}

// Test 3: 0 where a session and a table fit, else 3.
#[unsafe(no_mangle)]
pub extern "C" fn desk_fits(session: &[u8], table: &[u8]) -> u8
    ensures { result ≡ desk_fits session.now table.now }
{
    desk::desk_fits(session, table)
}

// Evaluates a rule in a session over a table, and advances both.
#[unsafe(no_mangle)]
pub extern "C" fn desk_evaluate(
    session: &mut [u8],
    table: &mut [u8],
    rule: &[u8],
    allowance: u16,
    answer: &mut [u8],
) -> u8
    ensures { (result, session.new, table.new, answer.new) ≡ desk_evaluate session.old table.old rule.now allowance answer.old }
{
    desk::desk_evaluate(session, table, rule, allowance, answer)
}

// Reads a result under sixteen numbers.
#[unsafe(no_mangle)]
pub extern "C" fn desk_read(
    session: &[u8],
    table: &[u8],
    numbers: &[u8],
    res: &[u8],
    work: &mut [Place],
    reading: &mut [u8],
) -> u8
    ensures { (result, work.new, reading.new) ≡ desk_read session.now table.now numbers.now res.now work.old reading.old }
{
    desk::desk_read(session, table, numbers, res, work, reading)
}

// Runs a rule plainly under sixteen numbers.
#[unsafe(no_mangle)]
pub extern "C" fn desk_run(
    inputs: &[u8],
    numbers: &[u8],
    rule: &[u8],
    allowance: u16,
    store: &mut [u8],
    reading: &mut [u8],
) -> u8
    ensures { (result, store.new, reading.new) ≡ desk_run inputs.now numbers.now rule.now allowance store.old reading.old }
{
    desk::desk_run(inputs, numbers, rule, allowance, store, reading)
}

// Reports on each term, with the free words within their spans. Where the session was kept from its opening and the report
// of its T can only be true (sort 1, low 1), no head that stays within its span brings about an error: neither does
// reading the last accepted result under such numbers, nor running the accepted rules (theorem no_reading_errs).
#[unsafe(no_mangle)]
pub extern "C" fn desk_spans(
    session: &[u8],
    table: &[u8],
    lows: &[u8],
    highs: &[u8],
    reports: &mut [u32],
) -> u8
    ensures { (result, reports.new) ≡ desk_spans session.now table.now lows.now highs.now reports.old }
{
    desk::desk_spans(session, table, lows, highs, reports)
}

// Reads a result under many samples, sixteen numbers each: the answers are those of single readings, in the samples' order.
#[unsafe(no_mangle)]
pub extern "C" fn desk_read_all(
    session: &[u8],
    table: &[u8],
    res: &[u8],
    numbers: &[Word],
    work: &mut [Place],
    answers: &mut [Place],
) -> u8
    ensures { (result, work.new, answers.new) ≡ desk_read_all session.now table.now res.now numbers.now work.old answers.old }
{
    desk::desk_read_all(session, table, res, numbers, work, answers)
}

// Writes the clauses of a table and a goal as DIMACS CNF text. They can be satisfied exactly where some sixteen numbers make
// reading the result reach the goal, and the input variables of what satisfies them are such numbers (theorems clauses_exact,
// model_is_reading). Where the session was kept from its opening and the clauses for an error of its last accepted result can't
// be satisfied, no run of the accepted rules errs (theorem unsatisfied_never_errs).
#[unsafe(no_mangle)]
pub extern "C" fn desk_clauses(
    session: &[u8],
    table: &[u8],
    res: &[u8],
    goal: &[u8],
    text: &mut [u8],
    length: &mut [u64],
) -> u8
    ensures { (result, text.new, length.new) ≡ desk_clauses session.now table.now res.now goal.now text.old length.old }
{
    desk::desk_clauses(session, table, res, goal, text, length)
}

// Looks for the first reading that reaches a goal, inside spans where they are given, and writes it.
#[unsafe(no_mangle)]
pub extern "C" fn desk_witness(
    session: &[u8],
    table: &[u8],
    res: &[u8],
    goal: &[u8],
    lows: &[u8],
    highs: &[u8],
    work: &mut [Place],
    hit: &mut [u8],
) -> u8
    ensures { (result, work.new, hit.new) ≡ desk_witness session.now table.now res.now goal.now lows.now highs.now work.old hit.old }
{
    desk::desk_witness(session, table, res, goal, lows, highs, work, hit)
}
