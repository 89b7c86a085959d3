// A result, read under a sample of sixteen numbers or, for document 02's "Four", under many: then the tests come in the order
// of the document, and each sample has its answer. Either way the terms under the result are marked first, and only these are
// read. The work list is zero on every return. No public function has a `requires`.
#![tactic(auto)]

ghost use Rattle.std.specs.Prelude.{◌≡◌, ◌+◌, ◌*◌, ◌≤◌, length, replicate};
ghost use Rattle.words.specs.Words.{word_limit};
ghost use Rattle.semantics.specs.Numbers.{input_count};
ghost use Rattle.semantics.specs.Refusals.{answer_number};
ghost use Rattle.semantics.specs.Samples.{sample_at, answer_place, sample_refusal, read_all_of};
ghost use Rattle.marked.specs.Marked.{Under};
ghost use Rattle.samples.specs.Answers.{outcome_in, sample_outcome, Answers};

use reader::Place;
use semantics::{Input, Outcome, Refusal, Session, numbers};
use words::{WORDS, Word};

// How many numbers a sample has.
const SAMPLE: usize = numbers::INPUT_COUNT as usize;

// The answer for each sample, in the samples' order; or a refusal, by 3, 14 or 15, which leaves the answers as they were.
pub fn read_all(
    session: Session,
    table: &[u8],
    res: semantics::Result,
    numbers: &[Word],
    work: &mut [Place],
    answers: &mut [Place],
) -> Result<(), Refusal>
    ensures { (answer_number result, work.new, answers.new) ≡ read_all_of session table.now res numbers.now work.old answers.old }
{
    let tested = tests(
        session,
        table,
        res,
        numbers.len(),
        work.len(),
        answers.len(),
    );
    if tested.is_ok() {
        under::mark_under(table, session.count, res, work);
        read_each(session, table, res, numbers, work, answers);
    }
    reader::wipe(work);
    tested
}

// The first of 3, 14 and 15 refuses the whole call.
#[tactic(auto, using(notation::proofs::Follow::tests), unfolding(semantics::specs::Samples::sample_refusal))]
fn tests(
    session: Session,
    table: &[u8],
    res: semantics::Result,
    given: usize,
    places: usize,
    answers: usize,
) -> Result<(), Refusal>
    ensures { answer_number result ≡ sample_refusal session table.now res given places answers }
{
    if !fitting::fits(session, table) {
        return Err(Refusal::Misfit);
    }
    if !reading_tests::result_taken(table, session.count, res) {
        return Err(Refusal::BadResult);
    }
    if places < session.count as usize || given % SAMPLE != 0 || answers != given / SAMPLE {
        return Err(Refusal::WorkShort);
    }
    Ok(())
}

// Reads each sample and puts its answer at its place.
fn read_each(
    session: Session,
    table: &[u8],
    res: semantics::Result,
    numbers: &[Word],
    work: &mut [Place],
    answers: &mut [Place],
)
    requires marked { Under table.now session.count res work.old }
    requires whole { length numbers.now ≡ input_count * length answers.old }
    ensures { Answers session.inputs table.now session.count res numbers.now answers.old (length answers.old) answers.new }
{
    for (j, answer) in answers.iter_mut().enumerate() {
        let sample = sample_at(numbers, j);
        let outcome = read_sample(session.inputs, table, session.count, res, sample, work);
        *answer = answer_place(outcome);
    }
}

// The numbers of a sample.
fn sample_at(numbers: &[Word], j: usize) -> [Word; 16]
    requires { input_count * j + input_count ≤ length numbers.now }
    ensures { result ≡ sample_at numbers.now j }
{
    let from = SAMPLE * j;
    let mut sample = [0; 16];
    sample.copy_from_slice(&numbers[from..from + SAMPLE]);
    sample
}

// What the result reads as under a sample; or the refusal of the sample, by 13. The marks stay.
#[tactic(auto, using(notation::proofs::Follow::tests), unfolding(crate::specs::Answers::sample_outcome))]
fn read_sample(
    inputs: [Input; 16],
    table: &[u8],
    count: u16,
    res: semantics::Result,
    sample: [Word; 16],
    work: &mut [Place],
) -> Outcome
    requires { Under table.now count res work.old }
    ensures outcome { result ≡ sample_outcome inputs table.now count res sample }
    ensures still_marked { Under table.now count res work.new }
{
    if !reading_tests::numbers_taken(inputs, sample) {
        return Outcome::Refused(Refusal::BadNumber.number());
    }
    marked::read_under(table, count, res, sample, work)
}

// What a result reads as under sixteen numbers, in a table with `count` terms. The work list has a place for each of them,
// or is refused, by a number, as `Outcome` has it; it is zero on every return.
#[tactic(auto, using(notation::proofs::Follow::tests), unfolding(crate::specs::Answers::outcome_in))]
pub fn read_result(
    table: &[u8],
    count: u16,
    numbers: [Word; 16],
    res: semantics::Result,
    work: &mut [Place],
) -> Outcome
    ensures outcome { result ≡ outcome_in table.now count numbers res (length work.old) }
    ensures wiped { work.new ≡ replicate (length work.old) 0 }
{
    if work.len() < count as usize {
        reader::wipe(work);
        return Outcome::Refused(Refusal::WorkShort.number());
    }
    under::mark_under(table, count, res, work);
    let outcome = marked::read_under(table, count, res, numbers, work);
    reader::wipe(work);
    outcome
}

// An answer as one number, as the C interface takes it: its kind, counted in words, and its number.
fn answer_place(o: Outcome) -> Place
    ensures { result ≡ answer_place o }
{
    match o {
        Outcome::Truth(b) => place(numbers::TRUTH_TERM, operators::bit(b)),
        Outcome::Word(w) => place(numbers::WORD_TERM, w),
        Outcome::Procedure(i) => place(numbers::PROCEDURE_TERM, i),
        Outcome::Abort => place(numbers::ABORT_RECORD, 0),
        Outcome::Error => place(numbers::ERROR_RECORD, 0),
        Outcome::Refused(k) => Place::from(k),
    }
}

fn place(kind: u8, n: Word) -> Place
    ensures { result ≡ word_limit * kind + n }
{
    WORDS * Place::from(kind) + Place::from(n)
}
