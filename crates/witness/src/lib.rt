// Witnesses (document 02, "Seven"): the first reading, inside spans where they are given, that brings about an error, an abort or a
// named word; or that there is none. A box of readings is halved at its first input that is not yet one value, and passed over
// where the ranges of its terms rule the goal out. Inputs that the result does not stand on stay at their lows. No public
// function has a `requires`.
#![tactic(auto, using(notation::proofs::Follow::tests), unfolding(firsts::specs::Witness::spans_fit, firsts::specs::Witness::bits_in, firsts::specs::Witness::witness_refusal, crate::specs::Search::is_free, crate::specs::Search::named_input))]

ghost use Rattle.std.specs.Prelude.{◌≡◌, true, ◌+◌, ◌≤◌, ◌<◌, length, get_or, set};
ghost use Rattle.words.specs.Words.{word_limit, last_word};
ghost use Rattle.semantics.specs.Numbers.{input_count, term_limit};
ghost use Rattle.semantics.specs.Refusals.{answer_number};
ghost use Rattle.semantics.specs.Terms.{terms_in};
ghost use Rattle.firsts.specs.Witness.{reaches as «reaches-goal», reached_at, bits_in, bits_of, least_of, greatest_of, spans_fit, witness_refusal, witness_of};
ghost use Rattle.marked.specs.Marked.{Under};
ghost use Rattle.boxes.specs.Boxes.{NotReached};
ghost use Rattle.witness.specs.Search.{is_free, named_input, single_hit, middle_of, Ordered, OpenAt, FirstOpen, Stood, SearchedFor, Searched};
ghost use Rattle.witness.specs.Told.{witness_told};

use boxes::Bounds;
use reader::Place;
use semantics::{Goal, Input, Outcome, Refusal, Session, Term, numbers};
use words::Word;

// The last word.
const LAST_WORD: Word = (words::WORDS - 1) as Word;

// The ranges of a box are worked out where it has so many readings: fewer are read one by one.
const MANY: u32 = 32;

// The highs of the ranges of a short table's terms, and of any table's.
const FEW_TERMS: usize = 512;

const ALL_TERMS: usize = numbers::TERM_LIMIT as usize;

// The first reading that reaches the goal, inside the spans where they are given; or a refusal, by 3, 14, 17, 19 or 15. The work
// list is zero on every return. Lows and highs come apart, as the C interface gives them.
pub fn witness(
    session: Session,
    table: &[u8],
    res: semantics::Result,
    goal: Goal,
    spanned: bool,
    lows: [Word; 16],
    highs: [Word; 16],
    work: &mut [Place],
) -> Result<Option<[Word; 16]>, Refusal>
    ensures { (witness_told result, work.new) ≡ witness_of session table.now res goal spanned lows highs work.old }
{
    let found = find(session, table, res, goal, spanned, lows, highs, work);
    reader::wipe(work);
    found
}

// The same, with the marks left in the work list.
fn find(
    session: Session,
    table: &[u8],
    res: semantics::Result,
    goal: Goal,
    spanned: bool,
    lows: [Word; 16],
    highs: [Word; 16],
    work: &mut [Place],
) -> Result<Option<[Word; 16]>, Refusal>
    ensures { witness_told result ≡ (witness_of session table.now res goal spanned lows highs work.old).0 }
{
    taken(session, table, res, spanned, lows, highs, work.len())?;
    let bounds = bounds(spanned, session.inputs, lows, highs);
    under::mark_under(table, session.count, res, work);
    Ok(first_marked(table, session.count, res, goal, bounds, work))
}

// The first of 3, 14, 17, 19 and 15 that refuses the call.
fn taken(
    session: Session,
    table: &[u8],
    res: semantics::Result,
    spanned: bool,
    lows: [Word; 16],
    highs: [Word; 16],
    places: usize,
) -> Result<(), Refusal>
    ensures { answer_number result ≡ witness_refusal session table.now res spanned lows highs places }
{
    if !fitting::fits(session, table) {
        return Err(Refusal::Misfit);
    }
    if !reading_tests::result_taken(table, session.count, res) {
        return Err(Refusal::BadResult);
    }
    if !spans_fit(spanned, session.inputs, lows, highs) {
        return Err(Refusal::BadSpan);
    }
    if numbers::BIT_LIMIT < free_bits(session.inputs) {
        return Err(Refusal::TooManyBits);
    }
    if places < session.count as usize {
        return Err(Refusal::WorkShort);
    }
    Ok(())
}

// Spans are tested where they are given.
fn spans_fit(spanned: bool, inputs: [Input; 16], lows: [Word; 16], highs: [Word; 16]) -> bool
    ensures { result ≡ spans_fit spanned inputs lows highs }
{
    !spanned || spans::spans_taken(inputs, lows, highs)
}

// How many bits the free inputs have.
fn free_bits(inputs: [Input; 16]) -> u16
    ensures { result ≡ bits_of inputs }
{
    let mut n: u16 = 0;
    for x in &inputs {
        n += bits_in(*x);
    }
    n
}

fn bits_in(x: Input) -> u16
    ensures bits { result ≡ bits_in x }
    ensures few { result ≤ 16 }
{
    match x.kind {
        numbers::FREE_TRUTH => 1,
        numbers::FREE_WORD => words::WIDTH as u16,
        _ => 0,
    }
}

// The least and the greatest number of each input; of a word 0 and the last, where no spans are given. It promises too that there
// are sixteen inputs: its caller has them in a session, of which it knows no length.
fn bounds(spanned: bool, inputs: [Input; 16], lows: [Word; 16], highs: [Word; 16]) -> Bounds
    ensures least { result.lows ≡ least_of spanned inputs lows }
    ensures greatest { result.highs ≡ greatest_of spanned inputs highs }
    ensures sixteen { length inputs ≡ input_count }
{
    let given = if spanned {
        Bounds { lows, highs }
    } else {
        Bounds {
            lows: [0; 16],
            highs: [LAST_WORD; 16],
        }
    };
    Bounds {
        lows: spans::ends(0, inputs, given.lows),
        highs: spans::ends(1, inputs, given.highs),
    }
}

// The first reading from the least to the greatest. The list of highs is as long as the table asks for: clearing the long one
// takes longer than many a search.
fn first_marked(
    table: &[u8],
    count: u16,
    res: semantics::Result,
    goal: Goal,
    bounds: Bounds,
    work: &mut [Place],
) -> Option<[Word; 16]>
    requires searched { SearchedFor table.now count res bounds.lows bounds.highs work.old }
    requires count_fits { count ≤ term_limit }
    ensures { Searched table.now count res goal bounds.lows bounds.highs result }
{
    let stood = stood_on(table, count, bounds, work);
    if count as usize <= FEW_TERMS {
        search_among::<FEW_TERMS>(table, count, res, goal, stood, work)
    } else {
        search_among::<ALL_TERMS>(table, count, res, goal, stood, work)
    }
}

// The search, with the highs of the ranges of so many terms.
fn search_among<const TERMS: usize>(
    table: &[u8],
    count: u16,
    res: semantics::Result,
    goal: Goal,
    bounds: Bounds,
    work: &mut [Place],
) -> Option<[Word; 16]>
    requires searched { SearchedFor table.now count res bounds.lows bounds.highs work.old }
    requires room { count ≤ TERMS }
    requires few { TERMS ≤ term_limit }
    ensures { Searched table.now count res goal bounds.lows bounds.highs result }
{
    let mut tops: [Word; TERMS] = [0; TERMS];
    search(table, count, res, goal, bounds, work, &mut tops)
}

// The box with the highs of the inputs that marked terms name; of the others the lows.
fn stood_on(table: &[u8], count: u16, bounds: Bounds, work: &[Place]) -> Bounds
    requires { count ≤ length work.now }
    ensures lows { result.lows ≡ bounds.lows }
    ensures highs { Stood table.now bounds.lows bounds.highs work.now count result.highs }
{
    let mut highs = bounds.lows;
    for i in 0..count {
        if let Some(a) = named_input(work[i as usize], records::term_at(table, i)) {
            highs[a as usize] = bounds.highs[a as usize];
        }
    }
    Bounds {
        lows: bounds.lows,
        highs,
    }
}

// The input that a term names, where its place is marked and it is a free input's.
fn named_input(n: Place, t: Term) -> Option<u16>
    ensures { result ≡ named_input n t }
{
    if under::is_marked(n) && is_free(t) && t.a < numbers::INPUT_COUNT {
        Some(t.a)
    } else {
        None
    }
}

fn is_free(t: Term) -> bool
    ensures { result ≡ is_free t }
{
    t.kind == numbers::FREE_TRUTH_TERM || t.kind == numbers::FREE_WORD_TERM
}

// The first reading in the box.
fn search(
    table: &[u8],
    count: u16,
    res: semantics::Result,
    goal: Goal,
    bounds: Bounds,
    work: &mut [Place],
    tops: &mut [Word],
) -> Option<[Word; 16]>
    requires searched { SearchedFor table.now count res bounds.lows bounds.highs work.old }
    requires room { count ≤ length tops.old }
    ensures first { Searched table.now count res goal bounds.lows bounds.highs result }
    ensures marks_stay { Under table.now count res work.new }
{
    let Some(i) = first_open(bounds) else {
        return single(table, count, res, goal, bounds.lows, work);
    };
    if passed_over(table, count, res, goal, bounds, work, tops) {
        return None;
    }
    let lower = lower_half(bounds, i);
    let upper = upper_half(bounds, i);
    let hit = search(table, count, res, goal, lower, work, tops);
    if let Some(numbers) = hit {
        return Some(numbers);
    }
    search(table, count, res, goal, upper, work, tops)
}

// A single reading, if it reaches the goal.
fn single(
    table: &[u8],
    count: u16,
    res: semantics::Result,
    goal: Goal,
    numbers: [Word; 16],
    work: &mut [Place],
) -> Option<[Word; 16]>
    requires { Under table.now count res work.old }
    ensures hit { result ≡ single_hit (reached_at goal res (terms_in table.now count) numbers) numbers }
    ensures marks_stay { Under table.now count res work.new }
{
    let outcome = marked::read_under(table, count, res, numbers, work);
    if reaches(goal, outcome) {
        Some(numbers)
    } else {
        None
    }
}

// Whether no reading in the box reaches the goal, as far as ranges tell. Few readings are not asked after.
fn passed_over(
    table: &[u8],
    count: u16,
    res: semantics::Result,
    goal: Goal,
    bounds: Bounds,
    work: &mut [Place],
    tops: &mut [Word],
) -> bool
    requires searched { SearchedFor table.now count res bounds.lows bounds.highs work.old }
    requires room { count ≤ length tops.old }
    ensures ruled_out { (result ≡ true → NotReached table.now count res goal bounds.lows bounds.highs) }
    ensures marks_stay { Under table.now count res work.new }
{
    many(bounds) && !boxes::possible(table, count, res, goal, bounds, work, tops)
}

// The lower half, which ends halfway between input i's low and its high.
fn lower_half(bounds: Bounds, i: u16) -> Bounds
    requires { OpenAt bounds.lows bounds.highs i }
    ensures lows { result.lows ≡ bounds.lows }
    ensures highs { result.highs ≡ set bounds.highs i (middle_of (get_or bounds.lows i 0) (get_or bounds.highs i 0)) }
{
    let mut highs = bounds.highs;
    highs[i as usize] = middle(bounds.lows[i as usize], bounds.highs[i as usize]);
    Bounds {
        lows: bounds.lows,
        highs,
    }
}

// The upper half.
fn upper_half(bounds: Bounds, i: u16) -> Bounds
    requires { OpenAt bounds.lows bounds.highs i }
    ensures lows { result.lows ≡ set bounds.lows i (middle_of (get_or bounds.lows i 0) (get_or bounds.highs i 0) + 1) }
    ensures highs { result.highs ≡ bounds.highs }
{
    let mut lows = bounds.lows;
    lows[i as usize] = middle(bounds.lows[i as usize], bounds.highs[i as usize]) + 1;
    Bounds {
        lows,
        highs: bounds.highs,
    }
}

// Halfway between two numbers.
fn middle(low: Word, high: Word) -> Word
    requires { low < high }
    ensures halfway { result ≡ middle_of low high }
    ensures not_the_last { result < last_word }
{
    low + (high - low) / 2
}

// The first input that is not yet one value.
fn first_open(bounds: Bounds) -> Option<u16>
    ensures { FirstOpen bounds.lows bounds.highs result }
{
    for i in 0..numbers::INPUT_COUNT {
        if bounds.lows[i as usize] != bounds.highs[i as usize] {
            return Some(i);
        }
    }
    None
}

// Whether a box has many readings. It hangs on this how long a search takes, and not what it finds.
fn many(bounds: Bounds) -> bool
    requires { Ordered bounds.lows bounds.highs }
{
    let mut n: u32 = 1;
    for (low, high) in bounds.lows.iter().zip(&bounds.highs) {
        n *= size(*low, *high);
        if MANY <= n {
            return true;
        }
    }
    false
}

// How many numbers there are from one to another.
fn size(low: Word, high: Word) -> u32
    requires { low ≤ high }
    ensures { result ≤ word_limit }
{
    (high - low) as u32 + 1
}

fn reaches(goal: Goal, o: Outcome) -> bool
    ensures { result ≡ «reaches-goal» goal o }
{
    match (goal, o) {
        (Goal::Errs, Outcome::Error) => true,
        (Goal::Aborts, Outcome::Abort) => true,
        (Goal::Gives(w), Outcome::Word(n)) => n == w,
        _ => false,
    }
}
