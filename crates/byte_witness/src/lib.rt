// Witnesses over byte forms. Spans are given as two forms of numbers, or not at all, as two empty ones. The work list is zero on every
// return. No public function has a `requires`.
#![tactic(auto, using(notation::proofs::Follow::tests), unfolding(crate::specs::Witness::spans_given, crate::specs::Witness::witness_unformed))]

ghost use Rattle.std.specs.Prelude.{◌≡◌};
ghost use Rattle.std.proofs.lemmas.List.Edits.{sets};
ghost use Rattle.words.specs.Words.{word_bytes};
ghost use Rattle.semantics.specs.Refusals.{answer_number};
ghost use Rattle.forms.specs.Forms.{words_of};
ghost use Rattle.witness.specs.Told.{hit_told};
ghost use Rattle.byte_witness.specs.Witness.{spans_given, hit_bytes, witness_unformed, desk_witness};

use reader::Place;
use semantics::Refusal;
use words::Word;

// The bytes of a word.
const WORD: u16 = words::BYTES as u16;

// How many bytes a hit takes: 17 words.
const HIT: usize = words::BYTES + forms::NUMBERS;

// Whether lows and highs are forms of numbers, or both empty.
fn spans_given(lows: usize, highs: usize) -> bool
    ensures { result ≡ spans_given lows highs }
{
    lows == 0 && highs == 0 || lows == forms::NUMBERS && highs == forms::NUMBERS
}

// The refusal of a form of another length, then of a goal and of a session that is not of its form.
fn formed(
    session: &[u8],
    res: &[u8],
    goal: &[u8],
    lows: usize,
    highs: usize,
    places: usize,
) -> Result<(), Refusal>
    ensures { answer_number result ≡ witness_unformed session.now res.now goal.now lows highs places }
{
    let lengths = session.len() == forms::SESSION
        && res.len() == forms::RESULT
        && goal.len() == forms::READING
        && spans_given(lows, highs)
        && places == HIT;
    if !lengths || !goal_forms::goal_formed(goal) {
        return Err(Refusal::WrongLength);
    }
    if !forms::session_formed(session) {
        return Err(Refusal::Misfit);
    }
    Ok(())
}

// Looks for the first reading that reaches a goal, and writes it. The C interface has the answer as a number.
pub fn witness(
    session: &[u8],
    table: &[u8],
    res: &[u8],
    goal: &[u8],
    lows: &[u8],
    highs: &[u8],
    work: &mut [Place],
    hit: &mut [u8],
) -> u8
    ensures { (result, work.new, hit.new) ≡ desk_witness session.now table.now res.now goal.now lows.now highs.now work.old hit.old }
{
    if let Err(refusal) = formed(session, res, goal, lows.len(), highs.len(), hit.len()) {
        reader::wipe(work);
        return refusal.number();
    }
    let found = witness::witness(
        forms::session_in(session),
        table,
        forms::result_in(res),
        goal_forms::goal_in(goal),
        lows.len() != 0,
        forms::numbers_in(lows),
        forms::numbers_in(highs),
        work,
    );
    match found {
        Ok(numbers) => {
            put_hit(hit, numbers);
            0
        }
        Err(refusal) => refusal.number(),
    }
}

// Whether there is one, and its numbers; zeros where there is none.
fn put_hit(place: &mut [u8], hit: Option<[Word; 16]>)
    ensures { place.new ≡ sets place.old 0 (hit_bytes (hit_told hit)) }
{
    forms::put_word(place, 0, operators::bit(hit.is_some()));
    put_numbers(place, hit.unwrap_or([0; 16]));
}

// The numbers, after the first word.
fn put_numbers(place: &mut [u8], numbers: [Word; 16])
    ensures { place.new ≡ sets place.old word_bytes (words_of numbers) }
{
    for i in 0..16 {
        forms::put_word(place, WORD * (i + 1), numbers[i as usize]);
    }
}
