// Spans (document 02, "Two"): of a session, its table, and a low and a high for every free word input, the report of each
// term in a lent list. The tests come in the order of the document, then the work. No public function has a `requires`.
#![tactic(auto)]

ghost use Rattle.std.specs.Prelude.{◌≡◌, ◌+◌, ◌*◌, ◌≤◌, length};
ghost use Rattle.std.specs.List.{zip, list_all};
ghost use Rattle.semantics.specs.Refusals.{answer_number};
ghost use Rattle.semantics.specs.Spans.{report_size, end_of, ends_of, span_taken, spans_taken, spans_of};
ghost use Rattle.spans.specs.Lists.{lower_of, Laid, Puts};

use semantics::{Input, Refusal, Report, Session, numbers};
use words::Word;

// The places of a report in the list: its sort, its low and its high. The C interface lends numbers, and no reports.
const REPORT: usize = 3;

// The report of each term, laid into the list; or a refusal, by 3, 17 or 15, which leaves the list as it was. Lows and highs
// are two lists, as the C interface has them.
#[tactic(auto, using(notation::proofs::Follow::tests), unfolding(semantics::specs::Spans::spans_of))]
pub fn spans(
    session: Session,
    table: &[u8],
    lows: [Word; 16],
    highs: [Word; 16],
    list: &mut [u32],
) -> Result<(), Refusal>
    ensures { (answer_number result, list.new) ≡ spans_of session table.now lows highs list.old }
{
    if !fitting::fits(session, table) {
        return Err(Refusal::Misfit);
    }
    if !spans_taken(session.inputs, lows, highs) {
        return Err(Refusal::BadSpan);
    }
    if list.len() < REPORT * (session.count as usize) {
        return Err(Refusal::WorkShort);
    }
    let least = ends(0, session.inputs, lows);
    let greatest = ends(1, session.inputs, highs);
    fill(table, session.count, least, greatest, list);
    Ok(())
}

// No free word's low is above its high.
pub fn spans_taken(inputs: [Input; 16], lows: [Word; 16], highs: [Word; 16]) -> bool
    ensures { result ≡ spans_taken inputs lows highs }
{
    each_taken(&inputs, &lows, &highs)
}

// Each low and high, by their own input. A function of its own, since its clause follows the chain.
fn each_taken(inputs: &[Input], lows: &[Word], highs: &[Word]) -> bool
    ensures { result ≡ list_all (λ p. span_taken p.0 p.1.0 p.1.1) (zip inputs.now (zip lows.now highs.now)) }
{
    inputs
        .iter()
        .zip(lows.iter().zip(highs))
        .all(|(x, (low, high))| span_taken(*x, *low, *high))
}

// Any low and high will do for an input that is no free word.
#[tactic(auto, using(notation::proofs::Follow::tests), unfolding(semantics::specs::Spans::span_taken))]
fn span_taken(x: Input, low: Word, high: Word) -> bool
    ensures { result ≡ span_taken x low high }
{
    x.kind != numbers::FREE_WORD || low <= high
}

// One end of each input: 0 is the least truth, and 1 the greatest.
pub fn ends(truth: Word, inputs: [Input; 16], given: [Word; 16]) -> [Word; 16]
    ensures { result ≡ ends_of truth inputs given }
{
    let mut found = given;
    for (i, x) in inputs.iter().enumerate() {
        found[i] = end(truth, *x, given[i]);
    }
    found
}

// What is given counts for a free word alone.
#[tactic(auto, using(notation::proofs::Follow::tests), unfolding(semantics::specs::Spans::end_of))]
fn end(truth: Word, x: Input, given: Word) -> Word
    ensures { result ≡ end_of truth x given }
{
    match x.kind {
        numbers::FREE_WORD => given,
        numbers::FREE_TRUTH => truth,
        _ => 0,
    }
}

// The report of each term, from the first on: a term's is made of lower ones.
fn fill(table: &[u8], count: u16, lows: [Word; 16], highs: [Word; 16], list: &mut [u32])
    requires { report_size * count ≤ length list.old }
    ensures { Laid lows highs table.now list.old count list.new }
{
    for i in 0..count {
        let t = records::term_at(table, i);
        let x = lower(list, i, t.a);
        let y = lower(list, i, t.b);
        let z = lower(list, i, t.c);
        let r = reports::term_report(t, lows, highs, x, y, z);
        put_report(list, i, r);
    }
}

// The report of term k, where it is below i; open where it is not.
fn lower(list: &[u32], i: u16, k: u16) -> Report
    requires { report_size * i ≤ length list.now }
    ensures { result ≡ lower_of list.now i k }
{
    if i <= k {
        return reports::open_report();
    }
    let at = REPORT * (k as usize);
    Report {
        sort: (list[at] % 256) as u8,
        low: words::narrow(list[at + 1]),
        high: words::narrow(list[at + 2]),
    }
}

// A report at its term's places.
fn put_report(list: &mut [u32], i: u16, r: Report)
    requires { report_size * i + report_size ≤ length list.old }
    ensures { Puts r i list.old list.new }
{
    let at = REPORT * (i as usize);
    list[at] = u32::from(r.sort);
    list[at + 1] = words::widen(r.low);
    list[at + 2] = words::widen(r.high);
}
