// The text of document 02's request Six, written into a lent buffer: `write` is the operation, with its tests in order. The text is
// measured first, by the functions that write it. No public function has a `requires`.
#![tactic(auto)]

ghost use Rattle.std.specs.Prelude.{◌≡◌, List, ℕ, ◌≤◌, length};
ghost use Rattle.cursor.specs.Sink.{most_text, Writes, Fills};
ghost use Rattle.semantics.specs.Terms.{terms_in};
ghost use Rattle.dimacs.specs.Text.{header_text, text_for};
ghost use Rattle.dimacs.specs.Written.{Written};
ghost use Rattle.dimacs.specs.Write.{write_of};
ghost use Rattle.writer.specs.Answer.{written_as};

use cursor::Cursor;
use gates::OWNED;
use semantics::{Goal, Refusal, Result as Read, Session};

// Why no text was written: a refusal by 3 or 14; or by 18, with the length that the buffer has no room for.
#[derive(Clone, Copy, Debug, PartialEq, Eq)]
pub enum Unwritten {
    Refused(Refusal),
    TooLong(usize),
}

// The text's length, or why there is none. A refusal leaves the buffer as it was.
pub fn write(
    session: Session,
    table: &[u8],
    res: Read,
    goal: Goal,
    buffer: &mut [u8],
) -> Result<usize, Unwritten>
    ensures { ◌≡◌ {A = Written × List ℕ} (written_as result, buffer.new) (write_of session table.now res goal buffer.old) }
{
    if !fitting::fits(session, table) {
        return Err(Unwritten::Refused(Refusal::Misfit));
    }
    let count = session.count;
    if !reading_tests::result_taken(table, count, res) {
        return Err(Unwritten::Refused(Refusal::BadResult));
    }
    let length = measure(table, count, res, goal);
    if buffer.len() < length {
        return Err(Unwritten::TooLong(length));
    }
    put_text(buffer, table, count, res, goal);
    Ok(length)
}

// How long the text is.
fn measure(table: &[u8], count: u16, res: Read, goal: Goal) -> usize
    ensures { (result ≡ length (text_for count (terms_in table.now count) res goal)) × (result ≤ most_text) }
{
    put_text(&mut [0u8; 1], table, count, res, goal)
}

// The whole text, from the buffer's start on.
fn put_text(buffer: &mut [u8], table: &[u8], count: u16, res: Read, goal: Goal) -> usize
    ensures text { Fills (text_for count (terms_in table.now count) res goal) buffer.old buffer.new result }
    ensures short { length (text_for count (terms_in table.now count) res goal) ≤ most_text }
{
    let totals = table_clauses::add_up(table, count);
    let v = OWNED * u64::from(count) + u64::from(totals.helpers);
    let m = u64::from(totals.clauses) + goal_clauses::goal_count(res, goal);
    let mut out = Cursor { buffer, at: 0 };
    put_header(&mut out, v, m);
    table_clauses::put_terms(&mut out, table, count);
    goal_clauses::put_goal(&mut out, res, goal);
    out.at
}

// v variables, n clauses.
fn put_header(out: &mut Cursor, v: u64, n: u64)
    ensures { Writes (header_text v n) out.old out.new }
{
    out.put_bytes(b"p cnf ");
    out.put_before(v, gates::SPACE);
    out.put_before(n, gates::LINE_FEED);
}
