// The lines that the printing program writes, in a lent buffer: a refusal's, or the first line by how the evaluation ended
// and a line for each new term.
#![tactic(auto)]

ghost use Rattle.std.specs.Prelude.{◌+◌, ◌*◌, ◌-◌, ◌≤◌, length};
ghost use Rattle.semantics.specs.Print.{refusal, term_line, term_lines, answer_lines};
ghost use Rattle.text.specs.Appends.{Appends, Writes};
ghost use Rattle.lines.specs.Lines.{line_text, lines_text};
ghost use Rattle.lines.specs.Room.{line_bytes, Told};

use semantics::{Answer, Term, numbers};

// The longest line: six numbers of five digits, each with a byte after it.
const LINE: usize = 36;

// A line for each term of the largest table, and the first line.
pub const OUTPUT: usize = LINE * (numbers::TERM_LIMIT as usize + 1);

// A refusal is the only line.
pub fn put_refusal(out: &mut [u8; OUTPUT], k: u8) -> usize
    ensures { Writes (line_text (refusal k)) out.new result }
{
    text::put_line(out, 0, b"refused ", &[u16::from(k)])
}

// A term's line: its number and its fields.
fn put_term(out: &mut [u8], at: usize, i: u16, t: Term) -> usize
    requires { at + line_bytes ≤ length out.old }
    ensures { Appends line_bytes (line_text (term_line i t)) out.old at out.new result }
{
    text::put_numbers(
        out,
        at,
        &[i, u16::from(t.kind), u16::from(t.op), t.a, t.b, t.c],
    )
}

// The lines of the terms from one number up to another.
fn put_terms(out: &mut [u8], at: usize, table: &[u8], from: u16, to: u16) -> usize
    requires { at + line_bytes * (to - from) ≤ length out.old }
    ensures { Appends (line_bytes * (to - from)) (lines_text (term_lines table.now from (to - from))) out.old at out.new result }
{
    let mut end = at;
    for i in from..to {
        end = put_term(out, end, i, records::term_at(table, i));
    }
    end
}

// The first line by how the evaluation ended, and the terms from the old count up to the new one.
pub fn put_answer(out: &mut [u8; OUTPUT], answer: Answer, table: &[u8], from: u16, to: u16) -> usize
    requires { Told answer to }
    ensures { Writes (lines_text (answer_lines answer to (term_lines table.now from (to - from)))) out.new result }
{
    match answer {
        Answer::Out {
            state,
            value,
            depth: _,
        } => {
            let end = text::put_line(out, 0, b"out ", &[state.assumed, state.asserted, value, to]);
            put_terms(out, end, table, from, to)
        }
        Answer::Halt { state, depth: _ } => {
            let end = text::put_line(out, 0, b"halt ", &[state.assumed, state.asserted, to]);
            put_terms(out, end, table, from, to)
        }
        Answer::Refused(k) => put_refusal(out, k),
    }
}
