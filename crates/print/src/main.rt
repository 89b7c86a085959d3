// The printing program (document 01, "The printed case"): reads sixteen inputs and a rule, evaluates the rule, and
// writes how that ended and the new terms. `printed` does the work, between a slice and an array, and `printed_from`
// promises every byte for the whole input, of which a buffer holds the beginning. `streams::run` reads until its buffer is
// full or the input ends and writes until all is written, and promises that over any reader and writer whose bytes can be
// told; a read or a write that fails ends it with that error. What no contract can say is what the operating system hands
// over and takes.
#![tactic(auto)]

mod inputs;
mod streams;

ghost use Rattle.std.specs.Prelude.{◌≡◌, List, ℕ, take};
ghost use Rattle.semantics.specs.Print.{evaluation_lines};
ghost use Rattle.io.specs.Counts.{IsPrefixLen};
ghost use Rattle.text.specs.Appends.{Writes};
ghost use Rattle.lines.specs.Lines.{lines_text};
ghost use Rattle.print.specs.Written.{written_of};
ghost use Rattle.print.specs.Read.{Read};

use lines::OUTPUT;
use semantics::{Session, numbers};
use std::io;

const ALLOWANCE: u16 = 100;

// One byte more than the inputs and the longest rule take, so that a longer rule is seen to be too long; what stands
// after that byte makes no difference.
const INPUT: usize = forms::INPUTS + numbers::RULE_BYTES + 1;

// A rule evaluated in a session over a table.
fn put_evaluation(out: &mut [u8; OUTPUT], session: Session, table: &mut [u8], rule: &[u8]) -> usize
    ensures { Writes (lines_text (evaluation_lines rule.now session table.old)) out.new result }
{
    let e = entry::enter_once(session, table, rule, ALLOWANCE);
    lines::put_answer(out, e.answer, table, session.count, e.session.count)
}

// What is to be written for what was read: its bytes at the start of `out`, and how many there are.
pub fn printed(input: &[u8], out: &mut [u8; OUTPUT]) -> usize
    ensures { Writes (written_of input.now) out.new result }
{
    if !inputs::whole(input) {
        return lines::put_refusal(out, numbers::BAD_INPUT);
    }
    let mut table = [0u8; numbers::MOST_TABLE];
    match opening::open(inputs::all(input), &mut table) {
        Ok(session) => put_evaluation(out, session, &mut table, &input[forms::INPUTS..]),
        Err(refusal) => lines::put_refusal(out, refusal.number()),
    }
}

// What is to be written for a whole input, of which the first n bytes of the buffer are as much as the buffer holds. An
// n past the buffer's end stands for all of the buffer.
pub fn printed_from(buffer: &[u8; INPUT], n: usize, out: &mut [u8; OUTPUT]) -> usize
    ensures prefix_len { IsPrefixLen result out.new }
    ensures by_index { (input : List ℕ) → Read buffer.now n input → take result out.new ≡ written_of input }
{
    let bytes: &[u8] = buffer;
    if n < INPUT {
        return printed(&bytes[..n], out);
    }
    printed(bytes, out)
}

fn main(rt: HostRuntime) -> io::Result<()> {
    streams::run(&mut rt.reader(), &mut io::writer(&rt))
}
