// What a result reads as, of the terms under it alone: they are marked in a work list, and the pass over them reads each from
// lower ones, which are marked too. The marks stay, so that the same list does for the next reading.
#![tactic(auto)]

ghost use Rattle.std.specs.Prelude.{◌≡◌, ◌≤◌, length};
ghost use Rattle.semantics.specs.Terms.{terms_in};
ghost use Rattle.semantics.specs.Reading.{readings, read_in};
ghost use Rattle.semantics.specs.Under.{Closed};
ghost use Rattle.reader.specs.Reader.{unpacked_of};
ghost use Rattle.under.specs.Marks.{mark_place, mark_in};
ghost use Rattle.marked.specs.Marked.{Under, ReadsMarked};

use reader::Place;
use semantics::{Outcome, Reading, Result};
use words::{WORDS, Word};

// What the result reads as, of the marked terms. The marks stay.
pub fn read_under(
    table: &[u8],
    count: u16,
    res: Result,
    numbers: [Word; 16],
    work: &mut [Place],
) -> Outcome
    requires { Under table.now count res work.old }
    ensures outcome { result ≡ read_in (readings numbers (terms_in table.now count)) res }
    ensures still_marked { Under table.now count res work.new }
{
    read_marked(table, count, numbers, work);
    reader::outcome_held(&work[..count as usize], res)
}

// What each marked term reads as, from the first on: it is read from lower ones, which are marked too. By its number, since
// the places below a term are read while its own is written.
fn read_marked(table: &[u8], count: u16, numbers: [Word; 16], work: &mut [Place])
    requires enough { count ≤ length work.old }
    requires closed { Closed (terms_in table.now count) (mark_in work.old) }
    ensures { ReadsMarked numbers table.now count work.old work.new }
{
    for i in 0..count {
        let at = i as usize;
        if under::is_marked(work[at]) {
            let t = records::term_at(table, i);
            let v = reader::term_reading(t, numbers, &work[..at]);
            work[at] = keep(v);
        }
    }
}

// A reading as it is kept in a marked place.
pub fn keep(v: Reading) -> Place
    ensures reading { unpacked_of result ≡ v }
    ensures marked { mark_place ≤ result }
{
    under::MARK + WORDS * Place::from(v.sort) + Place::from(v.number)
}
