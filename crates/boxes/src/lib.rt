// A box of readings, from a low to a high for each input: the range of each term under a result, kept in two lists, and whether
// a goal may be reached in the box. A marked place of the work list holds a range's sort and low as it holds a reading; the
// other list has the highs. They stay two lists, since the work list is one that the C interface lends.
#![tactic(auto, using(notation::proofs::Follow::values, crate::proofs::Ranged::past_as, crate::proofs::Ranged::range_as, crate::proofs::Ranged::reach_as), unfolding(crate::specs::Boxes::place_range))]

ghost use Rattle.std.specs.Prelude.{◌≡◌, false, ◌≤◌, length};
ghost use Rattle.ranges.specs.Ranges.{term_range};
ghost use Rattle.ranges.specs.MayReach.{may_reach};
ghost use Rattle.marked.specs.Marked.{Under};
ghost use Rattle.boxes.specs.Boxes.{place_range, range_held, Ready, Ranged, NotReached};

use reader::Place;
use semantics::{Goal, Reading, Report, Result, Term};
use words::Word;

// A low and a high for each input. Spans come and go apart, as the C interface gives them.
#[derive(Clone, Copy)]
pub struct Bounds {
    pub lows: [Word; 16],
    pub highs: [Word; 16],
}

// Whether a goal may be reached in a box, by the ranges of the terms under the result. The marks stay.
pub fn possible(
    table: &[u8],
    count: u16,
    res: Result,
    goal: Goal,
    bounds: Bounds,
    work: &mut [Place],
    tops: &mut [Word],
) -> bool
    requires marked { Under table.now count res work.old }
    requires room { count ≤ length tops.old }
    requires ready { Ready table.now count bounds.highs }
    ensures ruled_out { (result ≡ false → NotReached table.now count res goal bounds.lows bounds.highs) }
    ensures marks_stay { Under table.now count res work.new }
{
    fill(table, count, bounds, work, tops);
    goal_held(&work[0..count as usize], tops, res, goal)
}

// Whether a goal may be reached, by what is held for S, T and the value.
fn goal_held(held: &[Place], tops: &[Word], res: Result, goal: Goal) -> bool
    requires { length held.now ≤ length tops.now }
    ensures { result ≡ may_reach goal res.halted (range_held held.now tops.now res.state.assumed) (range_held held.now tops.now res.state.asserted) (range_held held.now tops.now res.value) }
{
    let assumed = range_held(held, tops, res.state.assumed);
    let asserted = range_held(held, tops, res.state.asserted);
    let value = range_held(held, tops, res.value);
    ranges::may_reach(goal, res.halted, assumed, asserted, value)
}

// The range of each marked term, from the first on.
fn fill(table: &[u8], count: u16, bounds: Bounds, work: &mut [Place], tops: &mut [Word])
    requires marks_room { count ≤ length work.old }
    requires room { count ≤ length tops.old }
    requires ready { Ready table.now count bounds.highs }
    ensures { Ranged table.now bounds.lows bounds.highs count work.old work.new tops.new }
{
    for i in 0..count {
        let at = i as usize;
        if under::is_marked(work[at]) {
            let r = range_of(records::term_at(table, i), bounds, &work[0..at], tops);
            work[at] = marked::keep(Reading {
                sort: r.sort,
                number: r.low,
            });
            tops[at] = r.high;
        }
    }
}

// A term's range, of those that are held for lower ones.
fn range_of(t: Term, bounds: Bounds, held: &[Place], tops: &[Word]) -> Report
    requires { length held.now ≤ length tops.now }
    ensures { result ≡ term_range bounds.lows bounds.highs t (range_held held.now tops.now t.a) (range_held held.now tops.now t.b) (range_held held.now tops.now t.c) }
{
    let x = range_held(held, tops, t.a);
    let y = range_held(held, tops, t.b);
    let z = range_held(held, tops, t.c);
    ranges::term_range(t, bounds.lows, bounds.highs, x, y, z)
}

// The range that is held for term k; open where there is none.
fn range_held(held: &[Place], tops: &[Word], k: u16) -> Report
    requires { length held.now ≤ length tops.now }
    ensures { result ≡ range_held held.now tops.now k }
{
    let at = k as usize;
    if at < held.len() {
        place_range(held[at], tops[at])
    } else {
        reports::open_report()
    }
}

// The range that a place holds with a high; open where it is not marked.
fn place_range(n: Place, high: Word) -> Report
    ensures { result ≡ place_range n high }
{
    if under::is_marked(n) {
        let v = reader::unpack(n);
        Report {
            sort: v.sort,
            low: v.number,
            high,
        }
    } else {
        reports::open_report()
    }
}
