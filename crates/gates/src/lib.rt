// The clauses of a gate as text. A gate over a term's wires is one number (crate `gate_tables`); its clauses' literals are slots of
// a constant list, and each is worked out from the gate's number and the places of the terms that it looks at. No function has a
// `requires`.
#![tactic(auto, using(notation::proofs::Follow::values), unfolding(crate::specs::Slots::owner_of, crate::specs::Slots::wire_variable, crate::specs::Slots::literal_of, crate::specs::Slots::operand_of, crate::specs::Slots::flipped))]

ghost use Rattle.std.specs.Prelude.{◌≡◌, [], ◌∷◌, ◌<◌, ◌^◌};
ghost use Rattle.text.specs.Text.{digit, line_feed};
ghost use Rattle.cursor.specs.Sink.{Writes};
ghost use Rattle.dimacs.specs.Text.{literal_text};
ghost use Rattle.gates.specs.Slots.{as_literal, owner_of, wire_variable, literal_of, flipped, operand_of, slot_text, gate_text};

use cursor::Cursor;
use semantics::numbers;
use words::WIDTH;

// What a term's wires stand for: the variable of its first helper, its own number, and those of the terms that it names.
#[derive(Clone, Copy)]
pub struct Places {
    pub helpers: u32,
    pub own: u16,
    pub a: u16,
    pub b: u16,
    pub c: u16,
}

// The variables that a term owns.
pub const OWNED: u64 = WIDTH as u64 + 2;

pub const SPACE: u8 = 32;

pub const LINE_FEED: u8 = 10;

const MINUS: u8 = 45;

const ZERO: u8 = 48;

// The slot that ends a clause.
const END: u8 = 8;

impl Places {
    // The term that wires of a kind are of: the term itself, those that it names, or true.
    fn owner(self, k: u64) -> u64
        ensures { (result ≡ owner_of self k) × (result < 65536) }
    {
        u64::from(match k {
            1 => self.own,
            2 => self.a,
            3 => self.b,
            4 => self.c,
            _ => numbers::TRUE_NUMBER,
        })
    }

    fn wire_variable(self, w: u64) -> u64
        ensures { (result ≡ wire_variable self w) × (result < 2 ^ 33) }
    {
        if w / 2048 == 0 {
            return u64::from(self.helpers) + w % 2048;
        }
        OWNED * self.owner(w / 2048) + w % 2048 + 1
    }

    // A literal over variables.
    fn literal(self, l: u64) -> u64
        ensures { result ≡ literal_of self l }
    {
        2 * self.wire_variable(l / 2) + l % 2
    }

    // The literal of a gate's wire, or of an operand.
    fn operand(self, g: u64, k: u8) -> u64
        ensures { result ≡ operand_of self g k }
    {
        match k {
            0 => self.literal(2 * (g / 16 % 16384)),
            1 => self.literal(g / 262144 % 32768),
            2 => self.literal(g / 8589934592 % 32768),
            _ => self.literal(g / 281474976710656),
        }
    }
}

// A literal, which is twice its variable and 1 more where it is negated, and a space.
pub fn put_literal(out: &mut Cursor, l: u64)
    ensures { Writes (literal_text (as_literal l)) out.old out.new }
{
    if l % 2 != 0 {
        out.put(MINUS);
    }
    out.put_before(l / 2, SPACE);
}

// The end of a clause.
pub fn put_end(out: &mut Cursor)
    ensures { Writes (digit 0 ∷ line_feed ∷ []) out.old out.new }
{
    out.put(ZERO);
    out.put(LINE_FEED);
}

fn flip(l: u64) -> u64
    ensures { result ≡ flipped l }
{
    if l % 2 == 0 { l + 1 } else { l - 1 }
}

fn put_slot(out: &mut Cursor, p: Places, g: u64, s: u8)
    ensures { Writes (slot_text p g s) out.old out.new }
{
    if s == END {
        return put_end(out);
    }
    let l = p.operand(g, s / 2);
    put_literal(out, if s % 2 == 0 { l } else { flip(l) });
}

// A gate's clauses.
pub fn put_gate(out: &mut Cursor, p: Places, g: u64)
    ensures { Writes (gate_text p g) out.old out.new }
{
    let f = (g % 16) as usize;
    let first = usize::from(gate_tables::slot_start(f));
    let last = usize::from(gate_tables::slot_start(f + 1));
    for i in first..last {
        put_slot(out, p, g, gate_tables::slot(i));
    }
}
