// Text into a lent buffer, byte after byte: a cursor puts its text from its place on. A byte is stored where the buffer has its
// place, so that the same functions measure a text, over a buffer that is too short for it, and write it. The place stops at a
// limit that no text reaches. No public function has a `requires`.
#![tactic(auto)]

ghost use Rattle.std.specs.Prelude.{[], ◌∷◌, ◌++◌};
ghost use Rattle.text.specs.Text.{decimal_of};
ghost use Rattle.cursor.specs.Sink.{Writes};

// More bytes than any text has.
const MOST_TEXT: usize = 281474976710656;

const ZERO: u8 = 48;

// A buffer, and the place of the next byte.
#[derive(Drop)]
pub struct Cursor<'a> {
    pub buffer: &'a mut [u8],
    pub at: usize,
}

impl<'a> Cursor<'a> {
    // A byte.
    #[tactic(auto, using(crate::proofs::Writing::put_none))]
    pub fn put(&mut self, b: u8)
        ensures { Writes (b ∷ []) self.old self.new }
    {
        if self.at < MOST_TEXT {
            if self.at < self.buffer.len() {
                self.buffer[self.at] = b;
            }
            self.at += 1;
        }
    }

    // A number in base ten.
    pub fn put_number(&mut self, n: u64)
        ensures { Writes (decimal_of n) self.old self.new }
    {
        if n < 10 {
            return self.put(ZERO + n as u8);
        }
        self.put_number(n / 10);
        self.put(ZERO + (n % 10) as u8);
    }

    // A number in base ten, and a byte after it.
    pub fn put_before(&mut self, n: u64, after: u8)
        ensures { Writes (decimal_of n ++ (after ∷ [])) self.old self.new }
    {
        self.put_number(n);
        self.put(after);
    }

    // These bytes as they are.
    #[tactic(auto, using(crate::proofs::Writing::leads_end, crate::proofs::Writing::bytes_end))]
    pub fn put_bytes(&mut self, bytes: &[u8])
        ensures { Writes bytes.now self.old self.new }
    {
        for b in bytes {
            self.put(*b);
        }
    }
}
