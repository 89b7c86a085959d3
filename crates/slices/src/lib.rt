// The bytes of a lent slice: one is read, two are a number, and all from a place on are wiped. What stands past the last byte
// reads as 0, so nothing reads past a slice whatever its length. No public function has a `requires`.
#![tactic(auto)]

ghost use Rattle.std.specs.Prelude.{◌≡◌, ◌+◌, ◌*◌, get_or};
ghost use Rattle.slices.specs.Wiped.{wiped};

// The byte at a position; 0 past the end.
pub fn byte(s: &[u8], at: usize) -> u8
    ensures { result ≡ get_or s.now at 0 }
{
    s.get(at).copied().unwrap_or(0)
}

// The number of two bytes.
pub fn pair(low: u8, high: u8) -> u16
    ensures { result ≡ low + 256 * high }
{
    u16::from_le_bytes([low, high])
}

// Zero from a place on.
#[tactic(auto, using(crate::proofs::Wiped::wiped_done), unfolding(crate::specs::Wiped::wiped))]
pub fn wipe(s: &mut [u8], from: usize)
    ensures { s.new ≡ wiped s.old from }
{
    if from < s.len() {
        s[from..].fill(0);
    }
}
