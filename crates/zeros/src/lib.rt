// Whether the bytes of a slice are zero from a place on: what test 3 asks of a table's tail. The public function has no
// `requires`.
#![tactic(auto)]

ghost use Rattle.std.specs.Prelude.{◌≡◌, length, drop};
ghost use Rattle.notation.specs.Notation.{every};
ghost use Rattle.semantics.specs.Fits.{is_zero};
ghost use Rattle.zeros.specs.Zeros.{four_zero};

// Whether four slices of one length are zero. It looks at every byte, so that a compiler can look at many at once.
fn four_zero(x: &[u8], y: &[u8], z: &[u8], w: &[u8]) -> bool
    requires second { length y.now ≡ length x.now }
    requires third { length z.now ≡ length x.now }
    requires fourth { length w.now ≡ length x.now }
    ensures { result ≡ four_zero x.now y.now z.now w.now }
{
    let mut seen = 0;
    // One index for all four: a zip of zips says no more and hides that they go together.
    for i in 0..x.len() {
        seen |= x[i] | y[i] | z[i] | w[i];
    }
    seen == 0
}

// Whether a slice is zero.
fn all_zero(s: &[u8]) -> bool
    ensures { result ≡ every is_zero s.now }
{
    s.iter().all(|byte| *byte == 0)
}

// Whether a slice is zero from a place on, where there may be much to look at: its four quarters go together, which is
// quicker than one after the other.
pub fn zero_from(s: &[u8], at: usize) -> bool
    ensures { result ≡ every is_zero (drop at s.now) }
{
    if s.len() <= at {
        return true;
    }
    let quarter = (s.len() - at) / 4;
    let a = at + quarter;
    let b = a + quarter;
    let c = b + quarter;
    let d = c + quarter;
    four_zero(&s[at..a], &s[a..b], &s[b..c], &s[c..d]) && all_zero(&s[d..])
}
