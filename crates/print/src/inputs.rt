// The sixteen inputs at the start of what is read.
ghost use Rattle.std.specs.Prelude.{◌≡◌};
ghost use Rattle.semantics.specs.Numbers.{input_count};
ghost use Rattle.semantics.specs.Print.{inputs_from, inputs_whole};

use semantics::Input;

// No input record is cut short, and the second byte of each is zero.
#[tactic(auto, using(crate::proofs::Taken::cut_short, crate::proofs::Taken::not_cut))]
pub(crate) fn whole(s: &[u8]) -> bool
    ensures { result ≡ inputs_whole s.now }
{
    s.len() >= forms::INPUTS && forms::inputs_zeroed(s)
}

// All sixteen.
#[tactic(auto, using(crate::proofs::Taken::inputs_same))]
pub(crate) fn all(s: &[u8]) -> [Input; 16]
    ensures { result ≡ inputs_from s.now 0 input_count }
{
    forms::inputs_in(s)
}
