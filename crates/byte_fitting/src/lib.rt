// Test 3 over byte forms. No public function has a `requires`.
#![tactic(auto)]

ghost use Rattle.std.specs.Prelude.{◌≡◌};
ghost use Rattle.byte_fitting.specs.Fits.{desk_fits};

use semantics::numbers;

// Test 3: 0 where a session and a table fit, else 3. A number, as the C interface answers with it.
#[tactic(auto, using(notation::proofs::Follow::tests), unfolding(crate::specs::Fits::desk_fits))]
pub fn fits(session: &[u8], table: &[u8]) -> u8
    ensures { result ≡ desk_fits session.now table.now }
{
    if session.len() != forms::SESSION {
        return forms::WRONG_LENGTH;
    }
    if forms::session_formed(session) && fitting::fits(forms::session_in(session), table) {
        return 0;
    }
    numbers::MISFIT
}
