// Test 3: whether a session and a table fit. It makes the opening's terms anew to compare them; where a table has more, it
// asks of all its terms whether they are well formed. No public function has a `requires`.
#![tactic(auto)]

ghost use Rattle.std.specs.Prelude.{true, ◌≡◌, ◌-◌, take, is_some, IfSome};
ghost use Rattle.notation.specs.Notation.{every};
ghost use Rattle.semantics.specs.Terms.{terms_in, well_formed};
ghost use Rattle.semantics.specs.Fits.{same_terms, no_free, fits_of};
ghost use Rattle.fitting.specs.Formed.{formulas_fit, rest_fits, records_fit, opening_fits};
ghost use Rattle.fitting.specs.Opens.{Enters, Opens};

use semantics::{Input, Session, Term, numbers};
use terms::Table;

// Whether two tables begin with the same n terms.
fn begins(table: &[u8], fresh: &[u8], n: u16) -> bool
    ensures { result ≡ same_terms (terms_in table.now n) (terms_in fresh.now n) }
{
    (0..n).all(|i| terms::same(records::term_at(table, i), records::term_at(fresh, i)))
}

#[tactic(auto, unfolding(semantics::specs::Fits::no_free))]
fn no_free(t: Term) -> bool
    ensures { result ≡ no_free t }
{
    !matches!(t.kind, numbers::FREE_TRUTH_TERM | numbers::FREE_WORD_TERM)
}

// Whether no free input stands past the first n of `count` terms. The oldest and the newest that are left are looked at
// together, so that one at either end is found at once.
fn none_free(table: &[u8], n: u16, count: u16) -> bool
    ensures { result ≡ every no_free (take (count - n) (terms_in table.now count)) }
{
    let half = count.saturating_sub(n).div_ceil(2);
    (0..half).all(|i| {
        no_free(records::term_at(table, n + i)) && no_free(records::term_at(table, count - 1 - i))
    })
}

fn formulas_fit(table: &[u8], session: Session) -> bool
    ensures { result ≡ formulas_fit session (terms_in table.now session.count) }
{
    terms::names_truth(table, session.count, session.state.assumed)
        && terms::names_truth(table, session.count, session.state.asserted)
        && session.accepted <= numbers::RULE_LIMIT
}

// The tail and the formulas.
fn rest_fits(table: &[u8], session: Session) -> bool
    ensures { result ≡ rest_fits session table.now }
{
    zeros::zero_from(table, 8 * usize::from(session.count)) && formulas_fit(table, session)
}

fn records_fit(table: &[u8], session: Session) -> bool
    ensures { result ≡ records_fit session table.now }
{
    repeats::well_formed(table, session.count, session.accepted) && rest_fits(table, session)
}

// Whether a table begins with the n terms of another, which are well formed, and the rest of it fits. Where it has no
// more terms, none is looked at again.
#[tactic(auto, using(notation::proofs::Follow::tests, terms::proofs::Tables::terms_length, crate::proofs::Begun::nothing_past))]
fn opening_fits(table: &[u8], fresh: &[u8], n: u16, session: Session) -> bool
    requires { well_formed 0 (terms_in fresh.now n) ≡ true }
    ensures { result ≡ opening_fits session table.now (terms_in fresh.now n) }
{
    if session.count < n
        || table.len() / 8 < usize::from(session.count)
        || !begins(table, fresh, n)
    {
        return false;
    }
    if session.count == n {
        return rest_fits(table, session);
    }
    none_free(table, n, session.count) && records_fit(table, session)
}

// An opening on a table of its own, of as many records as one can need: its terms, and input 0's binding.
#[derive(Clone, Copy)]
struct Fresh {
    count: u16,
    environment: u16,
    bytes: [u8; numbers::LEAST_TABLE],
}

fn fresh_opening(inputs: [Input; 16]) -> Fresh
    ensures { Opens inputs result.bytes result.count result.environment }
{
    let mut bytes = [0; numbers::LEAST_TABLE];
    let mut table = Table {
        bytes: &mut bytes,
        count: 0,
    };
    // so many records have room for them
    let environment = opening::open_all(&mut table, inputs).unwrap();
    let count = table.count;
    Fresh {
        count,
        environment,
        bytes,
    }
}

// Test 3, with where a rule starts where a session and a table fit: at input 0's binding, which the opening that it makes
// anew has.
#[tactic(auto, using(crate::proofs::Whole::misfit_size, crate::proofs::Whole::misfit_input))]
pub fn start_of(session: Session, table: &[u8]) -> Option<u16>
    ensures fits { is_some result ≡ fits_of session table.now }
    ensures start { IfSome result (λ e. Enters session.inputs e) }
{
    if opening::bad_table_size(table.len()) || !opening::inputs_taken(session.inputs) {
        return None;
    }
    let fresh = fresh_opening(session.inputs);
    opening_fits(table, &fresh.bytes, fresh.count, session).then_some(fresh.environment)
}

// Test 3: whether a session and a table fit.
pub fn fits(session: Session, table: &[u8]) -> bool
    ensures { result ≡ fits_of session table.now }
{
    start_of(session, table).is_some()
}
