// Opening over byte forms (the crate `forms` lists them). No public function has a `requires`.
#![tactic(auto)]

ghost use Rattle.std.specs.Prelude.{◌≡◌};
ghost use Rattle.semantics.specs.Refusals.{answer_number};
ghost use Rattle.byte_opening.specs.Open.{desk_open};

use semantics::Refusal;

// Each test in its order, then the opening itself.
fn opened(inputs: &[u8], table: &mut [u8], session: &mut [u8]) -> Result<(), Refusal>
    ensures { (answer_number result, table.new, session.new) ≡ desk_open inputs.now table.old session.old }
{
    if session.len() != forms::SESSION {
        return Err(Refusal::WrongLength);
    }
    if opening::bad_table_size(table.len()) {
        return Err(Refusal::TableSize);
    }
    if !forms::inputs_formed(inputs) {
        return Err(Refusal::BadInput);
    }
    let begun = opening::open(forms::inputs_in(inputs), table)?;
    forms::put_session(session, begun);
    Ok(())
}

// Opens a session over a table and writes it. A number, as the C interface answers with it.
pub fn open(inputs: &[u8], table: &mut [u8], session: &mut [u8]) -> u8
    ensures { (result, table.new, session.new) ≡ desk_open inputs.now table.old session.old }
{
    semantics::answer_number(opened(inputs, table, session))
}
