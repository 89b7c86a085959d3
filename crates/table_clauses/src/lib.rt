// The clauses of a table's terms as text, in their order, and how many there are. No function has a `requires`.
#![tactic(auto)]

ghost use Rattle.std.specs.Prelude.{map};
ghost use Rattle.cursor.specs.Sink.{Writes};
ghost use Rattle.semantics.specs.Terms.{terms_in};
ghost use Rattle.clauses.specs.Clauses.{term_gates, table_clauses};
ghost use Rattle.gate_tables.specs.Packed.{packed};
ghost use Rattle.dimacs.specs.Text.{clauses_text};
ghost use Rattle.gates.specs.Slots.{gates_text};
ghost use Rattle.table_clauses.specs.Totals.{TotalsOf};

use cursor::Cursor;
use gates::{OWNED, Places};
use semantics::Term;

// How many helpers and clauses a table's terms have.
#[derive(Clone, Copy)]
pub struct Totals {
    pub helpers: u32,
    pub clauses: u32,
}

// A term's clauses, where its b names u.
pub fn put_term(out: &mut Cursor, p: Places, t: Term, u: Term)
    ensures { Writes (gates_text p (map packed (term_gates t u))) out.old out.new }
{
    for i in 0..term_gates::gate_count(t, u) {
        gates::put_gate(out, p, term_gates::gate_at(t, u, i));
    }
}

// The clauses of all terms, in their order.
pub fn put_terms(out: &mut Cursor, table: &[u8], count: u16)
    ensures { Writes (clauses_text (table_clauses count (terms_in table.now count))) out.old out.new }
{
    let mut helpers = OWNED as u32 * u32::from(count) + 1;
    for own in 0..count {
        let t = records::term_at(table, own);
        let u = terms::term(table, own, t.b);
        let p = Places {
            helpers,
            own,
            a: t.a,
            b: t.b,
            c: t.c,
        };
        put_term(out, p, t, u);
        helpers += u32::from(term_gates::helper_count(t, u));
    }
}

// How many helpers and clauses all terms have.
pub fn add_up(table: &[u8], count: u16) -> Totals
    ensures { TotalsOf (terms_in table.now count) count result.helpers result.clauses }
{
    let mut totals = Totals {
        helpers: 0,
        clauses: 0,
    };
    for n in 0..count {
        let t = records::term_at(table, n);
        let u = terms::term(table, n, t.b);
        totals.helpers += u32::from(term_gates::helper_count(t, u));
        totals.clauses += u32::from(term_gates::clause_count(t, u));
    }
    totals
}
