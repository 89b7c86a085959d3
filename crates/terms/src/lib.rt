// The table of terms in a lent byte slice: reading a term, and making one. A step that makes a term promises
// `Makes`: what it answers, read with the table at exit, is what its definition gives at entry, and only records
// past the count are written. No public function has a `requires`: reads past the end give 0, and making tests
// the room itself.
#![tactic(auto)]

mod table;

ghost use Rattle.std.specs.Prelude.{◌≡◌, ◌-◌, ◌/◌, max, min, length};
ghost use Rattle.semantics.specs.Terms.{word_term_of, term_word, truth_number, terms_in, at as «term-number», same_of, sort_of, known_of};
ghost use Rattle.semantics.specs.Terms.{names_truth, names_value};
ghost use Rattle.terms.specs.Search.{floor_of, find_from, found_of};
ghost use Rattle.terms.specs.Known.{known_number};

use semantics::{Term, numbers};
pub use table::Table;
use words::Word;

// Term i of a table with `count` terms; a blank one where there is none.
pub fn term(table: &[u8], count: u16, i: u16) -> Term
    ensures { result ≡ «term-number» (terms_in table.now count) i }
{
    if i < count {
        return records::term_at(table, i);
    }
    Term {
        kind: 0,
        op: 0,
        a: 0,
        b: 0,
        c: 0,
    }
}

// The term of a word constant.
pub fn word_term(w: Word) -> Term
    ensures { result ≡ word_term_of w }
{
    Term {
        kind: numbers::WORD_TERM,
        op: 0,
        a: words::low(w),
        b: words::high(w),
        c: 0,
    }
}

// The word of a word constant.
pub fn word(t: Term) -> Word
    ensures { result ≡ term_word t }
{
    words::join(t.a, t.b)
}

// A truth that is kept as a word, 1 for true: the number of the term false or true.
pub fn truth_number(w: Word) -> u16
    ensures { result ≡ truth_number w }
{
    if w == 1 {
        numbers::TRUE_NUMBER
    } else {
        numbers::FALSE_NUMBER
    }
}

// What a term stands for: a truth, a word, a choice, a procedure or a binding; 0 for none of these.
pub fn sort(t: Term) -> u8
    ensures { result ≡ sort_of t }
{
    match t.kind {
        numbers::TRUTH_TERM => numbers::TRUTH_TERM,
        numbers::WORD_TERM => numbers::WORD_TERM,
        numbers::FREE_TRUTH_TERM => numbers::TRUTH_TERM,
        numbers::FREE_WORD_TERM => numbers::WORD_TERM,
        numbers::OPERATOR_TERM => if operators::gives_truth(t.op) {
            numbers::TRUTH_TERM
        } else {
            numbers::WORD_TERM
        },
        numbers::CHOICE_TERM => numbers::CHOICE_TERM,
        numbers::PROCEDURE_TERM => numbers::PROCEDURE_TERM,
        numbers::BINDING_TERM => numbers::BINDING_TERM,
        _ => 0,
    }
}

pub fn sort_at(table: &[u8], count: u16, i: u16) -> u8
    ensures { result ≡ sort_of («term-number» (terms_in table.now count) i) }
{
    sort(term(table, count, i))
}

// Which truth a term is, where it is a constant one.
fn constant(t: Term) -> Option<bool>
    ensures { known_number result ≡ known_of t }
{
    if t.kind == numbers::TRUTH_TERM {
        if t.a == 0 { Some(false) } else { Some(true) }
    } else {
        None
    }
}

pub fn known(table: &[u8], count: u16, i: u16) -> Option<bool>
    ensures { known_number result ≡ known_of («term-number» (terms_in table.now count) i) }
{
    constant(term(table, count, i))
}

pub fn same(x: Term, y: Term) -> bool
    ensures { result ≡ same_of x y }
{
    x.a == y.a && (x.kind == y.kind && (x.op == y.op && (x.b == y.b && x.c == y.c)))
}

// The number from which on a term equal to t can stand: a term names only lower ones.
fn floor(t: Term) -> usize
    ensures { result ≡ floor_of t }
{
    match t.kind {
        numbers::OPERATOR_TERM => t.a.max(t.b) as usize + 1,
        numbers::CHOICE_TERM => t.a.max(t.b).max(t.c) as usize + 1,
        numbers::PROCEDURE_TERM => t.b as usize + 1,
        numbers::BINDING_TERM if t.b == numbers::NO_BINDING => t.a as usize + 1,
        numbers::BINDING_TERM => t.a.max(t.b) as usize + 1,
        _ => 0,
    }
}

// How many of the first `count` records lie whole in the table.
fn whole_records(table: &[u8], count: u16) -> usize
    ensures { result ≡ min count (length table.now / 8) }
{
    (table.len() / 8).min(count as usize)
}

// The oldest term equal to t above its largest operand. It is searched for upward, since it often stands right after
// that operand. In a record that lies whole in the table one byte of `a` tells most others apart: two at a turn are
// passed by it, so that the turn's own work counts less.
pub fn find(table: &[u8], count: u16, t: Term) -> Option<u16>
    ensures { found_of result ≡ find_from (floor_of t) (terms_in table.now count) t }
{
    let last = whole_records(table, count).saturating_sub(1);
    let low = (t.a % 256) as u8;
    let mut i = floor(t);
    while i < last {
        let next = i + 1;
        if table[8 * i + 2] != low {
            if table[8 * next + 2] != low {
                i = next + 1;
                continue;
            }
        }
        let at = i as u16;
        if same(records::term_at(table, at), t) {
            return Some(at);
        }
        i = next;
    }
    while i < count as usize {
        let at = i as u16;
        if same(records::term_at(table, at), t) {
            return Some(at);
        }
        i += 1;
    }
    None
}

// Whether a number names a truth among the first n terms.
pub fn names_truth(table: &[u8], n: u16, x: u16) -> bool
    ensures { result ≡ names_truth (terms_in table.now n) x }
{
    sort_at(table, n, x) == numbers::TRUTH_TERM
}

// Whether it names anything there but a binding.
pub fn names_value(table: &[u8], n: u16, x: u16) -> bool
    ensures { result ≡ names_value (terms_in table.now n) x }
{
    let sort = sort_at(table, n, x);
    if sort == 0 {
        return false;
    }
    sort != numbers::BINDING_TERM
}
