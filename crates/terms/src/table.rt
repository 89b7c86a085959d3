// A lent table with the count of its terms, which only making raises.
ghost use Rattle.std.specs.Prelude.{◌≡◌};
ghost use Rattle.semantics.specs.Terms.{terms_in, at as «term-number», sort_of, known_of};
ghost use Rattle.semantics.specs.Steps.{make_of};
ghost use Rattle.terms.specs.Search.{found_of, missing, find_above};
ghost use Rattle.terms.specs.Gives.{held, Makes};
ghost use Rattle.terms.specs.Known.{known_number};

use semantics::{Refusal, Term, numbers};

#[derive(Drop)]
pub struct Table<'a> {
    pub bytes: &'a mut [u8],
    pub count: u16,
}

impl Table<'_> {
    // Term i; a blank one where there is none.
    pub fn term(&self, i: u16) -> Term
        ensures { result ≡ «term-number» (terms_in self.now.bytes.now self.now.count) i }
    {
        let count = self.count;
        crate::term(self.bytes, count, i)
    }

    // What term i stands for, as `sort` says it.
    pub fn sort(&self, i: u16) -> u8
        ensures { result ≡ sort_of («term-number» (terms_in self.now.bytes.now self.now.count) i) }
    {
        let count = self.count;
        crate::sort_at(self.bytes, count, i)
    }

    // Which truth term i is, where it is a constant one.
    pub fn known(&self, i: u16) -> Option<bool>
        ensures { known_number result ≡ known_of («term-number» (terms_in self.now.bytes.now self.now.count) i) }
    {
        let count = self.count;
        crate::known(self.bytes, count, i)
    }

    // The oldest term equal to t above its largest operand.
    fn find(&self, t: Term) -> Option<u16>
        ensures { found_of result ≡ find_above (held self.now) t }
    {
        let count = self.count;
        crate::find(self.bytes, count, t)
    }

    // A term equal to one present takes that number; another takes the next, unless the table is full.
    pub fn make(&mut self, t: Term) -> Result<u16, Refusal>
        ensures { Makes (make_of t) self.old result self.new }
    {
        match self.find(t) {
            Some(at) => Ok(at),
            None => self.append(t),
        }
    }

    // The next number to a term that is not there yet.
    fn append(&mut self, t: Term) -> Result<u16, Refusal>
        requires { missing ≡ find_above (held self.old) t }
        ensures { Makes (make_of t) self.old result self.new }
    {
        let number = self.count;
        if number >= numbers::TERM_LIMIT {
            return Err(Refusal::TableFull);
        }
        let at = number as usize * 8;
        if self.bytes.len() < at + 8 {
            return Err(Refusal::TableFull);
        }
        fields::write(&mut self.bytes[at..], t.kind, t.op, t.a, t.b, t.c);
        self.count = number + 1;
        Ok(number)
    }
}
