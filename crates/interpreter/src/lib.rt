// The plain runner's core: the concrete run of one rule over a store that is lent, one place for each whole
// 8 bytes. A place holds one binding: a value, and the chain of bindings that it goes on with. Chain n + 1
// begins at place n, and chain 0 is empty, so a chain is never above the count of places taken. Reads past
// the end give 0 and a place names lower chains only: no bytes of a rule or a store are unsafe to run. The
// tests of rule, inputs and allowance come before, elsewhere. No public function has a `requires`.
#![tactic(auto)]

ghost use Rattle.std.specs.Prelude.{◌≡◌, ◌≤◌, ℕ, length, replicate, IfOk, IfErr};
ghost use Rattle.semantics.specs.Records.{datum_word};
ghost use Rattle.semantics.specs.Run.{is_false, is_aword, is_aprocedure, operation_value, operator_run, datum_value, input_value, inputs_bound};
ghost use Rattle.semantics.specs.PlainRun.{ended, started_of, stored_outcome, places_in};
ghost use Rattle.interpreter.specs.Store.{lower_of, link_of, shown, bound, stored_by};
ghost use Rattle.interpreter.specs.Promise.{held_at, next_at, Found, Bound, Full, run_in, Runs};
ghost use Rattle.interpreter.specs.declared.Stop.TheVariants.{StoreFull};

use semantics::numbers::{
    ABORT_RECORD, CALL_RECORD, CONSTANT_TRUTH, CONSTANT_WORD, DATUM_RECORD, FREE_TRUTH, IF_RECORD,
    INPUT_COUNT, IS_WORD_CODE, LET_RECORD, NOT_CODE, OPERATOR_RECORD, PLACE_LIMIT,
    PROCEDURE_RECORD, PROCEDURE_TERM, TRUE_DATUM, TRUTH_TERM, VARIABLE_RECORD, WORD_DATUM,
    WORD_TERM,
};
use semantics::{Input, Outcome, Record, Refusal};
use words::Word;

// A value as a place holds it.
#[derive(Clone, Copy)]
enum Held {
    Truth(bool),
    Word(Word),
    // A procedure's record, and the chain of its bindings.
    Procedure { record: u16, bindings: u16 },
    // What is found past the end of a chain.
    Nothing,
}

// Why a run ended without a value.
#[derive(Clone, Copy)]
enum Stop {
    Abort,
    Error,
    DepthSpent,
    StoreFull,
}

// A run of a rule: its store, and how many of the places there are taken.
#[derive(Drop)]
struct Run<'a> {
    rule: &'a [u8],
    store: &'a mut [u8],
    taken: u16,
}

// Runs a rule that is taken to have passed the tests, on inputs that have. The store is zero on return.
pub fn run_in_store(
    inputs: [Input; 16],
    numbers: [Word; 16],
    rule: &[u8],
    allowance: u16,
    store: &mut [u8],
) -> Outcome
    ensures { (result ≡ stored_outcome (started_of (places_in (length store.old)) rule.now allowance (inputs_bound inputs numbers))) × (store.new ≡ replicate (length store.old) 0) }
{
    let mut run = Run {
        rule,
        store: &mut *store,
        taken: 0,
    };
    let end = run.start(inputs, numbers, allowance);
    slices::wipe(store, 0);
    outcome(end)
}

impl Run<'_> {
    // Binds the inputs, the last first, and runs record 0.
    fn start(
        &mut self,
        inputs: [Input; 16],
        numbers: [Word; 16],
        allowance: u16,
    ) -> Result<Held, Stop>
        requires { self.old.taken ≡ 0 }
        ensures { Runs (started_of (places_in (length self.old.store.now)) self.old.rule.now allowance (inputs_bound inputs numbers)) self.old self.new result }
    {
        for k in 0..INPUT_COUNT {
            let i = usize::from(INPUT_COUNT - 1 - k);
            self.bind(input_value(inputs[i], numbers[i]), k)?;
        }
        self.evaluate(allowance, 0, INPUT_COUNT)
    }

    // Runs record i at a depth, under the bindings of a chain.
    fn evaluate(&mut self, depth: u16, i: u16, chain: u16) -> Result<Held, Stop>
        requires { chain ≤ self.old.taken }
        ensures { Runs (run_in self.old depth i chain) self.old self.new result }
    {
        if depth == 0 {
            return Err(Stop::DepthSpent);
        }
        let below = depth - 1;
        let x = records::record_at(self.rule, i);
        // A rule's bytes fix the kinds, and `semantics::Record` has them as numbers.
        match x.kind {
            DATUM_RECORD => Ok(datum(x)),
            VARIABLE_RECORD => Ok(self.find(chain, x.p)),
            PROCEDURE_RECORD => Ok(Held::Procedure {
                record: i,
                bindings: chain,
            }),
            CALL_RECORD => {
                let argument = self.find(chain, x.q);
                match self.find(chain, x.p) {
                    Held::Procedure { record, bindings } => {
                        let body = records::record_at(self.rule, record).p;
                        let under = self.bind(argument, bindings)?;
                        self.evaluate(below, body, under)
                    }
                    _ => Err(Stop::Error),
                }
            }
            OPERATOR_RECORD => operator(x.op, self.find(chain, x.p), self.find(chain, x.q)),
            LET_RECORD => {
                let value = self.evaluate(below, x.p, chain)?;
                let under = self.bind(value, chain)?;
                self.evaluate(below, x.q, under)
            }
            IF_RECORD => {
                if self.find(chain, x.p).is_false() {
                    self.evaluate(below, x.r, chain)
                } else {
                    self.evaluate(below, x.q, chain)
                }
            }
            ABORT_RECORD => Err(Stop::Abort),
            _ => Err(Stop::Error),
        }
    }

    // Binds a value above a chain, at the next place: the chain that begins there.
    fn bind(&mut self, v: Held, next: u16) -> Result<u16, Stop>
        requires value { link_of v ≤ self.old.taken }
        requires chain { next ≤ self.old.taken }
        ensures taken { IfOk result (Bound v next self.old self.new) }
        ensures full { IfErr result (λ stop. (stop ≡ StoreFull) × Full self.old self.new) }
    {
        if places(self.store.len()) <= self.taken {
            return Err(Stop::StoreFull);
        }
        let at = 8 * usize::from(self.taken);
        let x = v.bound(next);
        fields::write(&mut self.store[at..], x.kind, x.op, x.p, x.q, x.r);
        self.taken += 1;
        Ok(self.taken)
    }

    // The value at a place of a chain; nothing past its end. Inlined, since a call is slower without, 26 against 20 ns.
    #[inline(always)]
    fn find(&self, chain: u16, place: u16) -> Held
        ensures { Found self.now.store.now chain place result }
    {
        let mut at = chain;
        for _ in 0..place {
            if at == 0 {
                return Held::Nothing;
            }
            at = self.next_at(at - 1);
        }
        if at == 0 {
            return Held::Nothing;
        }
        self.held_at(at - 1)
    }

    // The value bound at place n.
    #[tactic(auto, using(notation::proofs::Follow::values), unfolding(crate::specs::Promise::held_at, crate::specs::Store::held_in))]
    fn held_at(&self, n: u16) -> Held
        ensures { result ≡ held_at self.now.store.now n }
    {
        let x = records::record_at(self.store, n);
        match x.kind {
            TRUTH_TERM => Held::Truth(x.p == 1),
            WORD_TERM => Held::Word(words::join(x.p, x.q)),
            PROCEDURE_TERM => Held::Procedure {
                record: x.p,
                bindings: lower(n, x.q),
            },
            _ => Held::Nothing,
        }
    }

    // The chain after place n.
    #[tactic(auto, unfolding(crate::specs::Promise::next_at))]
    fn next_at(&self, n: u16) -> u16
        ensures { result ≡ next_at self.now.store.now n }
    {
        lower(n, records::record_at(self.store, n).r)
    }
}

impl Held {
    #[tactic(auto, unfolding(semantics::specs::Run::is_false))]
    fn is_false(self) -> bool
        ensures { result ≡ is_false (shown self) }
    {
        matches!(self, Held::Truth(false))
    }

    #[tactic(auto, unfolding(semantics::specs::Run::is_aword))]
    fn is_word(self) -> bool
        ensures { result ≡ is_aword (shown self) }
    {
        matches!(self, Held::Word(_))
    }

    #[tactic(auto, unfolding(semantics::specs::Run::is_aprocedure))]
    fn is_procedure(self) -> bool
        ensures { result ≡ is_aprocedure (shown self) }
    {
        matches!(self, Held::Procedure { .. })
    }

    // The record of a place that holds the value above a chain.
    fn bound(self, next: u16) -> Record
        ensures { result ≡ bound self next }
    {
        let empty = Record {
            kind: 0,
            op: 0,
            p: 0,
            q: 0,
            r: next,
        };
        match self {
            Held::Truth(b) => Record {
                kind: TRUTH_TERM,
                p: u16::from(b),
                ..empty
            },
            Held::Word(w) => Record {
                kind: WORD_TERM,
                p: words::low(w),
                q: words::high(w),
                ..empty
            },
            Held::Procedure { record, bindings } => Record {
                kind: PROCEDURE_TERM,
                p: record,
                q: bindings,
                ..empty
            },
            Held::Nothing => empty,
        }
    }
}

// What an input is bound to.
#[tactic(auto, using(notation::proofs::Follow::values), unfolding(semantics::specs::Run::input_value))]
fn input_value(x: Input, n: Word) -> Held
    ensures value { shown result ≡ input_value x n }
    ensures plain { link_of result ≡ 0 }
{
    match x.kind {
        CONSTANT_TRUTH => Held::Truth(x.value == 1),
        CONSTANT_WORD => Held::Word(x.value),
        FREE_TRUTH => Held::Truth(n == 1),
        _ => Held::Word(n),
    }
}

// A datum: a word, or a truth.
#[tactic(auto, using(notation::proofs::Follow::values), unfolding(semantics::specs::Run::datum_value))]
fn datum(x: Record) -> Held
    ensures value { shown result ≡ datum_value x.op (datum_word x) }
    ensures plain { link_of result ≡ 0 }
{
    if x.op == WORD_DATUM {
        Held::Word(fields::datum_word(x))
    } else {
        Held::Truth(x.op == TRUE_DATUM)
    }
}

// An operator of values: on what is no word the codes 1 to 12 are an error.
fn operator(op: u8, x: Held, y: Held) -> Result<Held, Stop>
    ensures end { (taken : ℕ) → stored_by shown result taken ≡ ended (operator_run op (shown x) (shown y)) taken }
    ensures plain { IfOk result (λ v. link_of v ≡ 0) }
{
    if op < NOT_CODE {
        let Held::Word(a) = x else {
            return Err(Stop::Error);
        };
        return match y {
            Held::Word(b) => Ok(operation(op, a, b)),
            _ if operators::operands(op) == 1 => Ok(operation(op, a, 0)),
            _ => Err(Stop::Error),
        };
    }
    Ok(Held::Truth(match op {
        NOT_CODE => x.is_false(),
        IS_WORD_CODE => x.is_word(),
        _ => x.is_procedure(),
    }))
}

// What a code from 1 to 12 gives on words.
#[tactic(auto, using(notation::proofs::Follow::values), unfolding(semantics::specs::Run::operation_value))]
fn operation(op: u8, x: Word, y: Word) -> Held
    ensures value { shown result ≡ operation_value op x y }
    ensures plain { link_of result ≡ 0 }
{
    let n = operators::operate(op, x, y);
    if operators::gives_truth(op) {
        Held::Truth(n == 1)
    } else {
        Held::Word(n)
    }
}

// What a run answers. A rule that passed the tests gives a value, and no operation answers the number of none.
#[tactic(auto, unfolding(semantics::specs::PlainRun::stored_outcome, semantics::specs::PlainRun::ended_outcome, semantics::specs::PlainRun::value_given))]
fn outcome(end: Result<Held, Stop>) -> Outcome
    ensures { (taken : ℕ) → result ≡ stored_outcome (stored_by shown end taken) }
{
    match end {
        Ok(Held::Truth(b)) => Outcome::Truth(b),
        Ok(Held::Word(w)) => Outcome::Word(w),
        // A cast, since how wide a word is stands in `words` alone.
        Ok(Held::Procedure { record, .. }) => Outcome::Procedure(record as Word),
        Ok(Held::Nothing) => Outcome::Refused(Refusal::NoValue.number()),
        Err(Stop::Abort) => Outcome::Abort,
        Err(Stop::Error) => Outcome::Error,
        Err(Stop::DepthSpent) => Outcome::Refused(Refusal::DepthSpent.number()),
        Err(Stop::StoreFull) => Outcome::Refused(Refusal::StoreFull.number()),
    }
}

// A chain that place n names: a higher one is taken for the empty one, so that every chain ends.
#[tactic(auto, using(notation::proofs::Follow::values), unfolding(crate::specs::Store::lower_of))]
fn lower(n: u16, e: u16) -> u16
    ensures { result ≡ lower_of n e }
{
    if n < e { 0 } else { e }
}

// How many places a store of so many bytes has.
fn places(bytes: usize) -> u16
    ensures { result ≡ places_in bytes }
{
    (bytes / 8).min(usize::from(PLACE_LIMIT)) as u16
}
