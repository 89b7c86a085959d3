// Why an operation refuses.
ghost use Rattle.std.specs.Prelude.{◌≡◌};
ghost use Rattle.semantics.specs.Refusals.{number_of, answer_number};

// Documents 01 and 02, "Operations and what stops them", by their numbers.
#[derive(Clone, Copy, Debug, PartialEq, Eq, Hash)]
pub enum Refusal {
    // Table bytes not a multiple of 8, below 272 or above 65,536.
    TableSize = 1,
    // An input kind or value other than those of opening.
    BadInput = 2,
    // The session and table do not fit.
    Misfit = 3,
    // Rule bytes none, above 32,768 or not a multiple of 8.
    RuleSize = 4,
    // A kind, op or unused field.
    BadRecord = 5,
    // The tree, or a child past the last record.
    BadTree = 6,
    // A place out of scope.
    BadPlace = 7,
    // An allowance outside 1 to 256.
    BadAllowance = 8,
    // 1,000 rules already accepted.
    RulesSpent = 9,
    // A 65th leaf in one call's walk.
    CallTooWide = 10,
    // A new term with the table full.
    TableFull = 11,
    // Depth zero.
    DepthSpent = 12,
    // A free truth given a number over 1.
    BadNumber = 13,
    // The result's S or T is no truth below the count, or its value a binding or not below it.
    BadResult = 14,
    // A work list, or a list of reports, shorter than the count.
    WorkShort = 15,
    // The store is full.
    StoreFull = 16,
    // A free word's low exceeds its high.
    BadSpan = 17,
    // The text is longer than the lent buffer.
    TextLong = 18,
    // More than 24 free bits.
    TooManyBits = 19,
    // What no operation answers: a run that would end with what is no value.
    NoValue = 254,
    // A form of another length than its own.
    WrongLength = 255,
}

impl Refusal {
    // Its number.
    pub fn number(self) -> u8
        ensures { result ≡ number_of self }
    {
        self as u8
    }
}

// What an operation answers in other languages: 0, or the number of a refusal.
pub fn answer_number(answer: Result<(), Refusal>) -> u8
    ensures { result ≡ answer_number answer }
{
    match answer {
        Ok(()) => 0,
        Err(refusal) => refusal.number(),
    }
}
