// The numbers of documents 01 and 02 by name: kinds, codes, refusals and limits, as in specs/Numbers.antt.

// "Rule records": the kinds of a record.
pub const DATUM_RECORD: u8 = 1;

pub const VARIABLE_RECORD: u8 = 2;

pub const PROCEDURE_RECORD: u8 = 3;

pub const CALL_RECORD: u8 = 4;

pub const OPERATOR_RECORD: u8 = 5;

pub const LET_RECORD: u8 = 6;

pub const IF_RECORD: u8 = 7;

pub const ABORT_RECORD: u8 = 8;

pub const ERROR_RECORD: u8 = 9;

// The ops of a datum: false, true, the word p.
pub const FALSE_DATUM: u8 = 0;

pub const TRUE_DATUM: u8 = 1;

pub const WORD_DATUM: u8 = 2;

// "Operators": the codes whose spans are worked out.
pub const ADD_CODE: u8 = 1;

pub const SUBTRACT_CODE: u8 = 2;

pub const LESS_CODE: u8 = 11;

// The codes that 0 absorbs.
pub const MULTIPLY_CODE: u8 = 3;

pub const BITWISE_AND_CODE: u8 = 4;

// The codes whose gates are few where the second operand is a constant.
pub const LEFT_CODE: u8 = 7;

pub const RIGHT_CODE: u8 = 8;

// The codes that a search for a witness knows more of than their spans say.
pub const ONES_CODE: u8 = 9;

pub const ZEROS_CODE: u8 = 10;

pub const EQUAL_CODE: u8 = 12;

// The codes that need no words.
// True only for false.
pub const NOT_CODE: u8 = 13;

pub const IS_WORD_CODE: u8 = 14;

pub const IS_PROCEDURE_CODE: u8 = 15;

// "Terms": the kinds of a term.
pub const TRUTH_TERM: u8 = 1;

pub const WORD_TERM: u8 = 2;

pub const FREE_TRUTH_TERM: u8 = 3;

pub const FREE_WORD_TERM: u8 = 4;

pub const OPERATOR_TERM: u8 = 5;

pub const CHOICE_TERM: u8 = 6;

pub const PROCEDURE_TERM: u8 = 7;

pub const BINDING_TERM: u8 = 8;

// "Further operator codes: 32 not, 33 and, 34 or, 35 truth".
pub const NEGATION_CODE: u8 = 32;

pub const CONJUNCTION_CODE: u8 = 33;

pub const DISJUNCTION_CODE: u8 = 34;

pub const TRUTH_CODE: u8 = 35;

// "Opening": the kinds of an input.
pub const CONSTANT_TRUTH: u8 = 0;

pub const CONSTANT_WORD: u8 = 1;

pub const FREE_TRUTH: u8 = 2;

pub const FREE_WORD: u8 = 3;

// The terms false and true, which opening makes first.
pub const FALSE_NUMBER: u16 = 0;

pub const TRUE_NUMBER: u16 = 1;

// What is known of a term: it is the constant false, the constant true, or anything else.
pub const KNOWN_FALSE: u8 = 0;

pub const KNOWN_TRUE: u8 = 1;

pub const UNKNOWN: u8 = 2;

// The end of a chain of bindings.
pub const NO_BINDING: u16 = 65535;

// "Operations and what stops them": the refusals.
// Table bytes not a multiple of 8, below 272 or above 65,536.
pub const TABLE_SIZE: u8 = 1;
// An input kind or value other than those of opening.
pub const BAD_INPUT: u8 = 2;
// The session and table do not fit.
pub const MISFIT: u8 = 3;
// Rule bytes none, above 32,768 or not a multiple of 8.
pub const RULE_SIZE: u8 = 4;
// A kind, op or unused field.
pub const BAD_RECORD: u8 = 5;
// The tree, or a child past the last record.
pub const BAD_TREE: u8 = 6;
// A place out of scope.
pub const BAD_PLACE: u8 = 7;
// An allowance outside 1 to 256.
pub const BAD_ALLOWANCE: u8 = 8;
// 1,000 rules already accepted.
pub const RULES_SPENT: u8 = 9;
// A 65th leaf in one call's walk.
pub const CALL_TOO_WIDE: u8 = 10;
// A new term with the table full.
pub const TABLE_FULL: u8 = 11;
// Depth zero.
pub const DEPTH_SPENT: u8 = 12;
// A free truth given a number over 1.
pub const BAD_NUMBER: u8 = 13;
// The result's S or T is no truth below the count, or its value a binding or not below it.
pub const BAD_RESULT: u8 = 14;
// A work list, or a list of reports, shorter than the count.
pub const WORK_SHORT: u8 = 15;
// The store is full.
pub const STORE_FULL: u8 = 16;
// A free word's low exceeds its high.
pub const BAD_SPAN: u8 = 17;
// The text is longer than the lent buffer.
pub const TEXT_LONG: u8 = 18;
// More than 24 free bits.
pub const TOO_MANY_BITS: u8 = 19;
// What no operation answers: a run that would end with what is no value.
pub const NO_VALUE: u8 = 254;

// Limits.
pub const INPUT_COUNT: u16 = 16;
// The free bits of a session in which a witness is looked for.
pub const BIT_LIMIT: u16 = 24;
// The records of a rule.
pub const RECORD_LIMIT: u16 = 4096;
// The terms of a table.
pub const TERM_LIMIT: u16 = 8192;
// The leaves of one call's walk.
pub const LEAF_LIMIT: usize = 64;
// The depth of a rule.
pub const ALLOWANCE_LIMIT: u16 = 256;
// The rules accepted in a session.
pub const RULE_LIMIT: u16 = 1000;
// The bytes of a rule.
pub const RULE_BYTES: usize = 32768;
// The bytes of a table.
pub const LEAST_TABLE: usize = 272;

pub const MOST_TABLE: usize = 65536;
// The places of a store.
pub const PLACE_LIMIT: u16 = 8192;
