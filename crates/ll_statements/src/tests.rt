ghost use Rattle.std.specs.Prelude.{◌≢◌, All, IsTrue};

use ll_core::{Derivation, END_OF_TEXT, Grammar, GrammarStop, ParseStop, Production, Row, parse};
use std::alloc::{AllocError, Global};
use std::process::Abort;
use std::test::Fail;

macro_rules! productions {
    ($($left:literal $nests:literal $length:literal: $($right:literal)*);* $(;)?) => {
        [$(Production { left: $left, nests: $nests, right: [$($right),*], length: $length }),*]
    };
}

macro_rules! rows {
    ($($left:literal $token:literal $production:literal);* $(;)?) => {
        [$(Row { left: $left, token: $token, production: $production }),*]
    };
}

/// 10 is a text of some 1, perhaps a 2, and a 3. Each 1 nests.
const EMPTY_PRODUCTIONS: [Production; 5] = productions![
    10 false 3: 11 12 3 0 0 0 0 0 0 0 0 0;
    11 true 2: 1 11 0 0 0 0 0 0 0 0 0 0;
    11 false 0: 0 0 0 0 0 0 0 0 0 0 0 0;
    12 false 1: 2 0 0 0 0 0 0 0 0 0 0 0;
    12 false 0: 0 0 0 0 0 0 0 0 0 0 0 0;
];

const EMPTY_ROWS: [Row; 8] = rows![
    12 3 4; 12 2 3; 11 3 2; 11 2 2; 11 1 1; 10 3 0; 10 2 0; 10 1 0;
];

/// 10 is a 3 in brackets 1 and 2, which nest.
const BRACKETS: [Production; 2] = productions![
    10 true 3: 1 10 2 0 0 0 0 0 0 0 0 0;
    10 false 1: 3 0 0 0 0 0 0 0 0 0 0 0;
];

const BRACKETS_ROWS: [Row; 2] = rows![10 1 0; 10 3 1];

fn empty_productions(alloc: Global) -> Result<Grammar<5, 8>, Fail> {
    Ok(Grammar::new(alloc, EMPTY_PRODUCTIONS, EMPTY_ROWS)?.ok_or("no grammar")?)
}

fn brackets(alloc: Global) -> Result<Grammar<2, 2>, Fail> {
    Ok(Grammar::new(alloc, BRACKETS, BRACKETS_ROWS)?.ok_or("no grammar")?)
}

/// What tools/derivations.py answers for the lists of up to five tokens of these grammars.
#[rattlefmt::skip]
fn empty_answers() -> &'static str {
    "@0 @1 @1 =024 @2 @1 @1 @2 @1 @1 =0124 =023 @1 @3 @1 @1 @2 @1 @1 @2 @2 @1 @3 @1 @1 @2 @1 \
    @1 @2 @2 @1 =01124 @1 @1 =0123 @1 @1 @2 @2 @1 @4 @1 @1 @2 @1 @1 @2 @2 @1 @3 @1 @1 @2 @1 \
    @1 @2 @2 @1 @3 @1 @1 @3 @1 @1 @2 @2 @1 @4 @1 @1 @2 @1 @1 @2 @2 @1 @3 @1 @1 @2 @1 @1 @2 \
    @2 @1 @3 @1 @1 @3 @1 @1 @2 @2 @1 =011124 @1 @1 @2 @1 @1 @2 @2 @1 =01123 @1 @1 @2 @1 @1 \
    @2 @2 @1 @3 @1 @1 @3 @1 @1 @2 @2 @1 @5 @1 @1 @2 @1 @1 @2 @2 @1 @3 @1 @1 @2 @1 @1 @2 @2 \
    @1 @3 @1 @1 @3 @1 @1 @2 @2 @1 @4 @1 @1 @2 @1 @1 @2 @2 @1 @3 @1 @1 @2 @1 @1 @2 @2 @1 @3 \
    @1 @1 @3 @1 @1 @2 @2 @1 @4 @1 @1 @2 @1 @1 @2 @2 @1 @4 @1 @1 @2 @1 @1 @2 @2 @1 @3 @1 @1 \
    @3 @1 @1 @2 @2 @1 @5 @1 @1 @2 @1 @1 @2 @2 @1 @3 @1 @1 @2 @1 @1 @2 @2 @1 @3 @1 @1 @3 @1 \
    @1 @2 @2 @1 @4 @1 @1 @2 @1 @1 @2 @2 @1 @3 @1 @1 @2 @1 @1 @2 @2 @1 @3 @1 @1 @3 @1 @1 @2 \
    @2 @1 @4 @1 @1 @2 @1 @1 @2 @2 @1 @4 @1 @1 @2 @1 @1 @2 @2 @1 @3 @1 @1 @3 @1 @1 @2 @2 @1 \
    =0111124 @1 @1 @2 @1 @1 @2 @2 @1 @3 @1 @1 @2 @1 @1 @2 @2 @1 @3 @1 @1 @3 @1 @1 @2 @2 @1 \
    =011123 @1 @1 @2 @1 @1 @2 @2 @1 @3 @1 @1 @2 @1 @1 @2 @2 @1 @3 @1 @1 @3 @1 @1 @2 @2 @1 @4 \
    @1 @1 @2 @1 @1 @2 @2 @1 @4 @1 @1 @2 @1 @1 @2 @2 @1 @3 @1 @1 @3 @1 @1 @2 @2 @1"
}

#[rattlefmt::skip]
fn brackets_answers() -> &'static str {
    "@0 @1 @0 =1 @2 @0 @1 @1 @0 @1 @2 @0 @1 @3 @0 @1 @1 @0 @1 @2 @0 @1 @2 @0 @1 @1 @0 @1 =01 \
    @0 @1 @3 @0 @1 @1 @0 @1 @2 @0 @1 @4 @0 @1 @1 @0 @1 @2 @0 @1 @2 @0 @1 @1 @0 @1 @3 @0 @1 \
    @3 @0 @1 @1 @0 @1 @2 @0 @1 @3 @0 @1 @1 @0 @1 @2 @0 @1 @2 @0 @1 @1 @0 @1 @3 @0 @1 @4 @0 \
    @1 @1 @0 @1 @2 @0 @1 @4 @0 @1 @1 @0 @1 @2 @0 @1 @2 @0 @1 @1 @0 @1 @3 @0 @1 @3 @0 @1 @1 \
    @0 @1 @2 @0 @1 @5 @0 @1 @1 @0 @1 @2 @0 @1 @2 @0 @1 @1 @0 @1 @3 @0 @1 @3 @0 @1 @1 @0 @1 \
    @2 @0 @1 @3 @0 @1 @1 @0 @1 @2 @0 @1 @2 @0 @1 @1 @0 @1 @3 @0 @1 @4 @0 @1 @1 @0 @1 @2 @0 \
    @1 @4 @0 @1 @1 @0 @1 @2 @0 @1 @2 @0 @1 @1 @0 @1 @3 @0 @1 @3 @0 @1 @1 @0 @1 @2 @0 @1 @4 \
    @0 @1 @1 @0 @1 @2 @0 @1 @2 @0 @1 @1 @0 @1 @3 @0 @1 @3 @0 @1 @1 @0 @1 @2 @0 @1 @3 @0 @1 \
    @1 @0 @1 @2 @0 @1 @2 @0 @1 @1 @0 @1 @3 @0 @1 =001 @0 @1 @1 @0 @1 @2 @0 @1 @5 @0 @1 @1 @0 \
    @1 @2 @0 @1 @2 @0 @1 @1 @0 @1 @3 @0 @1 @3 @0 @1 @1 @0 @1 @2 @0 @1 @5 @0 @1 @1 @0 @1 @2 \
    @0 @1 @2 @0 @1 @1 @0 @1 @3 @0 @1 @3 @0 @1 @1 @0 @1 @2 @0 @1 @3 @0 @1 @1 @0 @1 @2 @0 @1 \
    @2 @0 @1 @1 @0 @1 @3 @0 @1 @4 @0 @1 @1 @0 @1 @2 @0 @1 @4 @0 @1 @1 @0 @1 @2 @0 @1 @2 @0 \
    @1 @1 @0 @1 @3 @0 @1 @3 @0 @1 @1 @0 @1 @2 @0 @1"
}

/// The list of tokens 1, 2 and 3 with this number. The lists are counted by length, and among
/// those of one length the first token changes fastest.
fn list_of(alloc: Global, number: usize) -> Result<Vec<u16>, AllocError> {
    let alphabet = [1, 2, 3];
    let mut tokens = Vec::new(alloc);
    let mut rest = number;
    while rest > 0 {
        tokens.push(alphabet[(rest - 1) % 3])?;
        rest = (rest - 1) / 3;
    }
    Ok(tokens)
}

fn are_tokens(tokens: &[u16]) -> bool
    ensures { IsTrue result → All (λ token. token ≢ END_OF_TEXT) tokens.now }
{
    tokens.iter().all(|token| *token != END_OF_TEXT)
}

fn answer_text(
    alloc: Global,
    answer: &Result<Derivation, ParseStop>,
) -> Result<String, AllocError> {
    match answer {
        Ok(derivation) => {
            let mut text = format!(in alloc; "=")?;
            for number in derivation.productions() {
                text.push_str(format!(in alloc; "{number}")?.as_str())?;
            }
            Ok(text)
        }
        Err(ParseStop::At(k)) => format!(in alloc; "@{k}"),
        Err(ParseStop::Deep(k)) => format!(in alloc; "^{k}"),
        Err(ParseStop::Memory) => format!(in alloc; "memory"),
    }
}

#[test]
fn statements_have_their_grammar(rt: HostRuntime) {
    assert!(rt; crate::statements(rt.alloc()).is_ok());
}

/// What the grammar answers for the list with this number.
fn short_answer<const P: usize, const S: usize>(
    rt: &impl Abort,
    alloc: Global,
    grammar: &Grammar<P, S>,
    number: usize,
) -> Result<String, AllocError> {
    let tokens = list_of(alloc, number)?;
    assert!(rt; are_tokens(&tokens));
    let answer = parse(alloc, grammar, &tokens);
    answer_text(alloc, &answer)
}

#[test]
fn answers_as_the_derivations_with_empty_productions_say(rt: HostRuntime) -> Result<(), Fail> {
    let alloc = rt.alloc();
    let grammar = empty_productions(alloc)?;
    for (number, want) in empty_answers().split(' ').enumerate() {
        assert_eq!(rt; short_answer(&rt, alloc, &grammar, number)?.as_str(), want);
    }
    Ok(())
}

#[test]
fn answers_as_the_derivations_in_brackets_say(rt: HostRuntime) -> Result<(), Fail> {
    let alloc = rt.alloc();
    let grammar = brackets(alloc)?;
    for (number, want) in brackets_answers().split(' ').enumerate() {
        assert_eq!(rt; short_answer(&rt, alloc, &grammar, number)?.as_str(), want);
    }
    Ok(())
}

/// So many opening brackets, a token, and so many closing ones.
fn nested(alloc: Global, open: usize, inner: u16, close: usize) -> Result<Vec<u16>, AllocError> {
    let mut tokens = Vec::new(alloc);
    for _ in 0..open {
        tokens.push(1)?;
    }
    tokens.push(inner)?;
    for _ in 0..close {
        tokens.push(2)?;
    }
    Ok(tokens)
}

/// What brackets of this shape are answered.
fn nested_answer(
    rt: &impl Abort,
    alloc: Global,
    open: usize,
    inner: u16,
    close: usize,
) -> Result<String, Fail> {
    let grammar = brackets(alloc)?;
    let tokens = nested(alloc, open, inner, close)?;
    assert!(rt; are_tokens(&tokens));
    let answer = parse(alloc, &grammar, &tokens);
    Ok(answer_text(alloc, &answer)?)
}

#[test]
fn nests_to_the_limit_and_no_deeper(rt: HostRuntime) -> Result<(), Fail> {
    let alloc = rt.alloc();
    assert_eq!(rt; nested_answer(&rt, alloc, 64, 3, 64)?.len(), 66);
    assert_eq!(rt; nested_answer(&rt, alloc, 64, 3, 63)?.as_str(), "@128");
    assert_eq!(rt; nested_answer(&rt, alloc, 64, 3, 65)?.as_str(), "@129");
    assert_eq!(rt; nested_answer(&rt, alloc, 65, 3, 65)?.as_str(), "^64");
    assert_eq!(rt; nested_answer(&rt, alloc, 65, 2, 0)?.as_str(), "^64");
    assert_eq!(rt; nested_answer(&rt, alloc, 64, 2, 0)?.as_str(), "@64");
    assert_eq!(rt; nested_answer(&rt, alloc, 64, 1, 0)?.as_str(), "^64");
    Ok(())
}

// A row is missing, wrong, twice there, or one too many.
const MISSING_ROW: [Row; 1] = rows![10 1 0];

const WRONG_ROW: [Row; 2] = rows![10 1 0; 10 3 0];

const DOUBLE_ROW: [Row; 3] = rows![10 1 0; 10 3 1; 10 1 0];

const ROW_TOO_MANY: [Row; 3] = rows![10 1 0; 10 3 1; 10 65535 1];

// Two productions begin with the same token.
const AMBIGUOUS: [Production; 2] = productions![
    10 false 2: 1 10 0 0 0 0 0 0 0 0 0 0;
    10 false 1: 1 0 0 0 0 0 0 0 0 0 0 0;
];

const AMBIGUOUS_ROWS: [Row; 2] = rows![10 1 0; 10 1 1];

// The end of the text follows an empty start.
const NOTHING: [Production; 1] = productions![10 false 0: 0 0 0 0 0 0 0 0 0 0 0 0];

const NOTHING_ROWS: [Row; 1] = rows![10 65535 0];

// The left side has no sentence.
const ENDLESS: [Production; 1] = productions![10 false 2: 1 10 0 0 0 0 0 0 0 0 0 0];

// Twelve symbols are taken, and thirteen are not.
const TWELVE: [Production; 1] = productions![10 false 12: 1 1 1 1 1 1 1 1 1 1 1 1];

const THIRTEEN: [Production; 1] = productions![10 false 13: 1 1 1 1 1 1 1 1 1 1 1 1];

// The end of the text is no symbol.
const END_INSIDE: [Production; 1] = productions![10 false 1: 65535 0 0 0 0 0 0 0 0 0 0 0];

/// Whether so many rows make a grammar of so many productions.
fn is_grammar_1_1(
    alloc: Global,
    productions: [Production; 1],
    rows: [Row; 1],
) -> Result<bool, GrammarStop> {
    Ok(Grammar::new(alloc, productions, rows)?.is_some())
}

fn is_grammar_2_1(
    alloc: Global,
    productions: [Production; 2],
    rows: [Row; 1],
) -> Result<bool, GrammarStop> {
    Ok(Grammar::new(alloc, productions, rows)?.is_some())
}

fn is_grammar_2_2(
    alloc: Global,
    productions: [Production; 2],
    rows: [Row; 2],
) -> Result<bool, GrammarStop> {
    Ok(Grammar::new(alloc, productions, rows)?.is_some())
}

fn is_grammar_2_3(
    alloc: Global,
    productions: [Production; 2],
    rows: [Row; 3],
) -> Result<bool, GrammarStop> {
    Ok(Grammar::new(alloc, productions, rows)?.is_some())
}

#[test]
fn takes_all_prediction_rows_of_an_admissible_grammar_and_no_others(
    rt: HostRuntime,
) -> Result<(), Fail> {
    let alloc = rt.alloc();
    assert!(rt; is_grammar_2_2(alloc, BRACKETS, BRACKETS_ROWS)?);
    assert!(rt; !is_grammar_2_1(alloc, BRACKETS, MISSING_ROW)?);
    assert!(rt; !is_grammar_2_2(alloc, BRACKETS, WRONG_ROW)?);
    assert!(rt; !is_grammar_2_3(alloc, BRACKETS, DOUBLE_ROW)?);
    assert!(rt; !is_grammar_2_3(alloc, BRACKETS, ROW_TOO_MANY)?);
    assert!(rt; !is_grammar_2_2(alloc, AMBIGUOUS, AMBIGUOUS_ROWS)?);
    Ok(())
}

#[test]
fn refuses_productions_out_of_form(rt: HostRuntime) -> Result<(), Fail> {
    let alloc = rt.alloc();
    assert!(rt; is_grammar_1_1(alloc, NOTHING, NOTHING_ROWS)?);
    assert!(rt; !is_grammar_1_1(alloc, ENDLESS, MISSING_ROW)?);
    assert!(rt; is_grammar_1_1(alloc, TWELVE, MISSING_ROW)?);
    assert!(rt; !is_grammar_1_1(alloc, THIRTEEN, MISSING_ROW)?);
    assert!(rt; !is_grammar_1_1(alloc, END_INSIDE, NOTHING_ROWS)?);
    Ok(())
}
