//! All lines of an input, read as the steps that they spell.
//!
//! Source: ours.

ghost use Rattle.std.specs.Prelude.{◌≡◌, ◌≢◌, ◌∷◌, ◌≤◌, ◌<◌, ◌↔◌, ℕ, List, [], length, decimal, IfOk, OnOk, MatchResult, Some, Err};
ghost use Rattle.strm_machine.specs.declared.steps.Step.{Step};
ghost use Rattle.strm_lines.specs.Grammar.{IsU32};
ghost use Rattle.strm_lines.specs.Lines.{lines_of, feeds, Spells, IsFirstBadLine, IsTooLong};
ghost use Rattle.strm_lines.specs.declared.parsing.ParseError.TheVariants.{OutOfMemory as NoMemory};

use crate::lines::keep_line;
use crate::lists::Steps;
use crate::one_by_one::TakesSteps;
use crate::words::{cut, number};
use std::alloc::Global;
use strm_codes::counts::OutOfMemory;
use thiserror::Error;

/// The most bytes of an input.
pub const MAX_BYTES: usize = 16_777_216;

/// The most lines of an input.
pub const MAX_LINES: usize = 262_144;

/// Why an input was not read.
#[derive(Clone, Copy, Debug, PartialEq, Eq, Error)]
pub enum ParseError {
    /// It has more than `MAX_BYTES` bytes, or more than `MAX_LINES` lines.
    #[error("too long")]
    TooLong,
    /// The first line that is not in the grammar, counted from 1.
    #[error("bad line {line}")]
    BadLine { line: u32 },
    /// An allocation was refused.
    #[error("out of memory")]
    OutOfMemory,
}

impl From<OutOfMemory> for ParseError {
    ghost from_gives = { λ _ e. e ≡ NoMemory };

    fn from(_error: OutOfMemory) -> ParseError {
        ParseError::OutOfMemory
    }
}

/// The steps that the lines of an input spell. A line is ended by a line feed, which the last one
/// may lack.
pub fn parse(alloc: Global, bytes: &[u8]) -> Result<Steps, ParseError>
    ensures ok { IfOk result (λ steps. Spells (lines_of bytes.now) steps) }
    ensures too_long { (result ≡ Err ParseError.TooLong) ↔ IsTooLong bytes.now }
    ensures bad_line { (line : ℕ) → result ≡ Err (ParseError.BadLine line) →
        IsFirstBadLine (lines_of bytes.now) line }

    // What the grammar and the limits allow is read, but for running out of memory.
    ensures complete { (steps : List Step) → Spells (lines_of bytes.now) steps →
        ¬ IsTooLong bytes.now →
        MatchResult result (λ found. found ≡ steps) (λ error. error ≡ ParseError.OutOfMemory) }
{
    let mut steps = Vec::new(alloc);
    match parse_onto(&mut steps, bytes) {
        Ok(()) => Ok(Steps::from_vec(steps)),
        Err(error) => Err(error),
    }
}

/// The same, taken by what has taken no steps yet: those of the lines before, where one is bad.
pub fn parse_onto<L: TakesSteps>(steps: &mut L, bytes: &[u8]) -> Result<(), ParseError>
    requires none { L.steps steps.old ≡ [] }
    ensures ok { OnOk result (Spells (lines_of bytes.now) (L.steps steps.new)) }
    ensures too_long { (result ≡ Err ParseError.TooLong) ↔ IsTooLong bytes.now }
    ensures bad_line { (line : ℕ) → result ≡ Err (ParseError.BadLine line) →
        IsFirstBadLine (lines_of bytes.now) line }
{
    if bytes.len() > MAX_BYTES {
        return Err(ParseError::TooLong);
    }
    let lines = count_lines(bytes);
    if lines > MAX_LINES {
        return Err(ParseError::TooLong);
    }
    parse_lines(steps, bytes, lines)
}

/// The number that a word spells as it would in a line: in decimal, below 2^32 and without leading zeros.
pub fn number_of(word: &[u8]) -> Option<u32>
    ensures { (n : ℕ) → (result ≡ Some n) ↔ (IsU32 n × (word.now ≡ decimal n)) }
{
    number(word)
}

// The number of lines.
fn count_lines(bytes: &[u8]) -> usize
    ensures { result ≡ length (lines_of bytes.now) }
{
    let feeds = count_feeds(bytes);
    if bytes.is_empty() {
        return feeds;
    }
    if bytes[bytes.len() - 1] == b'\n' {
        feeds
    } else {
        feeds + 1
    }
}

// The most bytes whose line feeds a byte can count, in whole vectors of 32.
const FEW: usize = 224;

// The number of line feeds.
fn count_feeds(bytes: &[u8]) -> usize
    ensures exact { result ≡ feeds bytes.now }
    ensures most { result ≤ length bytes.now }
{
    let mut count = 0;
    let mut rest = bytes;
    while rest.len() > FEW {
        let (few, after) = rest.split_at(FEW);
        count += count_few_feeds(few) as usize;
        rest = after;
    }
    count + count_few_feeds(rest) as usize
}

// The number of line feeds among a few bytes.
fn count_few_feeds(bytes: &[u8]) -> u8
    requires few { length bytes.now ≤ 224 }
    ensures exact { result ≡ feeds bytes.now }
    ensures most { result ≤ length bytes.now }
{
    let mut count = 0u8;
    for byte in bytes {
        if *byte == b'\n' {
            count += 1;
        }
    }
    count
}

// The steps of an input of so many lines.
fn parse_lines<L: TakesSteps>(steps: &mut L, bytes: &[u8], lines: usize) -> Result<(), ParseError>
    requires none { L.steps steps.old ≡ [] }
    requires few { length (lines_of bytes.now) ≤ 262144 }
    ensures ok { OnOk result (Spells (lines_of bytes.now) (L.steps steps.new)) }
    ensures within { result ≢ Err ParseError.TooLong }
    ensures bad_line { (line : ℕ) → result ≡ Err (ParseError.BadLine line) →
        IsFirstBadLine (lines_of bytes.now) line }
{
    steps.reserve(lines)?;
    let mut rest = bytes;
    let mut line = 1;
    while !rest.is_empty() {
        let (first, after) = first_line(rest);
        steps.make_room()?;
        if !keep_line(steps, first) {
            return Err(ParseError::BadLine { line });
        }
        line += 1;
        rest = after;
    }
    Ok(())
}

/// The first line, and what follows its line feed.
#[inline(always)]
pub fn first_line(bytes: &[u8]) -> (&[u8], &[u8])
    requires { 0 < length bytes.now }
    ensures lines { lines_of bytes.now ≡ result.0.now ∷ lines_of result.1.now }
    ensures less { length result.1.now < length bytes.now }
{
    match cut(b'\n', bytes) {
        Some(parts) => parts,
        None => bytes.split_at(bytes.len()),
    }
}

/// An input has one reading: its lines spell one list of steps at most, lines that do have no bad
/// line, and there is one first bad line at most.
pub fn one_reading()
    ensures steps { (lines : List (List ℕ)) (steps others : List Step) →
        Spells lines steps → Spells lines others → steps ≡ others }
    ensures apart { (lines : List (List ℕ)) (steps : List Step) (line : ℕ) →
        Spells lines steps → ¬ IsFirstBadLine lines line }
    ensures bad_line { (lines : List (List ℕ)) (line other : ℕ) →
        IsFirstBadLine lines line → IsFirstBadLine lines other → line ≡ other }
{}
