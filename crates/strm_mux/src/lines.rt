//! The lines of an input, put on the lanes of a mux.
//!
//! Meaning: `Lines.antt`. Ours.

ghost use Rattle.std.specs.Prelude.{◌≡◌, ◌≢◌, ◌≤◌, ℕ, List, length, IfOk, OnOk, Err};
ghost use Rattle.std.specs.Option.{option_map};
ghost use Rattle.strm_lines.specs.Lines.{lines_of};
ghost use Rattle.strm_lines.specs.Reading.{followed_by, hex};
ghost use Rattle.strm_frames.specs.Frames.{Frame};
ghost use Rattle.strm_mux.specs.Lines.{Puts, IsFirstBadLaneLine};
ghost use Rattle.strm_mux.specs.LineReading.{frame_of, lane_read, line_read, TakesLine, IsRefused, HoldsLines};

use std::alloc::Global;
use strm_frames::errors::MuxError;
use strm_frames::muxes::Mux;
use strm_lines::parsing::first_line;
use strm_lines::words::{behind, cut, hex, number_within};
use strm_machine::chunks::Chunk;

// Why lines were not put on lanes.
#[derive(Clone, Copy)]
pub(crate) enum LinesError {
    // The first line that is not in the grammar, or names a lane that ended, counted from 1.
    BadLine { line: u32 },
    // An allocation was refused.
    OutOfMemory,
}

// What a line says: bytes of a lane, or its end.
#[derive(Clone, Copy)]
enum Line {
    Lane(u8, Chunk),
    End(u8),
}

// Why one line was not put.
#[derive(Clone, Copy)]
enum Refused {
    Bad,
    OutOfMemory,
}

// A mux that was given what the lines of an input put, in order.
pub(crate) fn mux_of(alloc: Global, bytes: &[u8]) -> Result<Mux, LinesError>
    requires { length bytes.now ≤ 262144 }
    ensures ok { IfOk result (λ mux. HoldsLines mux (lines_of bytes.now)) }
    ensures bad_line { (line : ℕ) → result ≡ Err (LinesError.BadLine line) →
        IsFirstBadLaneLine (lines_of bytes.now) line }
{
    let mut mux = Mux::new(alloc);
    let mut rest = bytes;
    let mut count = 0u32;
    while !rest.is_empty() {
        let (line, after) = first_line(rest);
        count += 1;
        match put_line(&mut mux, line) {
            Ok(()) => {}
            Err(Refused::Bad) => return Err(LinesError::BadLine { line: count }),
            Err(Refused::OutOfMemory) => return Err(LinesError::OutOfMemory),
        }
        rest = after;
    }
    Ok(mux)
}

// Puts what a line says.
fn put_line(mux: &mut Mux, line: &[u8]) -> Result<(), Refused>
    ensures ok { OnOk result (TakesLine mux.old mux.new line.now) }
    ensures bad { result ≡ Err Refused.Bad → IsRefused mux.old line.now }
{
    let Some(line) = read_line(line) else {
        return Err(Refused::Bad);
    };
    let put = match line {
        Line::Lane(lane, bytes) => mux.put(lane, bytes.as_slice()),
        Line::End(lane) => mux.end(lane),
    };
    match put {
        Ok(()) => Ok(()),
        Err(MuxError::OutOfMemory) => Err(Refused::OutOfMemory),
        Err(_) => Err(Refused::Bad),
    }
}

// What a line says, if it is in the grammar.
#[tactic(auto, unfolding(crate::specs::LineReading::line_read))]
fn read_line(line: &[u8]) -> Option<Line>
    ensures { option_map frame_of result ≡ line_read line.now }
{
    if let Some(rest) = behind(line, b"lane ") {
        let (lane, bytes) = lane_and_bytes(rest)?;
        return Some(Line::Lane(lane, bytes));
    }
    let rest = behind(line, b"end ")?;
    let lane = lane_number(rest)?;
    Some(Line::End(lane))
}

// A lane and its bytes.
#[tactic(auto, unfolding(strm_lines::specs::Reading::leading))]
fn lane_and_bytes(rest: &[u8]) -> Option<(u8, Chunk)>
    ensures { result ≡ followed_by lane_read hex rest.now }
{
    let (word, digits) = cut(b' ', rest)?;
    let lane = lane_number(word)?;
    let bytes = hex(digits)?;
    Some((lane, bytes))
}

// The number of a lane.
fn lane_number(word: &[u8]) -> Option<u8>
    ensures { result ≡ lane_read word.now }
{
    let number = number_within(word, 0, 255)?;
    Some(number as u8)
}

/// An input has one reading: its lines put one thing at most, lines that do have no bad line, and there is
/// one first bad line at most.
pub fn one_reading()
    ensures given { (lines : List (List ℕ)) (given others : List Frame) →
        Puts lines given → Puts lines others → given ≡ others }
    ensures apart { (lines : List (List ℕ)) (given : List Frame) (line : ℕ) →
        Puts lines given → ¬ IsFirstBadLaneLine lines line }
    ensures bad_line { (lines : List (List ℕ)) (line other : ℕ) →
        IsFirstBadLaneLine lines line → IsFirstBadLaneLine lines other → line ≡ other }
{}
