//! The text of what came over the stream.
//!
//! Meaning: `Texts.antt`. Ours.

ghost use Rattle.std.specs.Prelude.{◌≡◌, ◌++◌, ◌<◌, ◌∷◌, [], List, All, length, IfOk, OnOk};
ghost use Rattle.strm_lines.specs.Words.{hex_pairs};
ghost use Rattle.strm_lines.specs.Text.{line_ended};
ghost use Rattle.strm_frames.specs.Frames.{Frame};
ghost use Rattle.strm_mux.specs.Carrying.{DeliversFrames};
ghost use Rattle.strm_mux.specs.Lines.{FrameHasLine};
ghost use Rattle.strm_mux.specs.Texts.{bytes_text, lane_text, lane_line, lanes_below, output_text, mux_usage_text};

use std::alloc::Global;
use strm_codes::counts::OutOfMemory;
use strm_frames::demuxes::Demux;
use strm_lines::lists::TextBytes;
use strm_lines::texts::{hex_digit, push_number};

// The text of the lanes that lines put something on or ended, and of how many bytes came.
pub(crate) fn output_text(
    alloc: Global,
    demux: &Demux,
    moved: u64,
) -> Result<TextBytes, OutOfMemory>
    ensures { (given : List Frame) → DeliversFrames demux.now given → All FrameHasLine given →
        IfOk result (λ text. text ≡ output_text given moved) }
{
    let mut out = TextBytes::new(alloc);
    push_lanes(&mut out, demux)?;
    out.push_slice(b"moved ")?;
    push_number(&mut out, moved)?;
    out.push(b'\n')?;
    Ok(out)
}

// Adds a line for each lane that was named.
fn push_lanes(out: &mut TextBytes, demux: &Demux) -> Result<(), OutOfMemory>
    ensures { (given : List Frame) → DeliversFrames demux.now given → All FrameHasLine given →
        OnOk result (out.new ≡ out.old ++ lanes_below 256 given) }
{
    for lane in 0..256usize {
        push_lane(out, demux, lane as u8)?;
    }
    Ok(())
}

// Adds the line of a lane, if it was named: then it has bytes, or ended.
fn push_lane(out: &mut TextBytes, demux: &Demux, lane: u8) -> Result<(), OutOfMemory>
    ensures { (given : List Frame) → DeliversFrames demux.now given → All FrameHasLine given →
        OnOk result (out.new ≡ out.old ++ lane_line lane given) }
{
    let bytes = demux.lane(lane);
    let is_ended = demux.ended(lane);
    if bytes.is_empty() && !is_ended {
        return Ok(());
    }
    push_named(out, lane, bytes, is_ended)
}

// Adds the line of a lane that was named.
fn push_named(
    out: &mut TextBytes,
    lane: u8,
    bytes: &[u8],
    is_ended: bool,
) -> Result<(), OutOfMemory>
    ensures { OnOk result (out.new ≡ out.old ++ line_ended (lane_text lane bytes.now is_ended)) }
{
    out.push_slice(b"lane ")?;
    push_number(out, lane)?;
    out.push(b' ')?;
    push_number(out, bytes.len())?;
    push_bytes(out, bytes)?;
    if is_ended {
        out.push_slice(b" end")?;
    }
    out.push(b'\n')
}

// Adds a space and bytes as pairs of digits, or nothing for none.
fn push_bytes(out: &mut TextBytes, bytes: &[u8]) -> Result<(), OutOfMemory>
    ensures { OnOk result (out.new ≡ out.old ++ bytes_text bytes.now) }
{
    if bytes.is_empty() {
        return Ok(());
    }
    out.push(b' ')?;
    push_pairs(out, bytes)
}

// Adds bytes as pairs of digits.
fn push_pairs(out: &mut TextBytes, bytes: &[u8]) -> Result<(), OutOfMemory>
    ensures { OnOk result (out.new ≡ out.old ++ hex_pairs bytes.now) }
{
    for byte in bytes {
        out.push_slice(&[hex_digit(*byte / 16), hex_digit(*byte % 16)])?;
    }
    Ok(())
}

// The text for words of the program that are no two sizes.
pub(crate) fn usage_text() -> &'static [u8]
    ensures { result.now ≡ mux_usage_text }
{
    b"usage: mux WRITE READ\n"
}
