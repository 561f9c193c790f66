//! The words of a picture: of a lane, of a step, of what was answered, of a stop.
//!
//! Ours. No word has a character that SVG keeps for itself.

use crate::arrows::Lane;
use crate::marks::{Deed, DrawnCode, Mark, Object, Said};
use strm_codes::counts::OutOfMemory;
use strm_lines::lists::TextBytes;
use strm_lines::texts::push_number;
use strm_machine::stops::Stop;
use strm_machine::streams::HostEnd;

// Adds a word, and a number behind it.
fn push_numbered(out: &mut TextBytes, word: &[u8], number: u32) -> Result<(), OutOfMemory> {
    out.push_slice(word)?;
    push_number(out, number)
}

/// Adds the name of a lane.
pub(crate) fn push_lane(out: &mut TextBytes, lane: Lane) -> Result<(), OutOfMemory> {
    match lane {
        Lane::Guest(number) => push_numbered(out, b"guest ", number),
        Lane::Writer(number) => push_numbered(out, b"host writer ", number),
        Lane::Reader(number) => push_numbered(out, b"host reader ", number),
        Lane::Nobody => out.push_slice(b"nobody"),
    }
}

// The word of a step's line.
fn word_of_deed(deed: Deed) -> &'static [u8] {
    match deed {
        Deed::Guest => b"guest",
        Deed::New => b"new",
        Deed::Pair => b"pair",
        Deed::Write => b"write",
        Deed::Read => b"read",
        Deed::DropWrite => b"drop-write",
        Deed::DropRead => b"drop-read",
        Deed::CancelWrite => b"cancel-write",
        Deed::CancelRead => b"cancel-read",
        Deed::Move => b"move",
        Deed::Lift => b"lift",
        Deed::Lower => b"lower",
        Deed::Close => b"close",
        Deed::Host => b"host",
        Deed::Feed => b"feed",
        Deed::Pipe => b"pipe",
        Deed::Grant => b"grant",
        Deed::Drive => b"drive",
        Deed::Event => b"event",
        Deed::SetNew => b"set-new",
        Deed::SetJoin => b"set-join",
        Deed::SetPoll => b"set-poll",
        Deed::SetDrop => b"set-drop",
        Deed::ErrNew => b"err-new",
        Deed::ErrText => b"err-text",
        Deed::ErrMove => b"err-move",
        Deed::ErrDrop => b"err-drop",
        Deed::Poke => b"poke",
        Deed::Dump => b"dump",
    }
}

// Adds what a step is done to, and a space before it.
fn push_object(out: &mut TextBytes, object: Object) -> Result<(), OutOfMemory> {
    match object {
        Object::Stream(number) => push_numbered(out, b" stream ", number),
        Object::Handle(number) => push_numbered(out, b" handle ", number),
        Object::Nothing => Ok(()),
    }
}

// Adds the number of a step's line, and what it counts.
fn push_count(out: &mut TextBytes, deed: Deed, count: u32) -> Result<(), OutOfMemory> {
    match deed {
        Deed::Feed | Deed::Grant if count == 0 => out.push_slice(b" end"),
        Deed::SetJoin => push_numbered(out, b" set ", count),
        _ => push_numbered(out, b" ", count),
    }
}

/// Adds what a step does.
pub(crate) fn push_label(out: &mut TextBytes, mark: &Mark) -> Result<(), OutOfMemory> {
    out.push_slice(word_of_deed(mark.deed))?;
    if let Some(count) = mark.count {
        push_count(out, mark.deed, count)?;
    }
    push_object(out, mark.object)
}

// Adds a code.
fn push_code(out: &mut TextBytes, code: DrawnCode) -> Result<(), OutOfMemory> {
    match code {
        DrawnCode::Blocked => out.push_slice(b"Blocked"),
        DrawnCode::Completed(count) => push_numbered(out, b"Completed ", count),
        DrawnCode::Dropped(count) => push_numbered(out, b"Dropped ", count),
        DrawnCode::Cancelled(count) => push_numbered(out, b"Cancelled ", count),
    }
}

// Adds a number that was answered: of a guest its lane tells it, of a lift
// the stream.
fn push_answered(out: &mut TextBytes, deed: Deed, number: u32) -> Result<(), OutOfMemory> {
    match deed {
        Deed::Guest | Deed::Lift => Ok(()),
        Deed::Host => push_numbered(out, b"stream ", number),
        Deed::ErrText => push_numbered(out, b"bytes ", number),
        _ => push_numbered(out, b"handle ", number),
    }
}

/// Adds what was answered.
pub(crate) fn push_said(out: &mut TextBytes, mark: &Mark) -> Result<(), OutOfMemory> {
    match mark.said {
        Said::Done => Ok(()),
        Said::Number(number) => push_answered(out, mark.deed, number),
        Said::Pair(pair) => {
            push_numbered(out, b"stream ", pair.stream)?;
            push_numbered(out, b", write end ", pair.write)?;
            push_numbered(out, b", read end ", pair.read)
        }
        Said::Code(code) => push_code(out, code),
        Said::Nothing => out.push_slice(b"none"),
        Said::Member { handle, code } => {
            push_numbered(out, b"handle ", handle)?;
            out.push_slice(b" ")?;
            push_code(out, code)
        }
        Said::Refused(refusal) => {
            out.push_slice(b"refused ")?;
            out.push_slice(refusal.name().as_bytes())
        }
    }
}

// Adds a host end.
fn push_host_end(out: &mut TextBytes, end: HostEnd) -> Result<(), OutOfMemory> {
    match end {
        HostEnd::Writer(number) => push_numbered(out, b"writer ", number),
        HostEnd::Reader(number) => push_numbered(out, b"reader ", number),
    }
}

/// Adds why a run stopped.
pub(crate) fn push_stop(out: &mut TextBytes, stop: Stop) -> Result<(), OutOfMemory> {
    match stop {
        Stop::HostFailed { end } => {
            out.push_slice(b"host-failed ")?;
            push_host_end(out, end)
        }
        Stop::HostBroke { end } => {
            out.push_slice(b"host-broke ")?;
            push_host_end(out, end)
        }
        Stop::BadItem { stream } => push_numbered(out, b"bad-item stream ", stream),
        Stop::StoreTrapped => out.push_slice(b"store-trapped"),
    }
}
