//! The text of a whole run.
//!
//! Source: ours.

ghost use Rattle.std.specs.Prelude.{◌≡◌, IfOk};
ghost use Rattle.strm_lines.specs.Text.{transcript_text, summary_text};

use crate::runs::Transcript;
use std::alloc::Global;
use strm_codes::counts::OutOfMemory;
use strm_lines::lists::TextBytes;
pub use strm_lines::texts::{
    bad_line_text, push_done, push_replies, push_streams, read_fault_text, stopped_text,
    summary_text, too_long_text, transcript_text, usage_text,
};

/// The text of a run.
pub fn text(alloc: Global, transcript: &Transcript) -> Result<TextBytes, OutOfMemory>
    ensures ok { IfOk result (λ bytes.
        bytes ≡ transcript_text transcript.now.replies transcript.now.moved) }
{
    transcript_text(
        alloc,
        transcript.replies.as_slice(),
        transcript.moved.as_slice(),
    )
}

/// The summary of a run.
pub fn summary(alloc: Global, transcript: &Transcript) -> Result<TextBytes, OutOfMemory>
    ensures ok { IfOk result (λ bytes.
        bytes ≡ summary_text transcript.now.replies transcript.now.moved) }
{
    summary_text(
        alloc,
        transcript.replies.as_slice(),
        transcript.moved.as_slice(),
    )
}
