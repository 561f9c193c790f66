//! What a program answers: a status, and the text that it writes whole with it.
//!
//! Meaning: `Serving.antt`. Ours.

ghost use Rattle.std.specs.Prelude.{◌≡◌, ◌≢◌, IfOk};
ghost use Rattle.std.specs.Io.KnownBytes.{Appends};
ghost use Rattle.strm_lines.specs.Text.{too_long_text, read_fault_text};
ghost use Rattle.strm_codes.specs.Counters.{Rose};
ghost use Rattle.strm_input_output.specs.Faults.{TakesPart};

use crate::ports::Sink;
use crate::statuses::{READ_FAULT, TOO_LONG, WRITE_FAULT};
use crate::whole::write_whole;
use std::alloc::Global;
use strm_codes::counts::OutOfMemory;
use strm_lines::lists::TextBytes;
use strm_lines::texts::{read_fault_text, too_long_text};

/// A status, and the text that goes with it.
#[derive(Drop)]
pub struct Answer {
    pub status: u8,
    pub text: TextBytes,
}

impl Answer {
    /// A status with a text that is always the same.
    pub fn fixed(alloc: Global, status: u8, text: &[u8]) -> Result<Answer, OutOfMemory>
        ensures { IfOk result (λ a. (a.status ≡ status) × (a.text ≡ text.now)) }
    {
        let mut copy = TextBytes::new(alloc);
        copy.push_slice(text)?;
        Ok(Answer { status, text: copy })
    }

    /// That the input is over the program's limit.
    pub fn too_long(alloc: Global) -> Result<Answer, OutOfMemory>
        ensures { IfOk result (λ a. (a.status ≡ TOO_LONG) × (a.text ≡ too_long_text)) }
    {
        Answer::fixed(alloc, TOO_LONG, too_long_text())
    }

    /// That the source failed.
    pub fn read_fault(alloc: Global) -> Result<Answer, OutOfMemory>
        ensures { IfOk result (λ a. (a.status ≡ READ_FAULT) × (a.text ≡ read_fault_text)) }
    {
        Answer::fixed(alloc, READ_FAULT, read_fault_text())
    }
}

/// Writes a text whole, and answers the status that goes with it; or `WRITE_FAULT`.
pub fn write_answer<K: Sink>(sink: &mut K, status: u8, text: &[u8]) -> u8
    requires { status ≢ WRITE_FAULT }
    ensures told { result ≢ WRITE_FAULT →
        (result ≡ status) × Appends (K.taken sink.old) (K.taken sink.new) text.now }
    ensures part { result ≡ WRITE_FAULT → TakesPart (K.taken sink.old) (K.taken sink.new) text.now }
    ensures write_fault { result ≡ WRITE_FAULT → Rose (K.faults sink.old) (K.faults sink.new) }
{
    match write_whole(sink, text) {
        Ok(()) => status,
        Err(_) => WRITE_FAULT,
    }
}
