//! What the words of the program tell it to do.
//!
//! Meaning: `Modes.antt`. Ours.

ghost use Rattle.std.specs.Prelude.{◌≡◌, ◌⊎◌, ◌↔◌, map, string_bytes, IfOk, IfErr, OnOk, Ok, Some, None};
ghost use Rattle.std.specs.Io.KnownBytes.{Appends};
ghost use Rattle.strm_codes.specs.Counters.{Rose};
ghost use Rattle.strm_input_output.specs.Faults.{TakesPart};
ghost use Rattle.strm_tape_program.specs.declared.modes.Mode.{Mode};
ghost use Rattle.strm_tape_program.specs.Modes.{Names, NamesNone, mode_of_word};
ghost use Rattle.strm_tape_program.specs.Texts.{tape_usage_text};

use crate::statuses::{USAGE, WRITE_FAULT};
use crate::texts::usage_text;
use strm_input_output::answers::write_answer;
use strm_input_output::ports::Sink;

/// What the program does.
#[derive(Clone, Copy, Debug, PartialEq, Eq)]
pub enum Mode {
    /// It runs a script and writes the tape of the run.
    Take,
    /// It reads a tape and plays it.
    Play,
}

/// What the one word behind the program's name says, `take` or `play`. For other words it writes how to call
/// the program, and answers the program's status: `USAGE`, or `WRITE_FAULT`.
pub fn tape_mode<K: Sink>(words: &Vec<String>, sink: &mut K) -> Result<Mode, u8>
    ensures named { (mode : Mode) →
        (result ≡ Ok mode) ↔ Names (map string_bytes words.now.items) mode }
    ensures known { IfErr result (λ status. (status ≡ USAGE) ⊎ (status ≡ WRITE_FAULT)) }
    ensures other { IfErr result (λ status. NamesNone (map string_bytes words.now.items)) }
    ensures usage { IfErr result (λ status. status ≡ USAGE →
        Appends (K.taken sink.old) (K.taken sink.new) tape_usage_text) }
    ensures write_fault { IfErr result (λ status. status ≡ WRITE_FAULT →
        TakesPart (K.taken sink.old) (K.taken sink.new) tape_usage_text
        × Rose (K.faults sink.old) (K.faults sink.new)) }
    ensures quiet { OnOk result (sink.new ≡ sink.old) }
{
    match mode_of(words) {
        Some(mode) => Ok(mode),
        None => Err(write_answer(sink, USAGE, usage_text())),
    }
}

// The mode that the words name.
fn mode_of(words: &Vec<String>) -> Option<Mode>
    ensures some { (mode : Mode) →
        (result ≡ Some mode) ↔ Names (map string_bytes words.now.items) mode }
    ensures none { result ≡ None → NamesNone (map string_bytes words.now.items) }
{
    let words = words.as_slice();
    if words.len() != 1 {
        return None;
    }
    mode_of_word(words[0].as_bytes())
}

// The mode of a word.
fn mode_of_word(word: &[u8]) -> Option<Mode>
    ensures { result ≡ mode_of_word word.now }
{
    if word == b"take".as_slice() {
        Some(Mode::Take)
    } else if word == b"play".as_slice() {
        Some(Mode::Play)
    } else {
        None
    }
}
