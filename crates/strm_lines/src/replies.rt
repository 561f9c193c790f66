//! Replies that become text, or are counted, as they come.
//!
//! Meaning: `Kept.antt`. Ours.

ghost use Rattle.std.specs.Prelude.{◌≡◌, ℕ, List, [], ◌<◌, length, IfOk, OnOk, OnErr};
ghost use Rattle.strm_machine.specs.declared.replies.Reply.{Reply};
ghost use Rattle.strm_lines.specs.Text.{transcript_text, summary_text, stopped_text};
ghost use Rattle.strm_lines.specs.Kept.{AreLines, AreRepliesCounted};

use crate::lists::TextBytes;
use crate::one_by_one::KeepsReplies;
use crate::texts::{counts_text, push_ending, push_reply, push_stopped};
use std::alloc::Global;
use strm_codes::codes::ReturnCode;
use strm_codes::counts::OutOfMemory;
use strm_machine::replies::Reply;
use strm_machine::stops::Stop;

/// Replies, kept as the text of their lines.
#[derive(Drop)]
pub struct ReplyLines {
    /// One line for each.
    pub text: TextBytes,
    /// How many there are.
    pub count: u32,
}

impl ReplyLines {
    /// No replies; it asks for room for the lines of so many, most of which are a code's.
    pub fn new(alloc: Global, room: usize) -> ReplyLines
        ensures { AreLines result.text result.count [] }
    {
        let mut text = TextBytes::new(alloc);
        // Where there is no room for all, each asks for its own.
        let _room = text.reserve(room.saturating_mul(9));
        ReplyLines { text, count: 0 }
    }

    /// The text of a run that came to its end, from how many items were received on each stream.
    pub fn ended(self, moved: &[u128]) -> Result<TextBytes, OutOfMemory>
        ensures { (told : List Reply) → AreLines self.text self.count told →
            IfOk result (λ text. text ≡ transcript_text told moved.now) }
    {
        let mut text = self.text;
        push_ending(&mut text, moved, self.count as usize)?;
        Ok(text)
    }

    /// The text of a run that stopped.
    pub fn stopped(self, stop: Stop) -> Result<TextBytes, OutOfMemory>
        ensures { (told : List Reply) → AreLines self.text self.count told →
            IfOk result (λ text. text ≡ stopped_text told stop) }
    {
        let mut text = self.text;
        push_stopped(&mut text, self.count as usize + 1, stop)?;
        Ok(text)
    }
}

impl KeepsReplies for ReplyLines {
    ghost keeps = { λ lines told. AreLines lines.text lines.count told };

    fn keep(&mut self, reply: &Reply) -> Result<(), OutOfMemory> {
        let before = self.text.len();
        match push_reply(&mut self.text, reply) {
            Ok(()) => {
                self.count += 1;
                Ok(())
            }
            Err(error) => {
                self.text.truncate(before);
                Err(error)
            }
        }
    }
}

/// Counts of replies.
#[derive(Drop)]
pub struct ReplyCounts {
    /// How many steps were refused.
    pub refused: u32,
    /// How many reads and writes had to wait.
    pub blocked: u32,
    /// How many replies there are.
    pub count: u32,
}

impl ReplyCounts {
    /// No replies.
    pub fn new() -> ReplyCounts
        ensures { AreRepliesCounted result.refused result.blocked result.count [] }
    {
        ReplyCounts {
            refused: 0,
            blocked: 0,
            count: 0,
        }
    }

    /// The summary of a run, from how many items were received on each stream.
    pub fn summary(&self, alloc: Global, moved: &[u128]) -> Result<TextBytes, OutOfMemory>
        ensures { (told : List Reply) →
            AreRepliesCounted self.now.refused self.now.blocked self.now.count told → IfOk result (λ text. text ≡ summary_text told moved.now) }
    {
        counts_text(
            alloc,
            self.refused as usize,
            self.blocked as usize,
            moved,
            self.count as usize,
        )
    }
}

impl KeepsReplies for ReplyCounts {
    ghost keeps = { λ c told. AreRepliesCounted c.refused c.blocked c.count told };

    fn keep(&mut self, reply: &Reply) -> Result<(), OutOfMemory> {
        match reply {
            Reply::Refused(_) => self.refused += 1,
            Reply::Code(ReturnCode::Blocked) => self.blocked += 1,
            _ => {}
        }
        self.count += 1;
        Ok(())
    }
}
