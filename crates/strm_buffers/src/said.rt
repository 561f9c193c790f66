//! What a host writer records of a poll.
//!
//! Source: ours.

ghost use Rattle.std.specs.Prelude.{◌≡◌, IfOk};
ghost use Rattle.strm_buffers.specs.HostRules.{breaks_as_writer};

use crate::answers::Answer;
use crate::items::Items;
use std::marker::Model;
use strm_codes::codes::TransmitKind;
use strm_codes::counts::OutOfMemory;

/// One poll of a host writer.
#[derive(Drop)]
pub struct WriterSaid {
    /// How many items there was room for; none for as many as it likes.
    pub room: Option<u32>,
    /// Whether it was asked to finish.
    pub finish: bool,
    /// All items that it produced.
    pub items: Items,
    pub answer: Answer,
}

impl Model for WriterSaid {
    ghost use Rattle.strm_buffers.specs.Said.{WriterSaid};

    ghost Value = { WriterSaid };

    ghost view = { λ s. record { room = s.room; finish = s.finish; payload = s.items.payload; items = s.items.items; answer = s.answer } };
}

impl WriterSaid {
    /// A copy. After `OutOfMemory` nothing was kept.
    pub fn copy(&self) -> Result<WriterSaid, OutOfMemory>
        ensures { IfOk result (λ said. said ≡ self.now) }
    {
        let items = self.items.copy()?;
        Ok(WriterSaid {
            room: self.room,
            finish: self.finish,
            items,
            answer: self.answer,
        })
    }

    /// Whether a host writer of this kind broke the rules in this poll.
    pub fn breaks_rules(&self, kind: TransmitKind) -> bool
        ensures { result ≡ breaks_as_writer kind self.now }
    {
        self.answer
            .breaks_as_writer(kind, self.room, self.finish, self.items.len())
    }
}
