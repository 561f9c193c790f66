//! What a host end answers to a poll, and what a host reader records of it.
//!
//! Source: wasmtime, `futures_and_streams.rs`, `StreamResult` behind a `Poll` of a `Result`. The
//! record is ours.

ghost use Rattle.std.specs.Prelude.{◌≡◌, Some, None, IfSome};
ghost use Rattle.strm_buffers.specs.Said.{turn_of, IfAnswered, IfNoMemory};
ghost use Rattle.strm_buffers.specs.HostRules.{is_for_two, writer_breaks, breaks_as_reader};

pub use strm_codes::codes::StreamResult;
use strm_codes::codes::TransmitKind;

/// What a poll answers.
#[derive(Clone, Copy, Debug, PartialEq, Eq)]
pub enum Turn<T> {
    /// Nothing more for now.
    Pending,
    /// This poll is done.
    Ready(T),
    /// It failed.
    Failed,
    /// Out of memory. Nothing is recorded.
    NoMemory,
}

/// What a poll of a host end answers.
pub type HostTurn = Turn<StreamResult>;

impl Turn<StreamResult> {
    /// The answer of this turn; none where memory had run out.
    #[inline(always)]
    pub fn answer(self) -> Option<Answer>
        ensures answered { IfAnswered self (λ answer. result ≡ Some answer) }
        ensures no_memory { IfNoMemory self (result ≡ None) }
        ensures turn { IfSome result (λ answer. self ≡ turn_of answer) }
    {
        match self {
            Turn::Pending => Some(Answer::Pending),
            Turn::Ready(StreamResult::Completed) => Some(Answer::Completed),
            Turn::Ready(StreamResult::Cancelled) => Some(Answer::Cancelled),
            Turn::Ready(StreamResult::Dropped) => Some(Answer::Dropped),
            Turn::Failed => Some(Answer::Failed),
            Turn::NoMemory => None,
        }
    }
}

/// The answer that the record of a poll has.
#[derive(Clone, Copy, Debug, PartialEq, Eq)]
pub enum Answer {
    /// Nothing more for now.
    Pending,
    /// This poll is done, and there may be more.
    Completed,
    /// It stopped because it was asked to finish.
    Cancelled,
    /// There is no more, now or later.
    Dropped,
    /// It failed.
    Failed,
}

impl Answer {
    /// The turn of a poll that has this answer.
    #[inline(always)]
    pub fn turn(self) -> HostTurn
        ensures { result ≡ turn_of self }
    {
        match self {
            Answer::Pending => Turn::Pending,
            Answer::Completed => Turn::Ready(StreamResult::Completed),
            Answer::Cancelled => Turn::Ready(StreamResult::Cancelled),
            Answer::Dropped => Turn::Ready(StreamResult::Dropped),
            Answer::Failed => Turn::Failed,
        }
    }

    /// Whether a host writer of this kind breaks the rules by this answer to a poll with this room,
    /// in which it produced so many items.
    pub fn breaks_as_writer(
        self,
        kind: TransmitKind,
        room: Option<u32>,
        finish: bool,
        produced: usize,
    ) -> bool
        ensures { result ≡ writer_breaks kind self room finish produced }
    {
        match (self, kind) {
            (Answer::Pending, _) => produced > 0,
            (Answer::Cancelled, _) => produced > 0 || !finish,
            (Answer::Completed, TransmitKind::Stream) => produced == 0 && is_for_two(room),
            (Answer::Completed, TransmitKind::Future) => produced != 1,
            (Answer::Dropped, TransmitKind::Stream) => false,
            (Answer::Dropped, TransmitKind::Future) => true,
            (Answer::Failed, _) => false,
        }
    }
}

// Whether room is stated, for two items or more.
fn is_for_two(room: Option<u32>) -> bool
    ensures { result ≡ is_for_two room }
{
    match room {
        Some(room) => room >= 2,
        None => false,
    }
}

/// One poll of a host reader. Counts are in items.
#[derive(Clone, Copy, Debug, PartialEq, Eq)]
pub struct ReaderSaid {
    /// How many it was offered.
    pub offered: u32,
    /// How many it had taken since it was last ready.
    pub since: u32,
    /// Whether it was asked to finish.
    pub finish: bool,
    /// How many it took.
    pub taken: u32,
    /// Whether it asked for an item that is none.
    pub bad: bool,
    pub answer: Answer,
}

impl ReaderSaid {
    /// Whether a host reader of this kind broke the rules in this poll.
    pub fn breaks_rules(&self, kind: TransmitKind) -> bool
        ensures { result ≡ breaks_as_reader kind self.now }
    {
        let is_untouched = self.taken == 0 && self.since == 0;
        match (self.answer, kind) {
            (Answer::Pending, _) => false,
            (Answer::Cancelled, TransmitKind::Stream) => !self.finish,
            (Answer::Cancelled, TransmitKind::Future) => !self.finish || !is_untouched,
            (Answer::Completed, TransmitKind::Stream) => self.offered > 0 && is_untouched,
            (Answer::Completed, TransmitKind::Future) => is_untouched,
            (Answer::Dropped, TransmitKind::Stream) => false,
            (Answer::Dropped, TransmitKind::Future) => true,
            (Answer::Failed, _) => false,
        }
    }
}
