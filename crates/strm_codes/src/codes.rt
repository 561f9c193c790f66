//! Return codes, and the two kinds of a transmit.
//!
//! Source: Canonical ABI, `CopyResult` and `pack_copy_result`; wasmtime,
//! `futures_and_streams.rs`, `ReturnCode`, `TransmitKind`, `TransmitIndex`.

ghost use Rattle.std.specs.Prelude.{◌≡◌, ◌≢◌, ℕ, ◌+◌, ◌*◌, ◌%◌, ◌<◌, ◌↔◌, Some, IsNone, IfSome};
ghost use Rattle.strm_codes.specs.Counts.{count_limit};
ghost use Rattle.strm_codes.specs.Codes.{word_of, code_of, count_of_code, completed_code};
ghost use Rattle.strm_codes.specs.declared.codes.ReturnCode.{ReturnCode};

use crate::counts::ItemCount;
use crate::payloads::Payload;

/// How an operation of a host end came out.
#[derive(Clone, Copy, Debug, PartialEq, Eq)]
pub enum StreamResult {
    /// Items were moved, and more may follow.
    Completed,
    /// The end gave the operation up because it was asked to.
    Cancelled,
    /// No more items will follow.
    Dropped,
}

/// What a stream differs in from a future.
#[derive(Clone, Copy, Debug, PartialEq, Eq)]
pub enum TransmitKind {
    Stream,
    Future,
}

/// The type of a stream or future: its kind and its payload.
#[derive(Clone, Copy, Debug, PartialEq, Eq)]
pub enum TransmitIndex {
    Stream(Payload),
    Future(Payload),
}

impl TransmitIndex {
    ghost use Rattle.strm_codes.specs.Types.{kind_of, payload_of};

    pub fn kind(&self) -> TransmitKind
        ensures { result ≡ kind_of self.now }
    {
        match self {
            TransmitIndex::Stream(_) => TransmitKind::Stream,
            TransmitIndex::Future(_) => TransmitKind::Future,
        }
    }

    pub fn payload(&self) -> Payload
        ensures { result ≡ payload_of self.now }
    {
        match self {
            TransmitIndex::Stream(payload) | TransmitIndex::Future(payload) => *payload,
        }
    }
}

/// What a read, a write, a cancel or an event answers. A count is in items.
#[derive(Clone, Copy, Debug, PartialEq, Eq)]
pub enum ReturnCode {
    /// The operation waits.
    Blocked,
    /// So many items were moved.
    Completed(ItemCount),
    /// So many items were moved, and the other end is gone.
    Dropped(ItemCount),
    /// So many items were moved before the operation was cancelled.
    Cancelled(ItemCount),
}

impl ReturnCode {
    /// The word that a guest is given.
    pub fn encode(&self) -> u32
        ensures { result ≡ word_of self.now }
    {
        match self {
            ReturnCode::Blocked => u32::MAX,
            ReturnCode::Completed(count) => 16 * count.as_u32(),
            ReturnCode::Dropped(count) => 16 * count.as_u32() + 1,
            ReturnCode::Cancelled(count) => 16 * count.as_u32() + 2,
        }
    }

    /// The code of a word. Ours: the inverse of `encode`.
    pub fn decode(word: u32) -> Option<ReturnCode>
        ensures exact { result ≡ code_of word }
        ensures none { IsNone result ↔ ((word ≢ 4294967295) × (2 < word % 16)) }
        ensures some { IfSome result (λ code. word_of code ≡ word) }
    {
        if word == u32::MAX {
            return Some(ReturnCode::Blocked);
        }
        let count = ItemCount::from_word(word);
        match word % 16 {
            0 => Some(ReturnCode::Completed(count)),
            1 => Some(ReturnCode::Dropped(count)),
            2 => Some(ReturnCode::Cancelled(count)),
            _ => None,
        }
    }

    /// Completed as it is reported: a future's carries 0.
    pub fn completed(kind: TransmitKind, count: ItemCount) -> ReturnCode
        ensures { result ≡ completed_code kind count }
    {
        match kind {
            TransmitKind::Stream => ReturnCode::Completed(count),
            TransmitKind::Future => ReturnCode::Completed(ItemCount::ZERO),
        }
    }
}

/// Words tell codes apart: each code is read from its own word, and no other has that word.
pub fn words_tell_codes()
    ensures returns { (code : ReturnCode) → count_of_code code < count_limit →
        code_of (word_of code) ≡ Some code }
    ensures injective { (code other : ReturnCode) → count_of_code code < count_limit →
        count_of_code other < count_limit → word_of code ≡ word_of other → code ≡ other }
{}
