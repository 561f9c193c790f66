//! Answers as statuses and words.
//!
//! Meaning: `Statuses.antt`. Ours; codes are the Canonical ABI's words.

ghost use Rattle.std.specs.Prelude.{◌≡◌};
ghost use Rattle.strm_codes.specs.Codes.{word_of};
ghost use Rattle.strm_c.specs.Statuses.{error_status, answer_status, answer_word, operate_status, operate_word, event_word, found_status};

use strm_codes::codes::ReturnCode;
use strm_codes::refusals::Refusal;
use strm_guest_store::operations::OperateError;
use strm_transmit::errors::StoreError;

/// What an export answers: 0 where it was done, a refusal's number from 1 to 30, or one of those below.
pub type Status = u32;

/// An item that was to move is none of its type: a char that is no Unicode scalar value, or the number of a case that
/// there is not. strm_find_bad_item tells which, and who writes it.
pub const BAD_ITEM: Status = 64;

/// An allocation was refused, and nothing has changed.
pub const OUT_OF_MEMORY: Status = 66;

/// No payload, or no type, has the word.
pub const UNKNOWN_PAYLOAD: Status = 67;

/// No stream has the number, or none of which an end is there.
pub const UNKNOWN_STREAM: Status = 68;

/// The handle is of no store: it is {NULL}.
pub const NO_STORE: Status = 69;

/// A guest that is there would get more than its limits allow. It is told before any refusal.
pub const GUEST_LIMIT: Status = 72;

/// A read or write with these arguments stops at no item.
pub const NO_BAD_ITEM: Status = 73;

/// The guest's memory is the store's own, which neither grows nor moves.
pub const NOT_LENT: Status = 74;

/// There are fewer bytes than the guest's memory has.
pub const SHORTER: Status = 75;

/// The guest has bytes, handles, or a memory that was lent: it did not end, or began again.
pub const IN_USE: Status = 76;

/// The words of a type are more than seven.
pub const TYPE_TOO_LONG: Status = 77;

/// The words spell no type, more than one, or a tuple that STRM_FIELD makes.
pub const NO_TYPE: Status = 78;

/// The word of no event, which no code has.
pub const NO_EVENT: u32 = 3;

// The store was trapped. It can't: nothing traps it.
const STORE_TRAPPED: Status = 65;

// A host end failed or broke its rules. It can't: there is none.
const HOST_END: Status = 70;

/// The status of an error.
pub fn error_status(error: StoreError) -> Status
    ensures { result ≡ error_status error }
{
    match error {
        StoreError::Refused(refusal) => u32::from(refusal.number()),
        StoreError::BadItem { .. } => BAD_ITEM,
        StoreError::StoreTrapped => STORE_TRAPPED,
        StoreError::OutOfMemory => OUT_OF_MEMORY,
        StoreError::HostFailed { .. } | StoreError::HostBroke { .. } => HOST_END,
    }
}

/// A number, put at `out`.
#[inline(always)]
pub fn number(answer: Result<u32, StoreError>, out: &mut u32) -> Status
    ensures status { result ≡ answer_status answer }
    ensures word { out.new ≡ answer_word (λ number. number) answer out.old }
{
    match answer {
        Ok(number) => {
            *out = number;
            0
        }
        Err(error) => error_status(error),
    }
}

/// A code, put at `out`.
#[inline(always)]
pub fn code(answer: Result<ReturnCode, StoreError>, out: &mut u32) -> Status
    ensures status { result ≡ answer_status answer }
    ensures word { out.new ≡ answer_word word_of answer out.old }
{
    match answer {
        Ok(code) => {
            *out = code.encode();
            0
        }
        Err(error) => error_status(error),
    }
}

/// The code of a read or write, put at `out`.
#[inline(always)]
pub fn operated(answer: Result<ReturnCode, OperateError>, out: &mut u32) -> Status
    ensures status { result ≡ operate_status answer }
    ensures word { out.new ≡ operate_word answer out.old }
{
    match answer {
        Ok(code) => {
            *out = code.encode();
            0
        }
        Err(OperateError::Refused(refusal)) => u32::from(refusal.number()),
        Err(OperateError::BadItem(_)) => BAD_ITEM,
    }
}

/// An event, put at `out`.
#[inline(always)]
pub fn event(answer: Result<Option<ReturnCode>, StoreError>, out: &mut u32) -> Status
    ensures status { result ≡ answer_status answer }
    ensures word { out.new ≡ answer_word event_word answer out.old }
{
    match answer {
        Ok(Some(code)) => {
            *out = code.encode();
            0
        }
        Ok(None) => {
            *out = NO_EVENT;
            0
        }
        Err(error) => error_status(error),
    }
}

/// Whether it was done.
#[inline(always)]
pub fn done(answer: Result<(), StoreError>) -> Status
    ensures { result ≡ answer_status answer }
{
    match answer {
        Ok(()) => 0,
        Err(error) => error_status(error),
    }
}

/// Whether it may be done.
pub fn found(answer: Result<(), Refusal>) -> Status
    ensures { result ≡ found_status answer }
{
    match answer {
        Ok(()) => 0,
        Err(refusal) => u32::from(refusal.number()),
    }
}
