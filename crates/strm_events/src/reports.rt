//! The report of an end, its delivery, and what a cancel makes of it.
//!
//! Meaning: `Reports.antt`. Source: Canonical ABI, the pending event of a waitable, and
//! `canon stream.cancel-{read,write}`; wasmtime, `futures_and_streams.rs`, `TransmitState`, the
//! events of `guest_read` and `guest_write`, and `guest_cancel_read` and `guest_cancel_write`.

ghost use Rattle.std.specs.Prelude.{◌≡◌, true};
ghost use Rattle.std.specs.Option.{option_map};
ghost use Rattle.strm_events.specs.Reports.{outcome_code, report_of, left_pending, told_after, cancelled_code};

use strm_codes::codes::{ReturnCode, StreamResult, TransmitKind};
use strm_codes::counts::ItemCount;

/// What is known of a read or write that has not ended. wasmtime, `ReadState` and `WriteState`.
#[derive(Clone, Copy, Debug, PartialEq, Eq)]
pub struct Pending {
    /// The other side may meet it.
    pub is_open: bool,
    /// It has met the other side.
    pub met: bool,
    /// A host end on the other side was asked to finish.
    pub asked: bool,
    /// Items moved since the call.
    pub moved: ItemCount,
    /// How it came out, once it has met.
    pub outcome: StreamResult,
}

// How an operation came out.
#[inline(always)]
fn outcome(kind: TransmitKind, pending: &Pending) -> ReturnCode
    ensures { result ≡ outcome_code kind pending.now.outcome pending.now.moved }
{
    match pending.outcome {
        StreamResult::Completed => ReturnCode::completed(kind, pending.moved),
        StreamResult::Dropped => ReturnCode::Dropped(pending.moved),
        StreamResult::Cancelled => ReturnCode::Cancelled(pending.moved),
    }
}

// What an end whose other end is gone is to be told, if anything.
#[inline(always)]
fn last_report(
    kind: TransmitKind,
    pending: Option<&Pending>,
    told: bool,
    passed: bool,
) -> Option<ReturnCode>
    ensures { result ≡ report_of kind (option_map (λ p. p.now) pending.entry) true told passed }
{
    let dropped = ReturnCode::Dropped(ItemCount::ZERO);
    match (pending, kind) {
        (Some(pending), TransmitKind::Stream) => Some(ReturnCode::Dropped(pending.moved)),
        (Some(pending), TransmitKind::Future) if pending.met => Some(outcome(kind, pending)),
        (Some(_), TransmitKind::Future) if !passed => Some(dropped),
        (None, _) if !told && !passed => Some(dropped),
        _ => None,
    }
}

/// What an end is to be told, if anything: of its operation if it has one, whose other end is gone
/// or not, where a future's value has passed or not. An idle end is told once that the other end is
/// gone.
#[inline(always)]
pub fn report(
    kind: TransmitKind,
    pending: Option<&Pending>,
    other_gone: bool,
    told: bool,
    passed: bool,
) -> Option<ReturnCode>
    ensures { result
        ≡ report_of kind (option_map (λ p. p.now) pending.entry) other_gone told passed }
{
    if other_gone {
        return last_report(kind, pending, told, passed);
    }
    match pending {
        Some(pending) if pending.met => Some(outcome(kind, pending)),
        _ => None,
    }
}

/// Tells an end its report, if it has one: its operation ends with whatever it has left, and the
/// end was told that the other is gone where the code is Dropped. Without a report nothing changes.
pub fn deliver(
    kind: TransmitKind,
    pending: &mut Option<Pending>,
    told: &mut bool,
    other_gone: bool,
    passed: bool,
) -> Option<ReturnCode>
    ensures code { result ≡ report_of kind pending.old other_gone told.old passed }
    ensures pending { pending.new ≡ left_pending result pending.old }
    ensures told { told.new ≡ told_after result told.old }
{
    let code = report(kind, pending.as_ref(), other_gone, *told, passed)?;
    *pending = None;
    if let ReturnCode::Dropped(_) = code {
        *told = true;
    }
    Some(code)
}

/// What a cancel answers of a report: a stream's Completed is Cancelled, of as many items, and any
/// other code stays.
pub fn cancelled(kind: TransmitKind, code: ReturnCode) -> ReturnCode
    ensures { result ≡ cancelled_code kind code }
{
    match (kind, code) {
        (TransmitKind::Stream, ReturnCode::Completed(items)) => ReturnCode::Cancelled(items),
        (_, code) => code,
    }
}
