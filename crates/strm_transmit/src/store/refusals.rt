//! Why something may not be done to the end that a handle names.
//!
//! Meaning: `on_end_reasons` of `Refusals.antt` of `strm_machine`. Source: Canonical ABI, the traps of
//! the built-ins of streams and futures; the order is ours.

ghost use Rattle.std.specs.Prelude.{◌≡◌, ◌<◌, ◌++◌, length, IfOk, IfErr};
ghost use Rattle.strm_codes.specs.Types.{payload_of};
ghost use Rattle.strm_codes.specs.declared.refusals.Refusal.TheVariants as refusals;
ghost use Rattle.strm_memory.specs.Items.{is_number_or_none};
ghost use Rattle.strm_machine.specs.State.{stream_at};
ghost use Rattle.strm_machine.specs.Tests.{named, stream_named, side_named, side_of, has_ended, owes_value, is_cancel_under_way, is_spent, is_within_one_guest};
ghost use Rattle.strm_machine.specs.Refusals.{first_of, ended_refusal, handle_reasons, end_reasons_of, leave_reasons_of, leave_reasons, own_reasons_of, own_reasons};
ghost use Rattle.strm_machine.proofs.NameLemmas.{IsNameError};
ghost use Rattle.strm_transmit.specs.Meets.{or_found};

use crate::store::Store;
use strm_channels::channels::Channel;
use strm_channels::sides::{is_busy, opposite, same_side};
use strm_codes::codes::{TransmitIndex, TransmitKind};
use strm_codes::payloads::Payload;
use strm_codes::refusals::Refusal;
use strm_handles::entries::TransmitLocalState;
use strm_handles::errors::HandleError;
use strm_machine::acts::{EndAct, NamedEnd};
use strm_machine::streams::Side;

// What a look-up of a handle came to, as a refusal.
#[inline(always)]
pub(crate) fn refusal_of(error: HandleError) -> Refusal
    requires { IsNameError error }
    ensures unknown { error ≡ HandleError.UnknownHandle → result ≡ refusals.UnknownHandle }
    ensures kind { error ≡ HandleError.WrongKind → result ≡ refusals.WrongKind }
    ensures ty { error ≡ HandleError.WrongType → result ≡ refusals.WrongType }
{
    match error {
        HandleError::UnknownHandle => Refusal::UnknownHandle,
        HandleError::WrongKind => Refusal::WrongKind,
        HandleError::WrongType => Refusal::WrongType,
        _ => unreachable!(),
    }
}

// The side of an end, by a table's state of it.
#[inline(always)]
pub(crate) fn side_of(state: TransmitLocalState) -> Side
    ensures { result ≡ side_of state }
{
    match state {
        TransmitLocalState::Write { .. } => Side::Writing,
        TransmitLocalState::Read { .. } => Side::Reading,
        TransmitLocalState::Busy { reading } => {
            if reading {
                Side::Reading
            } else {
                Side::Writing
            }
        }
    }
}

// Whether a read or write of this end can't be any more.
#[inline(always)]
fn has_ended(side: Side, kind: TransmitKind, stream: &Channel) -> bool
    ensures { result ≡ has_ended side kind stream.now }
{
    match (kind, side) {
        (TransmitKind::Stream, _) => stream.told(side),
        (TransmitKind::Future, Side::Writing) => stream.told(Side::Writing) || stream.passed(),
        (TransmitKind::Future, Side::Reading) => stream.passed(),
    }
}

fn ended_refusal(side: Side, kind: TransmitKind) -> Refusal
    ensures { result ≡ ended_refusal side kind }
{
    match (side, kind) {
        (Side::Writing, TransmitKind::Stream) => Refusal::WriteToDroppedStream,
        (Side::Writing, TransmitKind::Future) => Refusal::WriteToDroppedFuture,
        (Side::Reading, TransmitKind::Stream) => Refusal::ReadFromDroppedStream,
        (Side::Reading, TransmitKind::Future) => Refusal::FutureAlreadyRead,
    }
}

// Whether any bytes are items of a payload.
#[inline(always)]
fn is_number_or_none(payload: Payload) -> bool
    ensures { result ≡ is_number_or_none payload }
{
    match payload {
        Payload::Nothing => true,
        Payload::One(scalar) => scalar.is_numeric(),
        Payload::Tuple(_) | Payload::Compound(_) => false,
    }
}

// Whether an open operation of its guest waits on the other side, for items that don't move there.
#[inline(always)]
fn is_within_one_guest(side: Side, end: &NamedEnd, stream: &Channel) -> bool
    ensures { result ≡ is_within_one_guest end.now.guest side end.now.ty stream.now }
{
    match stream.operation(opposite(side)) {
        Some(theirs) if theirs.is_open && theirs.guest == end.guest => {
            !is_number_or_none(end.ty.payload())
        }
        _ => false,
    }
}

// Why an end may not read or write now.
#[inline(always)]
fn end_refusal(side: Side, end: &NamedEnd, stream: &Channel, named_side: Side) -> Option<Refusal>
    ensures { result
        ≡ first_of (end_reasons_of stream.now side end.now.guest end.now.ty named_side) }
{
    if !same_side(side, named_side) || is_busy(side, stream) {
        return Some(Refusal::ConcurrentFutureStreamOp);
    }
    if has_ended(side, end.ty.kind(), stream) {
        return Some(ended_refusal(side, end.ty.kind()));
    }
    if is_within_one_guest(side, end, stream) {
        return Some(Refusal::IntraComponent);
    }
    None
}

// Whether the operation of an end is being cancelled already.
fn is_cancel_under_way(side: Side, stream: &Channel) -> bool
    ensures { result ≡ is_cancel_under_way side stream.now }
{
    match stream.operation(side) {
        Some(operation) => operation.asked,
        None => false,
    }
}

// Whether a future's write end still owes its value.
fn owes_value(side: Side, kind: TransmitKind, stream: &Channel) -> bool
    ensures { result ≡ owes_value side kind stream.now }
{
    match (kind, side) {
        (TransmitKind::Future, Side::Writing) => !(stream.passed() || stream.told(Side::Writing)),
        _ => false,
    }
}

// Whether an end was told that the other one is gone, or its value passed.
fn is_spent(side: Side, stream: &Channel) -> bool
    ensures { result ≡ is_spent side stream.now }
{
    stream.told(side) || stream.passed()
}

// Why an end may not leave its guest now.
#[inline(always)]
fn leave_refusal(side: Side, stream: &Channel) -> Option<Refusal>
    ensures { result ≡ first_of (leave_reasons_of stream.now side) }
{
    if is_busy(side, stream) {
        return Some(Refusal::Busy);
    }
    if is_spent(side, stream) {
        return Some(Refusal::LiftDropped);
    }
    None
}

// Why this may not be done to an end now.
#[inline(always)]
fn own_refusal(
    side: Side,
    end: &NamedEnd,
    act: EndAct,
    stream: &Channel,
    named_side: Side,
) -> Option<Refusal>
    ensures { result ≡ first_of (own_reasons_of stream.now side end.now act named_side) }
{
    match act {
        EndAct::Operate { .. } => end_refusal(side, end, stream, named_side),
        _ if !same_side(side, named_side) => Some(Refusal::WrongEnd),
        EndAct::Cancel if !is_busy(side, stream) => Some(Refusal::NoPending),
        EndAct::Cancel if is_cancel_under_way(side, stream) => Some(Refusal::CancelUnderWay),
        EndAct::Cancel => None,
        EndAct::Drop if is_busy(side, stream) => Some(Refusal::Busy),
        EndAct::Drop if owes_value(side, end.ty.kind(), stream) => Some(
            Refusal::FutureWithoutValue,
        ),
        EndAct::Drop => None,
        EndAct::Lift => leave_refusal(side, stream),
    }
}

impl Store {
    // What a guest's table answers for a handle.
    #[inline(always)]
    fn name(&self, end: &NamedEnd) -> Result<(u32, TransmitLocalState), HandleError>
        requires { end.now.guest < length self.now.guests }
        ensures exact { result ≡ named self.now end.now }
        ensures there { IfOk result (λ name. name.0 < length self.now.streams) }
        ensures payload { IfOk result (λ name.
            (stream_at self.now name.0).payload ≡ payload_of end.now.ty) }
        ensures others { IfErr result IsNameError }
    {
        let guest = &self.guests[end.guest as usize];
        match end.ty {
            TransmitIndex::Stream(payload) => guest.table.stream_rep(payload, end.handle),
            TransmitIndex::Future(payload) => guest.table.future_rep(payload, end.handle),
        }
    }

    // The stream and the side of the end that a handle of a type names.
    #[inline(always)]
    pub(crate) fn handle_found(&self, end: &NamedEnd) -> Result<(u32, Side), Refusal>
        requires { end.now.guest < length self.now.guests }
        ensures exact { result ≡ or_found (first_of (handle_reasons (named self.now end.now)))
            (stream_named (named self.now end.now), side_named (named self.now end.now)) }
        ensures there { IfOk result (λ found. found.0 < length self.now.streams) }
        ensures payload { IfOk result (λ found.
            (stream_at self.now found.0).payload ≡ payload_of end.now.ty) }
    {
        match self.name(end) {
            Ok(name) => Ok((name.0, side_of(name.1))),
            Err(error) => Err(refusal_of(error)),
        }
    }

    // The stream and the side of the end that a handle names, where that end may leave its guest now.
    pub(crate) fn leaving(&self, end: &NamedEnd) -> Result<(u32, Side), Refusal>
        requires { end.now.guest < length self.now.guests }
        ensures { result ≡ or_found (first_of (handle_reasons (named self.now end.now)
            ++ leave_reasons self.now end.now))
            (stream_named (named self.now end.now), side_named (named self.now end.now)) }
    {
        let named = self.handle_found(end)?;
        match leave_refusal(named.1, self.stream(named.0)) {
            Some(refusal) => Err(refusal),
            None => Ok(named),
        }
    }

    // The stream whose end a handle names, where this may be done to that end now.
    #[inline(always)]
    pub(crate) fn found(&self, side: Side, end: &NamedEnd, act: EndAct) -> Result<u32, Refusal>
        requires { end.now.guest < length self.now.guests }
        ensures exact { result ≡ or_found (first_of (handle_reasons (named self.now end.now)
            ++ own_reasons self.now side end.now act)) (stream_named (named self.now end.now)) }
        ensures there { IfOk result (λ stream. stream < length self.now.streams) }
        ensures payload { IfOk result (λ stream.
            (stream_at self.now stream).payload ≡ payload_of end.now.ty) }
    {
        match self.handle_found(end) {
            Ok(named) => match own_refusal(side, end, act, self.stream(named.0), named.1) {
                Some(refusal) => Err(refusal),
                None => Ok(named.0),
            },
            Err(refusal) => Err(refusal),
        }
    }
}
