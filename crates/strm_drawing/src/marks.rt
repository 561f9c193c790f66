//! The mark of a step: what it did, to what, in which lane, and what was answered.
//!
//! Meaning: `Marks.antt`. Ours.

ghost use Rattle.std.specs.Prelude.{◌≡◌};
ghost use Rattle.strm_drawing.specs.Marks.{drawn_code, drawn_member, answer_of, made_guest, deed_of, lane_of_step, other_lane, end_object, object_of, items_in, bytes_in, count_in, mark_of};

use crate::arrows::Lane;
use strm_codes::codes::{ReturnCode, TransmitIndex};
use strm_codes::refusals::Refusal;
use strm_machine::chunks::Chunk;
use strm_machine::replies::{Member, Pair, Reply};
use strm_machine::steps::Step;
use strm_transmit::store::queries::EndInfo;

/// The kinds of steps.
#[derive(Clone, Copy, PartialEq, Eq)]
pub enum Deed {
    Guest,
    New,
    Pair,
    Write,
    Read,
    DropWrite,
    DropRead,
    CancelWrite,
    CancelRead,
    Move,
    Lift,
    Lower,
    Close,
    Host,
    Feed,
    Pipe,
    Grant,
    Drive,
    Event,
    SetNew,
    SetJoin,
    SetPoll,
    SetDrop,
    ErrNew,
    ErrText,
    ErrMove,
    ErrDrop,
    Poke,
    Dump,
}

/// What a step is done to.
#[derive(Clone, Copy, PartialEq, Eq)]
pub enum Object {
    /// The stream or future of this number, or an end of it.
    Stream(u32),
    /// What this handle stands for.
    Handle(u32),
    /// Nothing that has a number.
    Nothing,
}

/// A code, with its count in items.
#[derive(Clone, Copy)]
pub enum DrawnCode {
    Blocked,
    Completed(u32),
    Dropped(u32),
    Cancelled(u32),
}

/// What is drawn of a reply.
#[derive(Clone, Copy)]
pub enum Said {
    /// It was done, with nothing more to say.
    Done,
    /// It made what has this number, or tells this number.
    Number(u32),
    /// It made a stream.
    Pair(Pair),
    /// A code.
    Code(DrawnCode),
    /// There was nothing to tell.
    Nothing,
    /// The member of a set under this handle was told this.
    Member { handle: u32, code: DrawnCode },
    /// It was refused.
    Refused(Refusal),
}

/// The mark of a step.
#[derive(Clone, Copy)]
pub struct Mark {
    pub deed: Deed,
    /// Where it stands.
    pub lane: Lane,
    /// The lane that it leads to, of a step that gives something to another.
    pub other: Lane,
    pub object: Object,
    /// How many items, bytes or whatever its line says.
    pub count: Option<u32>,
    pub said: Said,
}

// What is drawn of a code.
fn drawn_code(code: ReturnCode) -> DrawnCode
    ensures { result ≡ drawn_code code }
{
    match code {
        ReturnCode::Blocked => DrawnCode::Blocked,
        ReturnCode::Completed(count) => DrawnCode::Completed(count.as_u32()),
        ReturnCode::Dropped(count) => DrawnCode::Dropped(count.as_u32()),
        ReturnCode::Cancelled(count) => DrawnCode::Cancelled(count.as_u32()),
    }
}

// What is drawn of a member that was told something.
fn drawn_member(member: &Member) -> Said
    ensures { result ≡ drawn_member member.now }
{
    Said::Member {
        handle: member.handle,
        code: drawn_code(member.code),
    }
}

// What is drawn of a reply.
fn answer_of(reply: &Reply) -> Said
    ensures { result ≡ answer_of reply.now }
{
    match reply {
        Reply::Done | Reply::Bytes(_) => Said::Done,
        Reply::Number(number) => Said::Number(*number),
        Reply::Pair(pair) => Said::Pair(*pair),
        Reply::Code(code) | Reply::Event(Some(code)) => Said::Code(drawn_code(*code)),
        Reply::Member(Some(member)) => drawn_member(member),
        Reply::Event(None) | Reply::Member(None) => Said::Nothing,
        Reply::Refused(refusal) => Said::Refused(*refusal),
        Reply::BadItem { .. } | Reply::StoreTrapped => Said::Nothing,
    }
}

// The lane of the guest that was made.
fn made_guest(reply: &Reply) -> Lane
    ensures { result ≡ made_guest reply.now }
{
    match reply {
        Reply::Number(number) => Lane::Guest(*number),
        _ => Lane::Nobody,
    }
}

// The kind of a step.
fn deed_of(step: &Step) -> Deed
    ensures { result ≡ deed_of step.now }
{
    match step {
        Step::Guest { .. } => Deed::Guest,
        Step::New { .. } => Deed::New,
        Step::Between { .. } => Deed::Pair,
        Step::Write { .. } => Deed::Write,
        Step::Read { .. } => Deed::Read,
        Step::DropWrite { .. } => Deed::DropWrite,
        Step::DropRead { .. } => Deed::DropRead,
        Step::CancelWrite { .. } => Deed::CancelWrite,
        Step::CancelRead { .. } => Deed::CancelRead,
        Step::Move { .. } => Deed::Move,
        Step::Lift { .. } => Deed::Lift,
        Step::Lower { .. } => Deed::Lower,
        Step::Close { .. } => Deed::Close,
        Step::HostNew { .. } => Deed::Host,
        Step::Feed { .. } => Deed::Feed,
        Step::Pipe { .. } => Deed::Pipe,
        Step::Grant { .. } => Deed::Grant,
        Step::Drive => Deed::Drive,
        Step::Event { .. } => Deed::Event,
        Step::SetNew { .. } => Deed::SetNew,
        Step::SetJoin { .. } => Deed::SetJoin,
        Step::SetPoll { .. } => Deed::SetPoll,
        Step::SetDrop { .. } => Deed::SetDrop,
        Step::ErrNew { .. } => Deed::ErrNew,
        Step::ErrText { .. } => Deed::ErrText,
        Step::ErrMove { .. } => Deed::ErrMove,
        Step::ErrDrop { .. } => Deed::ErrDrop,
        Step::Poke { .. } => Deed::Poke,
        Step::Dump { .. } => Deed::Dump,
    }
}

// The lane of a step: that of its guest or of its host end.
fn lane_of_step(step: &Step, reply: &Reply) -> Lane
    ensures { result ≡ lane_of_step step.now reply.now }
{
    match step {
        Step::Guest { .. } => made_guest(reply),
        Step::New { guest, .. }
        | Step::Write { guest, .. }
        | Step::Read { guest, .. }
        | Step::DropWrite { guest, .. }
        | Step::DropRead { guest, .. }
        | Step::CancelWrite { guest, .. }
        | Step::CancelRead { guest, .. }
        | Step::Move { guest, .. }
        | Step::Lift { guest, .. }
        | Step::Lower { guest, .. }
        | Step::Event { guest, .. }
        | Step::SetNew { guest }
        | Step::SetJoin { guest, .. }
        | Step::SetPoll { guest, .. }
        | Step::SetDrop { guest, .. }
        | Step::ErrNew { guest, .. }
        | Step::ErrText { guest, .. }
        | Step::ErrMove { guest, .. }
        | Step::ErrDrop { guest, .. }
        | Step::Poke { guest, .. }
        | Step::Dump { guest, .. } => Lane::Guest(*guest),
        Step::Between { writer, .. } => Lane::Guest(*writer),
        Step::HostNew { host } | Step::Feed { host, .. } => Lane::Writer(*host),
        Step::Pipe { host, .. } | Step::Grant { host, .. } => Lane::Reader(*host),
        Step::Close { .. } | Step::Drive => Lane::Nobody,
    }
}

// The lane that a step leads to.
fn other_lane(step: &Step) -> Lane
    ensures { result ≡ other_lane step.now }
{
    match step {
        Step::Between { reader, .. } => Lane::Guest(*reader),
        Step::Move { to, .. } | Step::ErrMove { to, .. } => Lane::Guest(*to),
        _ => Lane::Nobody,
    }
}

// The stream of an end that is there, or else the handle that was to name it.
fn end_object(handle: u32, named: &Option<EndInfo>) -> Object
    ensures { result ≡ end_object handle named.now }
{
    match named {
        Some(end) => Object::Stream(end.stream),
        None => Object::Handle(handle),
    }
}

// What a step is done to, by the end that its handle names.
fn object_of(step: &Step, named: &Option<EndInfo>) -> Object
    ensures { result ≡ object_of step.now named.now }
{
    match step {
        Step::Write { handle, .. }
        | Step::Read { handle, .. }
        | Step::DropWrite { handle, .. }
        | Step::DropRead { handle, .. }
        | Step::CancelWrite { handle, .. }
        | Step::CancelRead { handle, .. }
        | Step::Move { handle, .. }
        | Step::Lift { handle, .. }
        | Step::Event { handle, .. }
        | Step::SetJoin { handle, .. } => end_object(*handle, named),
        Step::Lower { reader, .. } | Step::Close { reader } | Step::Pipe { reader, .. } => {
            Object::Stream(*reader)
        }
        Step::SetPoll { set, .. } | Step::SetDrop { set, .. } => Object::Handle(*set),
        Step::ErrText { handle, .. }
        | Step::ErrMove { handle, .. }
        | Step::ErrDrop { handle, .. } => Object::Handle(*handle),
        _ => Object::Nothing,
    }
}

// How many items a read or write asks for; of a future nothing is said.
fn items_in(ty: TransmitIndex, count: u32) -> Option<u32>
    ensures { result ≡ items_in ty count }
{
    match ty {
        TransmitIndex::Stream(_) => Some(count),
        TransmitIndex::Future(_) => None,
    }
}

// How many bytes there are.
fn bytes_in(bytes: &Chunk) -> Option<u32>
    ensures { result ≡ bytes_in bytes.now }
{
    Some(bytes.as_slice().len() as u32)
}

// The number that the line of a step says beside guests, host ends, streams and handles.
fn count_in(step: &Step) -> Option<u32>
    ensures { result ≡ count_in step.now }
{
    match step {
        Step::Guest { size } => Some(*size),
        Step::Write { ty, count, .. } | Step::Read { ty, count, .. } => items_in(*ty, *count),
        Step::Feed { bytes, .. } | Step::Poke { bytes, .. } => bytes_in(bytes),
        Step::Grant { count, .. } => Some(*count),
        Step::SetJoin { set, .. } => Some(*set),
        Step::ErrNew { len, .. } | Step::Dump { len, .. } => Some(*len),
        _ => None,
    }
}

/// The mark of a step, by the end that its handle names and by the reply.
pub fn mark_of(step: &Step, named: &Option<EndInfo>, reply: &Reply) -> Mark
    ensures { result ≡ mark_of step.now named.now reply.now }
{
    Mark {
        deed: deed_of(step),
        lane: lane_of_step(step, reply),
        other: other_lane(step),
        object: object_of(step, named),
        count: count_in(step),
        said: answer_of(reply),
    }
}
