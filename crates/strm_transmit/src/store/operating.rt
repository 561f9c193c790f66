//! How a read or write of a guest is done: functions that call one another downwards.
//!
//! Meaning: `operates` of `Reactions.antt` of `strm_machine`, and `Operating.antt`. Source: wasmtime,
//! `guest_read` and `guest_write`.
//!
//! Most are inlined, so that a read or write of plain numbers is one function where steps are done:
//!
//! - `operate` looks at the payload. Plain numbers go on to `operate_here`, which is inlined there and so
//!   has no test of the payload left. Any other goes on by one call, `operate_apart`. That takes the end
//!   by value, so that where numbers move the end lies in registers; `operate_any` is inlined, so that
//!   the end is copied only there.
//! - `operate_here` refuses, has a host end polled, or calls `take_apart`, which moves items. That is a
//!   call, so that what refuses is small enough to be inlined.
//! - `operate_or_stay`, `stay_any`, `stay_apart` and `stay_here` are the same where no host end is
//!   polled, and where the store stays as it was at an item that is none. `stay_here` has
//!   `take_called_or_stay` and `take_or_stay` inlined, since no other step stands beside it in the calls
//!   of `strm_guest_store`. `operate_alone` traps the store where these leave it.
//!
//! The compiler drops `inline(always)`, with no message, from a function that would grow very large. Then
//! the function's name stands among the symbols of what was built, as `nm` prints them: of the functions
//! here only those of `inline(never)` may stand there.

ghost use Rattle.std.specs.Prelude.{◌≡◌, ◌≢◌, ◌<◌, length, true, Err, None, IfOk, OnErr};
ghost use Rattle.strm_machine.specs.State.{stream_at};
ghost use Rattle.strm_machine.specs.Meetings.{begun};
ghost use Rattle.strm_machine.specs.Sides.{end_of};
ghost use Rattle.strm_machine.specs.Reactions.{goes, on_stream, reaction};
ghost use Rattle.strm_machine.specs.declared.acts.Act.TheVariants.{OnEnd};
ghost use Rattle.strm_machine.specs.declared.acts.EndAct.TheVariants.{Operate};
ghost use Rattle.strm_machine.specs.declared.replies.Reply.TheVariants as replies;
ghost use Rattle.strm_host_machine.specs.Does.{Fits};
ghost use Rattle.strm_transmit.specs.Meets.{Meets, as_reply};
ghost use Rattle.strm_transmit.specs.Hosted.{MeetsHosted, StillFits, RunsOutOnlyPolling, RunsOutNoneHeld};
ghost use Rattle.strm_transmit.specs.BadItems.{MeetsOrStays, left_by_error};
ghost use Rattle.strm_transmit.specs.Operating.{Operates, OperatesOrStays, MayBegin, BeginsOn, BeginsOrStays};
ghost use Rattle.strm_transmit.specs.Turning.{IsPlacedOn, IsNumberWithin};

use crate::errors::StoreError;
use crate::host_ends::HostEnds;
use crate::store::{Store, number_type};
use strm_channels::meetings::{begin, meet_or_wait};
use strm_codes::codes::ReturnCode;
use strm_codes::counts::ItemCount;
use strm_codes::payloads::Payload;
use strm_machine::acts::NamedEnd;
use strm_machine::streams::{Operation, Side};
use strm_memory::copies::BadItem;

impl Store {
    /// A read or write of the end that is named; a future's count is not looked at.
    #[inline(always)]
    pub(crate) fn operate<H: HostEnds>(
        &mut self,
        hosts: &mut H,
        side: Side,
        end: &NamedEnd,
        address: u32,
        count: u32,
    ) -> Result<ReturnCode, StoreError>
        requires fits { Fits self.old (H.tells hosts.old) }
        ensures meets { MeetsHosted self.old self.new (H.tells hosts.old) (H.tells hosts.new)
            (as_reply replies.Code result) (OnEnd side end.now (Operate address count)) }
        ensures takes_no_memory { RunsOutOnlyPolling self.old
            (OnEnd side end.now (Operate address count)) result }
        ensures held { RunsOutNoneHeld self.old (H.tells hosts.old)
            (OnEnd side end.now (Operate address count)) result }
    {
        match number_type(end.ty) {
            Some(ty) => {
                let end = NamedEnd { ty, ..*end };
                self.operate_here(hosts, side, &end, address, count)
            }
            None => self.operate_any(hosts, side, end, address, count),
        }
    }

    // The same of any payload.
    #[inline(always)]
    fn operate_any<H: HostEnds>(
        &mut self,
        hosts: &mut H,
        side: Side,
        end: &NamedEnd,
        address: u32,
        count: u32,
    ) -> Result<ReturnCode, StoreError>
        requires fits { Fits self.old (H.tells hosts.old) }
        ensures operates { Operates self.old self.new (H.tells hosts.old) (H.tells hosts.new)
            (OnEnd side end.now (Operate address count)) result }
    {
        self.operate_apart(hosts, side, *end, address, count)
    }

    // The same, apart from the code for plain numbers.
    #[inline(never)]
    fn operate_apart<H: HostEnds>(
        &mut self,
        hosts: &mut H,
        side: Side,
        end: NamedEnd,
        address: u32,
        count: u32,
    ) -> Result<ReturnCode, StoreError>
        requires fits { Fits self.old (H.tells hosts.old) }
        ensures operates { Operates self.old self.new (H.tells hosts.old) (H.tells hosts.new)
            (OnEnd side end (Operate address count)) result }
    {
        self.operate_here(hosts, side, &end, address, count)
    }

    // The same: refused, or done with a host end on the other side, or without.
    #[inline(always)]
    fn operate_here<H: HostEnds>(
        &mut self,
        hosts: &mut H,
        side: Side,
        end: &NamedEnd,
        address: u32,
        count: u32,
    ) -> Result<ReturnCode, StoreError>
        requires fits { Fits self.old (H.tells hosts.old) }
        ensures operates { Operates self.old self.new (H.tells hosts.old) (H.tells hosts.new)
            (OnEnd side end.now (Operate address count)) result }
    {
        self.sound();
        self.served();
        match self.admit(self.operation_found(side, end, address, count)) {
            Ok(found) => match self.host_across(side, found.0) {
                Some(number) => {
                    let mine = begin(end.guest, address, found.1);
                    self.poll_across(hosts, found.0, side, number, mine)
                }
                None => self.take_apart(side, found.0, end.guest, address, found.1),
            },
            Err(error) => Err(error),
        }
    }

    /// A read or write of the end that is named, as the machine without host ends does it: a host end
    /// on the other side is not polled. Refused as the call of that side and type. BadItem.
    #[inline(always)]
    pub fn operate_alone(
        &mut self,
        side: Side,
        end: &NamedEnd,
        address: u32,
        count: u32,
    ) -> Result<ReturnCode, StoreError>
        ensures meets { Meets self.old self.new (as_reply replies.Code result)
            (reaction self.old (OnEnd side end.now (Operate address count))) }
        ensures fits { StillFits self.old self.new }
        ensures takes_no_memory { result ≢ Err StoreError.OutOfMemory }
    {
        match self.operate_or_stay(side, end, address, count) {
            Ok(code) => Ok(code),
            Err(error) => {
                self.trap_at_bad_item(error);
                Err(error)
            }
        }
    }

    // The store is trapped after an item that is none, and after no other error.
    fn trap_at_bad_item(&mut self, error: StoreError)
        ensures { self.new ≡ left_by_error error self.old }
    {
        match error {
            StoreError::BadItem { .. } => self.trap(),
            StoreError::Refused(_)
            | StoreError::HostFailed { .. }
            | StoreError::HostBroke { .. }
            | StoreError::StoreTrapped
            | StoreError::OutOfMemory => {}
        }
    }

    /// The same, but that an item which is none leaves the store as it was: it is not trapped, and the
    /// same call answers the same again. `bad_item` tells whose the item is.
    #[inline(always)]
    pub fn operate_or_stay(
        &mut self,
        side: Side,
        end: &NamedEnd,
        address: u32,
        count: u32,
    ) -> Result<ReturnCode, StoreError>
        ensures meets { MeetsOrStays self.old self.new (as_reply replies.Code result)
            (reaction self.old (OnEnd side end.now (Operate address count))) }
        ensures fits { StillFits self.old self.new }
        ensures takes_no_memory { result ≢ Err StoreError.OutOfMemory }
    {
        match number_type(end.ty) {
            Some(ty) => {
                let end = NamedEnd { ty, ..*end };
                self.stay_here(side, &end, address, count)
            }
            None => self.stay_any(side, end, address, count),
        }
    }

    // The same of any payload.
    #[inline(always)]
    fn stay_any(
        &mut self,
        side: Side,
        end: &NamedEnd,
        address: u32,
        count: u32,
    ) -> Result<ReturnCode, StoreError>
        ensures operates { OperatesOrStays self.old self.new
            (OnEnd side end.now (Operate address count)) result }
    {
        self.stay_apart(side, *end, address, count)
    }

    // The same, apart from the code for plain numbers.
    #[inline(never)]
    fn stay_apart(
        &mut self,
        side: Side,
        end: NamedEnd,
        address: u32,
        count: u32,
    ) -> Result<ReturnCode, StoreError>
        ensures operates { OperatesOrStays self.old self.new
            (OnEnd side end (Operate address count)) result }
    {
        self.stay_here(side, &end, address, count)
    }

    // The same: refused, or done.
    #[inline(always)]
    fn stay_here(
        &mut self,
        side: Side,
        end: &NamedEnd,
        address: u32,
        count: u32,
    ) -> Result<ReturnCode, StoreError>
        ensures operates { OperatesOrStays self.old self.new
            (OnEnd side end.now (Operate address count)) result }
    {
        self.sound();
        self.served();
        match self.admit(self.operation_found(side, end, address, count)) {
            Ok(found) => {
                let payload = end.ty.payload();
                self.take_called_or_stay(side, found.0, &payload, end.guest, address, found.1)
            }
            Err(error) => Err(error),
        }
    }

    // An operation that is just called begins, apart from the code that refuses it.
    #[inline(never)]
    fn take_apart(
        &mut self,
        side: Side,
        stream: u32,
        guest: u32,
        address: u32,
        count: ItemCount,
    ) -> Result<ReturnCode, StoreError>
        requires called { MayBegin self.old side stream (begun guest address count) }
        ensures begins { BeginsOn self.old self.new side stream (begun guest address count) result }
    {
        let payload = self.stream(stream).payload();
        match self.take_called_or_stay(side, stream, &payload, guest, address, count) {
            Ok(code) => Ok(code),
            Err(_) => {
                self.trap();
                Err(StoreError::BadItem { stream })
            }
        }
    }

    // The same, but that an item which is none leaves the store as it was. The payload is the stream's: a
    // caller that knows it has less code here.
    #[inline(always)]
    fn take_called_or_stay(
        &mut self,
        side: Side,
        stream: u32,
        payload: &Payload,
        guest: u32,
        address: u32,
        count: ItemCount,
    ) -> Result<ReturnCode, StoreError>
        requires called { MayBegin self.old side stream (begun guest address count) }
        requires payload { payload.now ≡ (stream_at self.old stream).payload }
        ensures begins { BeginsOrStays self.old self.new side stream (begun guest address count)
            result }
    {
        let mine = begin(guest, address, count);
        match self.take_or_stay(side, stream, payload, mine) {
            Ok(code) => Ok(code),
            Err(_) => Err(StoreError::BadItem { stream }),
        }
    }

    // An operation begins on a stream. Where an item that would move is none, the store is as it was.
    #[inline(always)]
    fn take_or_stay(
        &mut self,
        side: Side,
        stream: u32,
        payload: &Payload,
        mine: Operation,
    ) -> Result<ReturnCode, BadItem>
        requires there { stream < length self.old.streams }
        requires payload { payload.now ≡ (stream_at self.old stream).payload }
        requires idle { (end_of side (stream_at self.old stream)).operation ≡ None }
        requires begun { mine ≡ begun mine.guest mine.address mine.left }
        requires mine { IsPlacedOn self.old stream mine }
        requires numbers { IsNumberWithin self.old side stream mine.guest }
        ensures ok { IfOk result (λ code. on_stream self.old stream side mine
            ≡ goes (replies.Code code) self.new) }
        ensures bad { OnErr result (on_stream self.old stream side mine
            ≡ goes (replies.BadItem stream) (record self.old { trapped = true })) }
        ensures err { OnErr result (self.new ≡ self.old) }
    {
        let meeting = &mut self.streams[stream as usize];
        let taken = meet_or_wait(self.alloc, &mut self.guests, meeting, payload, side, mine);
        self.ready.retell(&self.guests, stream, meeting);
        taken
    }
}
