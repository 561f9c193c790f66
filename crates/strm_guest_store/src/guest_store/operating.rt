//! Reads and writes, which are one function: by what the calls of streams and futures are.
//!
//! Meaning: `Operations.antt`. Source: wasmtime, `guest_write` and `guest_read`.

ghost use Rattle.std.specs.Prelude.{◌≡◌, ◌≢◌, Err, IfSome, IsNone, ℕ};
ghost use Rattle.strm_machine.specs.Asked.{HasBadItem};
ghost use Rattle.strm_machine.specs.Bases.{BasesStay};
ghost use Rattle.strm_machine.specs.Reactions.{react};
ghost use Rattle.strm_transmit.specs.BadItems.{MeetsOrStays, operation_step, IsBadItem};
ghost use Rattle.strm_guest_store.specs.Operations.{MeetsOrTells};

use crate::guest_store::GuestStore;
use crate::operations::OperateError;
use strm_codes::codes::{ReturnCode, TransmitIndex};
use strm_machine::acts::NamedEnd;
use strm_machine::streams::Side;
use strm_transmit::BadItem;
use strm_transmit::errors::StoreError;

impl GuestStore {
    // A read or write of the end that is named.
    #[inline(always)]
    pub(crate) fn operate(
        &mut self,
        side: Side,
        end: &NamedEnd,
        address: u32,
        count: u32,
    ) -> Result<ReturnCode, OperateError>
        ensures meets { MeetsOrTells self.old self.new result (operation_step side end.now address count) }
        ensures stays { BasesStay self.old.guests self.new.guests }
    {
        match self.store.operate_or_stay(side, end, address, count) {
            Ok(code) => Ok(code),
            Err(error) => Err(self.why_not(error, side, end, address, count)),
        }
    }

    // Why one was not done: of an item that is none, whose it is.
    #[inline(always)]
    fn why_not(
        &self,
        error: StoreError,
        side: Side,
        end: &NamedEnd,
        address: u32,
        count: u32,
    ) -> OperateError
        requires meets { MeetsOrStays self.now self.now (Err error)
            (react self.now (operation_step side end.now address count)) }
        requires memory { error ≢ StoreError.OutOfMemory }
        ensures { MeetsOrTells self.now self.now (Err result) (operation_step side end.now address count) }
    {
        self.why_not_apart(error, side, *end, address, count)
    }

    // The same, apart from the code of what is done. It takes the end by value, so that where numbers move the
    // end lies in registers; `why_not` is inlined, so that the end is copied only there.
    #[cold]
    #[inline(never)]
    fn why_not_apart(
        &self,
        error: StoreError,
        side: Side,
        end: NamedEnd,
        address: u32,
        count: u32,
    ) -> OperateError
        requires meets { MeetsOrStays self.now self.now (Err error)
            (react self.now (operation_step side end address count)) }
        requires memory { error ≢ StoreError.OutOfMemory }
        ensures { MeetsOrTells self.now self.now (Err result) (operation_step side end address count) }
    {
        match error {
            StoreError::Refused(refusal) => OperateError::Refused(refusal),
            StoreError::BadItem { .. } => match self.store.bad_item(side, &end, address, count) {
                Some(item) => OperateError::BadItem(item),
                None => unreachable!(),
            },
            StoreError::HostFailed { .. } => unreachable!(),
            StoreError::HostBroke { .. } => unreachable!(),
            StoreError::StoreTrapped => unreachable!(),
            StoreError::OutOfMemory => unreachable!(),
        }
    }

    /// The item at which a read or write would stop, as the call that does it answers: whose it is, and its
    /// place; none where that call would not answer `BadItem`. Of a future the count is not looked at. Nothing
    /// changes.
    pub fn find_bad_item(
        &self,
        side: Side,
        guest: u32,
        ty: TransmitIndex,
        handle: u32,
        address: u32,
        count: u32,
    ) -> Option<BadItem>
        ensures some { IfSome result (IsBadItem self.now
            (operation_step side (record { guest = guest; ty = ty; handle = handle }) address count)) }
        ensures none { IsNone result → (s : ℕ) → HasBadItem self.now
            (operation_step side (record { guest = guest; ty = ty; handle = handle }) address count) s → ⊥ }
    {
        let end = NamedEnd { guest, ty, handle };
        self.store.bad_item(side, &end, address, count)
    }
}
