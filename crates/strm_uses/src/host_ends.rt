//! A store with ready host ends: what a host feeds is held until a guest reads it.

ghost use Rattle.std.specs.Prelude.{◌≡◌, length, IfOk};
ghost use Rattle.strm_buffers.specs.Listing.{items_in};
ghost use Rattle.strm_codes.specs.Layout.{byte_type};
ghost use Rattle.strm_host_store.specs.HostStates.{writer_of};

use std::alloc::Global;
use strm_codes::codes::TransmitIndex;
use strm_codes::payloads::Payload;
use strm_codes::scalars::Scalar;
use strm_host_store::errors::HostFeedError;
use strm_host_store::host_store::HostStore;
use strm_machine::limits::Limits;
use strm_transmit::errors::StoreError;

const BYTES: Payload = Payload::One(Scalar::U8);

const LIMITS: Limits = Limits {
    handles: 2,
    places: 3,
};

/// Why nothing is held.
#[derive(Clone, Copy, Debug)]
pub enum HoldError {
    Store(StoreError),
    Feed(HostFeedError),
}

/// A store whose first host writer, of a stream of bytes, holds these three.
pub fn hold_three(alloc: Global, bytes: &[u8]) -> Result<HostStore, HoldError>
    ensures held { IfOk result (λ store. (writer_of store 0).items
        ≡ items_in byte_type bytes.now 0 3) }
    ensures one { IfOk result (λ store. length store.writers ≡ 1) }
{
    let mut store = HostStore::new(alloc, 0, LIMITS);
    match store.host_writer(TransmitIndex::Stream(BYTES)) {
        Ok(_) => {}
        Err(error) => return Err(HoldError::Store(error)),
    }
    match store.feed(0, bytes, 3) {
        Ok(()) => Ok(store),
        Err(error) => Err(HoldError::Feed(error)),
    }
}
