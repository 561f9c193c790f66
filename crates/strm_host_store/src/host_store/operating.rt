//! Who has the other end of the one that is read or written.
//!
//! Meaning: `Calls.antt`. Source: wasmtime, `ReadState::HostReady` and `WriteState::HostReady`.

ghost use Rattle.std.specs.Prelude.{◌≡◌};
ghost use Rattle.strm_host_store.specs.Calls.{host_number, number_across, number_told, host_across};

use crate::host_store::HostStore;
use strm_codes::refusals::Refusal;
use strm_machine::streams::{Owner, Side};
use strm_transmit::Handle;

// The number of the host end that has an end, if one has it.
fn host_number(owner: Owner) -> Option<u32>
    ensures { result ≡ host_number owner }
{
    match owner {
        Owner::Host { number } => Some(number),
        _ => None,
    }
}

// The same of the end across, where the end asked for is on this side.
fn number_across(asked: Side, side: Side, other: Owner) -> Option<u32>
    ensures { result ≡ number_across asked side other }
{
    match (asked, side) {
        (Side::Reading, Side::Reading) | (Side::Writing, Side::Writing) => host_number(other),
        _ => None,
    }
}

// The same by what is told of a handle.
fn number_told(asked: Side, told: Result<Handle, Refusal>) -> Option<u32>
    ensures { result ≡ number_told asked told }
{
    match told {
        Ok(Handle::End(end)) => number_across(asked, end.side, end.other),
        _ => None,
    }
}

impl HostStore {
    // The host end across from the end on a side that a handle names, if a host end is there.
    pub(crate) fn host_across(&self, side: Side, guest: u32, handle: u32) -> Option<u32>
        ensures { result ≡ host_across self.now.state side guest handle }
    {
        number_told(side, self.store.handle(guest, handle))
    }
}
