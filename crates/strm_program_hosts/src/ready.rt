//! The program's streams that are ready.
//!
//! Meaning: `HostEnds.antt`. Ours.

ghost use Rattle.std.specs.Prelude.{◌≡◌, IfOk};
ghost use Rattle.strm_host.specs.Erasing.{erased_tells};
ghost use Rattle.strm_program_hosts.specs.HostEnds.{five, ready_writer};

use std::alloc::{AllocError, Global};
use strm_host::empty::Empty;
use strm_host::erased::Erased;

// Two streams of five bytes, and one of none.
#[derive(Drop)]
pub(crate) struct Ready {
    pub(crate) first: Erased<Vec<u8>>,
    pub(crate) second: Erased<Vec<u8>>,
    pub(crate) none: Erased<Empty<u8>>,
}

// The items of a stream that is ready.
fn five_bytes(alloc: Global) -> Result<Vec<u8>, AllocError>
    ensures { IfOk result (λ list. list.items ≡ five) }
{
    Ok(vec![in alloc; 1u8, 2, 3, 4, 5]?)
}

// What the streams that are ready hold, and that none was polled.
pub(crate) fn ready_streams(alloc: Global) -> Result<Ready, AllocError>
    ensures first { IfOk result (λ ready. ready.first.producer.items ≡ five) }
    ensures second { IfOk result (λ ready. ready.second.producer.items ≡ five) }
    ensures first_unpolled { IfOk result (λ ready. erased_tells ready.first ≡ ready_writer) }
    ensures second_unpolled { IfOk result (λ ready. erased_tells ready.second ≡ ready_writer) }
    ensures none_unpolled { IfOk result (λ ready. erased_tells ready.none ≡ ready_writer) }
{
    Ok(Ready {
        first: Erased::stream(alloc, five_bytes(alloc)?),
        second: Erased::stream(alloc, five_bytes(alloc)?),
        none: Erased::stream(alloc, Empty::<u8>::new()),
    })
}
