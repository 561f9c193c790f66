//! A store: three bytes go from one guest to another.

ghost use Rattle.std.specs.Prelude.{◌≡◌, take, length, Some, Ok, Err, IfOk};
ghost use Rattle.strm_codes.specs.declared.codes.ReturnCode.TheVariants.{Completed};
ghost use Rattle.strm_machine.specs.State.{memory_in, stream_at};
ghost use Rattle.strm_host_machine.specs.Does.{Fits};

use std::alloc::Global;
use strm_buffers::hosts::Hosts;
use strm_codes::codes::{ReturnCode, TransmitIndex};
use strm_codes::payloads::Payload;
use strm_codes::refusals::Refusal;
use strm_codes::scalars::Scalar;
use strm_transmit::errors::StoreError;
use strm_transmit::host_ends::HostEnds;
use strm_transmit::store::Store;
use strm_transmit::{Chunk, Limits};

const BYTES: Payload = Payload::One(Scalar::U8);

const LIMITS: Limits = Limits {
    handles: 2,
    places: 3,
};

/// A store in which bytes were passed, the read's answer, and what the write was told.
#[derive(Drop)]
pub struct Passed {
    pub store: Store,
    pub read: ReturnCode,
    pub told: Option<ReturnCode>,
}

/// Passes three bytes from the memory of one guest to another's, over a stream between them.
pub fn pass_three(alloc: Global, bytes: &Chunk) -> Result<Passed, StoreError>
    requires { length bytes.now ≡ 3 }
    ensures memory { IfOk result (λ passed.
        take 3 (memory_in passed.store.guests 1) ≡ bytes.now) }
    ensures read { IfOk result (λ passed. passed.read ≡ Completed 3) }
    ensures told { IfOk result (λ passed. passed.told ≡ Some (Completed 3)) }
    ensures moved { IfOk result (λ passed. (stream_at passed.store 0).received ≡ 3) }
{
    let mut store = Store::new(alloc, 0, LIMITS);
    let mut hosts = Hosts {
        writers: Vec::new(alloc),
        readers: Vec::new(alloc),
    };
    let writer = store.add_guest(16)?;
    let reader = store.add_guest(16)?;
    let pair = store.new_between(writer, reader, TransmitIndex::Stream(BYTES))?;
    bytes.sound();
    store.poke(writer, 0, bytes)?;
    store.stream_write(&mut hosts, writer, BYTES, pair.write, 0, 3)?;
    let read = store.stream_read(&mut hosts, reader, BYTES, pair.read, 0, 3)?;
    let told = store.take_event(writer, pair.write)?;
    Ok(Passed { store, read, told })
}

/// Reads for a guest: the word of its read's code, or why the guest traps. A refusal has changed nothing;
/// any other error is the runtime's.
pub fn read_for<H: HostEnds>(
    store: &mut Store,
    hosts: &mut H,
    guest: u32,
    handle: u32,
    address: u32,
    count: u32,
) -> Result<Result<u32, Refusal>, StoreError>
    requires fits { Fits store.old (H.tells hosts.old) }
    ensures trapped { (refusal : Refusal) → result ≡ Ok (Err refusal) → store.new ≡ store.old }
{
    match store.stream_read(hosts, guest, BYTES, handle, address, count) {
        Ok(code) => Ok(Ok(code.encode())),
        Err(StoreError::Refused(refusal)) => Ok(Err(refusal)),
        Err(error) => Err(error),
    }
}
