//! Reads and writes of guests. With a guest across they are as in a store among guests alone, and an item that is none
//! leaves all as it was (`BadItem`). A host end across has its turn at once.
//!
//! Meaning: `Calls.antt`. Source: Canonical ABI, `canon stream.read` and the others; wasmtime, `guest_write` and
//! `guest_read`.

ghost use Rattle.strm_codes.specs.declared.codes.TransmitIndex.TheVariants as index;
ghost use Rattle.strm_machine.specs.declared.streams.Side.TheVariants.{Writing, Reading};
ghost use Rattle.strm_host_store.specs.Calls.{OperatesAmong, RunsOutPolling};

use crate::host_store::HostStore;
use strm_codes::codes::{ReturnCode, TransmitIndex};
use strm_codes::payloads::Payload;
use strm_machine::acts::NamedEnd;
use strm_machine::streams::Side;
use strm_transmit::errors::StoreError;

impl HostStore {
    /// Reads items to an address of the guest's memory on, from a guest or from a host writer. `canon stream.read`.
    pub fn stream_read(
        &mut self,
        guest: u32,
        payload: Payload,
        handle: u32,
        address: u32,
        count: u32,
    ) -> Result<ReturnCode, StoreError>
        ensures does { OperatesAmong self.old self.new Reading
            (record { guest = guest; ty = index.Stream payload; handle = handle }) address count result }
        ensures memory { RunsOutPolling self.old Reading
            (record { guest = guest; ty = index.Stream payload; handle = handle }) address count result }
    {
        match self.host_across(Side::Reading, guest, handle) {
            Some(number) => {
                let ends = &mut self.ends;
                let answer = self
                    .store
                    .stream_read(ends, guest, payload, handle, address, count);
                self.ends.forget_writer(number as usize);
                answer
            }
            None => {
                let ty = TransmitIndex::Stream(payload);
                let end = NamedEnd { guest, ty, handle };
                self.store
                    .operate_or_stay(Side::Reading, &end, address, count)
            }
        }
    }

    /// Writes items from an address of the guest's memory on, to a guest or to a host reader. `canon stream.write`.
    /// Items of a write that waits are read from the memory when they move.
    pub fn stream_write(
        &mut self,
        guest: u32,
        payload: Payload,
        handle: u32,
        address: u32,
        count: u32,
    ) -> Result<ReturnCode, StoreError>
        ensures does { OperatesAmong self.old self.new Writing
            (record { guest = guest; ty = index.Stream payload; handle = handle }) address count result }
        ensures memory { RunsOutPolling self.old Writing
            (record { guest = guest; ty = index.Stream payload; handle = handle }) address count result }
    {
        match self.host_across(Side::Writing, guest, handle) {
            Some(number) => {
                let ends = &mut self.ends;
                let answer = self
                    .store
                    .stream_write(ends, guest, payload, handle, address, count);
                self.ends.forget_reader(number as usize);
                answer
            }
            None => {
                let ty = TransmitIndex::Stream(payload);
                let end = NamedEnd { guest, ty, handle };
                self.store
                    .operate_or_stay(Side::Writing, &end, address, count)
            }
        }
    }

    /// Reads the value to an address of the guest's memory. `canon future.read`.
    pub fn future_read(
        &mut self,
        guest: u32,
        payload: Payload,
        handle: u32,
        address: u32,
    ) -> Result<ReturnCode, StoreError>
        ensures does { OperatesAmong self.old self.new Reading
            (record { guest = guest; ty = index.Future payload; handle = handle }) address 1 result }
        ensures memory { RunsOutPolling self.old Reading
            (record { guest = guest; ty = index.Future payload; handle = handle }) address 1 result }
    {
        match self.host_across(Side::Reading, guest, handle) {
            Some(number) => {
                let ends = &mut self.ends;
                let answer = self
                    .store
                    .future_read(ends, guest, payload, handle, address);
                self.ends.forget_writer(number as usize);
                answer
            }
            None => {
                let ty = TransmitIndex::Future(payload);
                let end = NamedEnd { guest, ty, handle };
                self.store.operate_or_stay(Side::Reading, &end, address, 1)
            }
        }
    }

    /// Writes the value that lies at an address of the guest's memory. `canon future.write`.
    pub fn future_write(
        &mut self,
        guest: u32,
        payload: Payload,
        handle: u32,
        address: u32,
    ) -> Result<ReturnCode, StoreError>
        ensures does { OperatesAmong self.old self.new Writing
            (record { guest = guest; ty = index.Future payload; handle = handle }) address 1 result }
        ensures memory { RunsOutPolling self.old Writing
            (record { guest = guest; ty = index.Future payload; handle = handle }) address 1 result }
    {
        match self.host_across(Side::Writing, guest, handle) {
            Some(number) => {
                let ends = &mut self.ends;
                let answer = self
                    .store
                    .future_write(ends, guest, payload, handle, address);
                self.ends.forget_reader(number as usize);
                answer
            }
            None => {
                let ty = TransmitIndex::Future(payload);
                let end = NamedEnd { guest, ty, handle };
                self.store.operate_or_stay(Side::Writing, &end, address, 1)
            }
        }
    }
}
