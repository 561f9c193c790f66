//! Host ends are made: a host writer with its stream, a host reader of a loose read end.
//!
//! Meaning: `Hosting.antt`, and `Attaching.antt` of `strm_host_machine`. Source: wasmtime, `StreamReader::new`,
//! `FutureReader::new`, `StreamReader::pipe` and `FutureReader::pipe`.

ghost use Rattle.std.specs.Prelude.{◌≡◌, Err};
ghost use Rattle.strm_codes.specs.Types.{kind_of, payload_of};
ghost use Rattle.strm_codes.specs.declared.refusals.Refusal.TheVariants.{UnknownReader};
ghost use Rattle.strm_transmit.specs.Meets.{admitted};
ghost use Rattle.strm_host_store.specs.Hosting.{MakesWriter, MakesReaderOf, MakesReader};

use crate::host_store::HostStore;
use strm_codes::codes::TransmitIndex;
use strm_codes::refusals::Refusal;
use strm_ready_ends::ready_readers::ReadyReader;
use strm_ready_ends::ready_writers::ReadyWriter;
use strm_transmit::errors::StoreError;

/// How many host writers a store has at most, and how many host readers: as many as have numbers.
const MOST_NUMBERS: usize = 4_294_967_295;

/// A host end, by its number among those of its side, and the stream that it is an end of.
#[derive(Clone, Copy, Debug, PartialEq, Eq)]
pub struct Hosted {
    pub host: u32,
    pub stream: u32,
}

impl HostStore {
    /// A host writer of a stream or future of this type. The read end is loose: for a guest (`lower`), or for a host
    /// reader. Refused, in this order: UnknownHost (64 host writers were made), Full. OutOfMemory, where no refusal is
    /// looked for.
    pub fn host_writer(&mut self, ty: TransmitIndex) -> Result<Hosted, StoreError>
        ensures makes { MakesWriter self.old self.new (kind_of ty) (payload_of ty) result }
    {
        if self.ends.writers.len() >= MOST_NUMBERS {
            return Err(StoreError::OutOfMemory);
        }
        let host = self.ends.writers.len() as u32;
        let writer = ReadyWriter::new(self.alloc, ty.kind(), ty.payload());
        match self.ends.writers.push(writer) {
            Ok(()) => {}
            Err(_) => return Err(StoreError::OutOfMemory),
        }
        match self.store.host_new(&self.ends, host) {
            Ok(stream) => Ok(Hosted { host, stream }),
            Err(error) => {
                self.ends.writers.truncate(host as usize);
                Err(error)
            }
        }
    }

    /// The loose read end of a stream or future goes to a host reader of its type. Where a host writer has the write
    /// end, items go from one to the other (`drive`). Refused, in this order: UnknownReader (no end of the stream is
    /// there), UnknownHost (64 host readers were made), UnknownReader. OutOfMemory, where no refusal is looked for.
    pub fn host_reader(&mut self, stream: u32) -> Result<Hosted, StoreError>
        ensures makes { MakesReader self.old self.new stream result }
    {
        let Some(ty) = self.store.transmit_index(stream) else {
            return Err(self.unknown_reader());
        };
        self.host_reader_of(stream, ty)
    }

    // No stream of some number has a loose read end; a trapped store answers so.
    fn unknown_reader(&self) -> StoreError
        ensures { Err result ≡ admitted {T = Unit {0}} self.now.state (Err UnknownReader) }
    {
        if self.store.trapped() {
            StoreError::StoreTrapped
        } else {
            StoreError::Refused(Refusal::UnknownReader)
        }
    }

    // The same of a stream of which an end is there, which is of this type.
    fn host_reader_of(&mut self, stream: u32, ty: TransmitIndex) -> Result<Hosted, StoreError>
        ensures makes { MakesReaderOf self.old self.new (kind_of ty) (payload_of ty) stream result }
    {
        if self.ends.readers.len() >= MOST_NUMBERS {
            return Err(StoreError::OutOfMemory);
        }
        let host = self.ends.readers.len() as u32;
        let reader = ReadyReader::new(self.alloc, ty.kind(), ty.payload());
        match self.ends.readers.push(reader) {
            Ok(()) => {}
            Err(_) => return Err(StoreError::OutOfMemory),
        }
        match self.store.pipe(&mut self.ends, stream, host) {
            Ok(()) => Ok(Hosted { host, stream }),
            Err(error) => {
                self.ends.readers.truncate(host as usize);
                Err(error)
            }
        }
    }
}
