//! What is asked of host ends: what a writer holds and whether it takes more, what a reader keeps, how much more it may
//! take, and whether more can come.
//!
//! Meaning: `Feeding.antt`. Ours: the calls, which change nothing.

ghost use Rattle.std.specs.Prelude.{◌≡◌, ◌<◌, ◌↔◌, length, IsSome, IfSome};
ghost use Rattle.strm_ready_ends.specs.SendQueues.{is_shut};
ghost use Rattle.strm_host_store.specs.HostStates.{writer_of, reader_of};
ghost use Rattle.strm_host_store.specs.Feeding.{HeldOf, KeptOf};

use crate::host_store::HostStore;
use strm_buffers::readers::HostReader;
use strm_buffers::writers::HostWriter;
use strm_codes::payloads::Payload;

impl HostStore {
    /// How many items a host writer holds, which no read had yet; none where no host writer has the number.
    pub fn held(&self, writer: u32) -> Option<u32>
        ensures held { HeldOf self.now writer result }
    {
        if writer as usize >= self.ends.writers.len() {
            return None;
        }
        Some(self.ends.writers[writer as usize].held() as u32)
    }

    /// Whether a host writer takes no more: it was ended, or its stream is gone; none where no host writer has the
    /// number.
    pub fn is_shut(&self, writer: u32) -> Option<bool>
        ensures there { IsSome result ↔ (writer < length self.now.writers) }
        ensures exact { IfSome result (λ shut. shut ≡ is_shut (writer_of self.now writer)) }
    {
        if writer as usize >= self.ends.writers.len() {
            return None;
        }
        Some(self.ends.writers[writer as usize].is_shut())
    }

    /// How many items a host reader keeps, to be collected; none where no host reader has the number.
    pub fn kept(&self, reader: u32) -> Option<u32>
        ensures kept { KeptOf self.now reader result }
    {
        if reader as usize >= self.ends.readers.len() {
            return None;
        }
        Some(self.ends.readers[reader as usize].kept() as u32)
    }

    /// What one item of a host reader is; none where no host reader has the number.
    pub fn reader_payload(&self, reader: u32) -> Option<Payload>
        ensures there { IsSome result ↔ (reader < length self.now.readers) }
        ensures exact { IfSome result (λ payload. payload ≡ (reader_of self.now reader).payload) }
    {
        if reader as usize >= self.ends.readers.len() {
            return None;
        }
        Some(self.ends.readers[reader as usize].payload())
    }

    /// How many items more a host reader may take; none where no host reader has the number.
    pub fn credit(&self, reader: u32) -> Option<u32>
        ensures there { IsSome result ↔ (reader < length self.now.readers) }
        ensures exact { IfSome result (λ credit. credit ≡ (reader_of self.now reader).credit) }
    {
        if reader as usize >= self.ends.readers.len() {
            return None;
        }
        Some(self.ends.readers[reader as usize].credit())
    }

    /// Whether the stream of a host reader is gone: what it keeps is the last of it; none where no host reader has the
    /// number.
    pub fn is_closed(&self, reader: u32) -> Option<bool>
        ensures there { IsSome result ↔ (reader < length self.now.readers) }
        ensures exact { IfSome result (λ closed. closed ≡ (reader_of self.now reader).closed) }
    {
        if reader as usize >= self.ends.readers.len() {
            return None;
        }
        Some(self.ends.readers[reader as usize].is_closed())
    }
}
