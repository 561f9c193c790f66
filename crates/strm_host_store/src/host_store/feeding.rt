//! What a host does with its ends between steps: it feeds and ends a writer; it grants a reader items, collects them,
//! and lets it want no more. The machine's state stays: a guest that waits is served by `drive`.
//!
//! Meaning: `Feeding.antt`. Ours.

ghost use Rattle.std.specs.Prelude.{◌*◌, ◌≤◌, length};
ghost use Rattle.strm_codes.specs.Layout.{item_type};
ghost use Rattle.strm_codes.specs.ItemTypes.{item_size};
ghost use Rattle.strm_host_store.specs.HostStates.{reader_of};
ghost use Rattle.strm_host_store.specs.Feeding.{FeedsWriter, EndsWriter, GrantsReader, CollectsOf, FinishesReader};

use crate::errors::{FinishError, HostFeedError, HostGrantError, UnknownHost};
use crate::host_store::HostStore;

#[tactic(auto, using(crate::proofs::FitLemmas::writer_fits, crate::proofs::FitLemmas::reader_fits))]
impl HostStore {
    /// Feeds a host writer so many items, which these bytes are, one behind the other in the layout of the Canonical
    /// ABI: they are held behind those that it was fed before, until a read has them.
    pub fn feed(&mut self, writer: u32, items: &[u8], count: u32) -> Result<(), HostFeedError>
        ensures feeds { FeedsWriter self.old self.new writer items.now count result }
    {
        if writer as usize >= self.ends.writers.len() {
            return Err(HostFeedError::UnknownHost);
        }
        match self.ends.writers[writer as usize].feed_items(items, count) {
            Ok(()) => Ok(()),
            Err(error) => Err(HostFeedError::Refused(error)),
        }
    }

    /// No more will come of a host writer: a read is told Dropped once it has all. A future ends by its item alone.
    /// Answers whether it is ended.
    pub fn end(&mut self, writer: u32) -> Result<bool, UnknownHost>
        ensures ends { EndsWriter self.old self.new writer result }
    {
        if writer as usize >= self.ends.writers.len() {
            return Err(UnknownHost);
        }
        Ok(self.ends.writers[writer as usize].end())
    }

    /// Lets a host reader take so many items more, and takes the memory for them.
    pub fn grant(&mut self, reader: u32, count: u32) -> Result<(), HostGrantError>
        ensures grants { GrantsReader self.old self.new reader count result }
    {
        if reader as usize >= self.ends.readers.len() {
            return Err(HostGrantError::UnknownHost);
        }
        match self.ends.readers[reader as usize].grant_items(count) {
            Ok(()) => Ok(()),
            Err(error) => Err(HostGrantError::Refused(error)),
        }
    }

    /// Writes the first items that a host reader keeps over bytes from their front on, at most so many, and gives them
    /// up: how many. Padding stays as it was. `reader_payload` tells how many bytes an item takes.
    pub fn collect(&mut self, reader: u32, items: &mut [u8], most: u32) -> Result<u32, UnknownHost>
        requires { item_size (item_type (reader_of self.old reader).payload) * most
            ≤ length items.old }
        ensures collects { CollectsOf self.old self.new reader items.old items.new most result }
    {
        if reader as usize >= self.ends.readers.len() {
            return Err(UnknownHost);
        }
        Ok(self.ends.readers[reader as usize].collect(items, most))
    }

    /// A host reader wants no more: the write that waits, and each from then on, is told Dropped by its next turn. The
    /// reader of a future still takes its one item.
    pub fn finish(&mut self, reader: u32) -> Result<(), FinishError>
        ensures finishes { FinishesReader self.old self.new reader result }
    {
        if reader as usize >= self.ends.readers.len() {
            return Err(FinishError::UnknownHost);
        }
        match self.ends.readers[reader as usize].finish() {
            Ok(()) => Ok(()),
            Err(_) => Err(FinishError::OutOfMemory),
        }
    }
}
