//! What an offer lends.
//!
//! Source: ours.

use crate::items::Items;
use strm_memory::memories::GuestMemory;

/// The items that an offer was made of.
#[derive(Drop)]
pub enum Source {
    /// So many items of a memory, from an address on.
    Region {
        memory: GuestMemory,
        address: u32,
        count: u32,
    },
    /// A list of items.
    Listed {
        items: Items,
    },
}
