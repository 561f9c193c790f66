//! The limits of a store.

/// How much a store may keep. Ours, but for `handles`: wasmtime, `HandleCounter`.
#[derive(Clone, Copy)]
pub struct Limits {
    /// Live handles of all guests together.
    pub handles: usize,
    /// Places: a stream takes three, a waitable set and an error context one each.
    pub places: u32,
}
