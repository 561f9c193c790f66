//! The counter of live handles, which many tables share.
//!
//! Source: wasmtime, `handle_table.rs`, `HandleCounter`.

ghost use Rattle.std.specs.Prelude.{◌≡◌, ◌<◌, ◌≤◌, ◌↔◌, IsTrue};
ghost use Rattle.std.specs.Bool.{OnFalse};
ghost use Rattle.strm_handles.specs.Counters.{counted, uncounted};

use std::marker::Model;

/// How many handles are live, and how many may be. Live are the occupied slots of all tables that
/// count here, and all open lends.
#[derive(Debug, Drop)]
pub struct HandleCounter {
    limit: usize,
    live: usize,
}

impl Model for HandleCounter {
    ghost use Rattle.strm_handles.specs.Counters.{Counter};

    ghost Value = { Counter };

    ghost view = { λ c. record { limit = c.limit; live = c.live } };
}

impl HandleCounter {
    /// No handle is live, and so many may be.
    pub fn new(limit: usize) -> HandleCounter
        ensures { result ≡ record { limit = limit; live = 0 } }
    {
        HandleCounter { limit, live: 0 }
    }

    /// How many handles may be live.
    pub fn limit(&self) -> usize
        ensures { result ≡ self.now.limit }
    {
        self.limit
    }

    /// A limit below the live handles ends none of them, but no more are made.
    pub fn set_limit(&mut self, limit: usize)
        ensures { self.new ≡ record self.old { limit = limit } }
    {
        self.limit = limit;
    }

    /// How many handles are live. Ours.
    pub fn live(&self) -> usize
        ensures { result ≡ self.now.live }
    {
        self.live
    }

    /// No more handles may be made now.
    pub(crate) fn is_full(&self) -> bool
        ensures full { IsTrue result ↔ (self.now.limit ≤ self.now.live) }
        ensures room { OnFalse result (self.now.live < usize.MAX) }
    {
        self.live >= self.limit
    }

    pub(crate) fn count(&mut self)
        requires { self.old.live < usize.MAX }
        ensures { self.new ≡ counted self.old }
    {
        self.live += 1;
    }

    pub(crate) fn uncount(&mut self)
        requires { 0 < self.old.live }
        ensures { self.new ≡ uncounted self.old }
    {
        self.live -= 1;
    }
}
