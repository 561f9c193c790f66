//! A value that is sent later.
//!
//! Source: ours. It stands for a Rust future, as the receiver of a one-shot channel does.

ghost use Rattle.std.specs.Prelude.{◌≡◌, ◌≢◌, ◌↔◌, IsErr, IfErr, OnOk, OnErr};
ghost use Rattle.strm_host.specs.Turnings.{with_value, lost};

use crate::futures::FutureProducer;
use std::mem;
use strm_buffers::answers::Turn;
use strm_memory::payloaded::Payloaded;

// How far a value has come.
#[derive(Drop)]
enum Progress<T> {
    // It was not sent yet.
    Pending,
    // It was sent, and is to be given.
    Ready(T),
    // It was given or lost.
    Over,
}

/// A value that is sent later, or lost.
#[derive(Drop)]
pub struct Turning<T> {
    progress: Progress<T>,
    // How many polls found it given or lost; it stands still at 2^64 - 1.
    faults: u64,
}

impl<T: Drop> Turning<T> {
    /// No value was sent yet.
    pub fn pending() -> Turning<T>
        ensures { result ≡ record { progress = Progress.Pending; faults = 0 } }
    {
        Turning {
            progress: Progress::Pending,
            faults: 0,
        }
    }

    /// This value was sent.
    pub fn ready(value: T) -> Turning<T>
        ensures { result ≡ record { progress = Progress.Ready value; faults = 0 } }
    {
        Turning {
            progress: Progress::Ready(value),
            faults: 0,
        }
    }

    /// Sends the value. Where one was sent or lost before, this one comes back and nothing changed.
    pub fn send(&mut self, value: T) -> Result<(), T>
        ensures refused { IsErr result ↔ (self.old.progress ≢ Progress.Pending) }
        ensures sent { OnOk result (self.new ≡ with_value self.old value) }
        ensures back { IfErr result (λ returned. returned ≡ value) }
        ensures err { OnErr result (self.new ≡ self.old) }
    {
        match self.progress {
            Progress::Pending => {
                self.progress = Progress::Ready(value);
                Ok(())
            }
            _ => Err(value),
        }
    }

    /// The value is lost, sent or not.
    pub fn lose(&mut self)
        ensures { self.new ≡ lost self.old }
    {
        self.progress = Progress::Over;
    }
}

impl<T: Payloaded> FutureProducer for Turning<T> {
    ghost use Rattle.std.specs.Prelude.{◌≤◌, Some};
    ghost use Rattle.strm_codes.specs.Counters.{Rose};
    ghost use Rattle.strm_host.specs.Futures.{IfFailed};
    ghost use Rattle.strm_host.specs.Turnings.{answer_of, after_poll};

    type Item = T;

    ghost faults = { λ turning. turning.faults };

    ghost plan = { λ turning. Some (answer_of turning.progress) };

    ghost leaves = { λ old finish new. new ≡ after_poll old.progress old.faults };

    fn poll_produce(&mut self, finish: bool) -> Turn<Option<T>>
        ensures later { self.old.faults ≤ self.new.faults }
        ensures failed { IfFailed result (Rose self.old.faults self.new.faults) }

        // All that it does.
        ensures answer { result ≡ answer_of self.old.progress finish }
        ensures after { self.new ≡ after_poll self.old.progress self.old.faults }
    {
        match self.progress {
            Progress::Pending => {
                if finish {
                    Turn::Ready(None)
                } else {
                    Turn::Pending
                }
            }
            Progress::Ready(value) => {
                self.progress = Progress::Over;
                Turn::Ready(Some(value))
            }
            Progress::Over => {
                self.faults = self.faults.saturating_add(1);
                Turn::Failed
            }
        }
    }
}
