//! What wakes the threads that wait. It carries no claim.
//!
//! Ours.

use std::hint::spin_loop;
use std::sync::atomic::{AtomicU64, Ordering};
use std::sync::{Condvar, Mutex, Wait};

/// How often a thread looks whether the bell has rung, before it sleeps: some tens of microseconds. A
/// thread that is woken takes as long to run again.
const LOOKS: u32 = 1_000;

/// A bell, for threads that wait until something happened.
#[derive(Drop)]
pub struct Bell {
    // How many threads listen: nobody rings for none.
    listeners: AtomicU64,
    rings: AtomicU64,
    // How many of them sleep: none is woken where none does.
    sleepers: AtomicU64,
    gate: Mutex<u64>,
    rung: Condvar,
}

impl Bell {
    // A bell that nobody hears yet.
    pub(crate) fn new() -> Bell {
        Bell {
            listeners: AtomicU64::new(0),
            rings: AtomicU64::new(0),
            sleepers: AtomicU64::new(0),
            gate: Mutex::new(0),
            rung: Condvar::new(),
        }
    }

    // What a thread remembers before it looks. It ends with `wait_past`, `forget` or `wait_if`. A ring between
    // this and the wait is heard: whoever rings asks for listeners after what it did.
    pub(crate) fn now(&self) -> u64 {
        self.listeners.fetch_add(1, Ordering::SeqCst);
        self.rings.load(Ordering::SeqCst)
    }

    // The thread need not wait.
    pub(crate) fn forget(&self) {
        self.listeners.fetch_sub(1, Ordering::SeqCst);
    }

    // Waits until it has rung since `heard`, if the thread is to look again then.
    pub(crate) fn wait_if<R: Wait>(&self, rt: &R, heard: u64, again: bool) {
        if again {
            self.wait_past(rt, heard);
        } else {
            self.forget();
        }
    }

    // Wakes all that wait.
    pub(crate) fn ring<R: Wait>(&self, rt: &R) {
        if self.listeners.load(Ordering::SeqCst) == 0 {
            return;
        }
        self.rings.fetch_add(1, Ordering::SeqCst);
        if self.sleepers.load(Ordering::SeqCst) == 0 {
            return;
        }
        // Whoever sleeps by now has let the gate go, and whoever is about to looks again behind it.
        drop(self.gate.lock(rt));
        self.rung.notify_all();
    }

    // Waits until it has rung since `heard`: it looks for a while, and then it sleeps.
    pub(crate) fn wait_past<R: Wait>(&self, rt: &R, heard: u64) {
        if !self.has_rung(heard) {
            self.sleepers.fetch_add(1, Ordering::SeqCst);
            self.sleep(rt, heard);
            self.sleepers.fetch_sub(1, Ordering::SeqCst);
        }
        self.forget();
    }

    // Whether it rings within a while.
    fn has_rung(&self, heard: u64) -> bool {
        for _ in 0..LOOKS {
            if self.rings.load(Ordering::SeqCst) != heard {
                return true;
            }
            spin_loop();
        }
        false
    }

    fn sleep<R: Wait>(&self, rt: &R, heard: u64) {
        let _gate = self.rung.wait_while(rt, self.gate.lock(rt), |_| {
            self.rings.load(Ordering::SeqCst) == heard
        });
    }
}
