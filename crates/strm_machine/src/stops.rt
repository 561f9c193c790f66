//! Why a step stops a run.
//!
//! Source: ours; wasmtime traps the guest that it polls for.

use crate::streams::HostEnd;

/// Why a step stopped. The store is trapped from then on.
#[derive(Clone, Copy)]
pub enum Stop {
    /// A host end failed.
    HostFailed { end: HostEnd },
    /// A host end broke its rules.
    HostBroke { end: HostEnd },
    /// An item of this stream that was asked for is no Unicode scalar value.
    BadItem { stream: u32 },
    /// An earlier step stopped.
    StoreTrapped,
}
