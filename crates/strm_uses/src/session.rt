//! A run: a list of steps of guests, and what is known of it.

ghost use Rattle.std.specs.Prelude.{◌≡◌, ◌≤◌, ℕ, length, IfOk};
ghost use Rattle.strm_codes.specs.declared.codes.TransmitKind.TheVariants.{Future};
ghost use Rattle.strm_laws.specs.Conservation.{got, moments, replies_of, state_after_steps};
ghost use Rattle.strm_laws.specs.Laws.{Conserves};
ghost use Rattle.strm_machine.specs.State.{stream_at};
ghost use Rattle.strm_laws.specs.Starts.{run_start};
ghost use Rattle.strm_session.specs.Runs.{AreOfGuests, received_counts};

use std::alloc::Global;
use strm_buffers::hosts::Hosts;
use strm_machine::steps::Step;
use strm_session::runs::{RunStop, Transcript, run};

/// Runs steps of guests alone on a new store.
pub fn run_guests(alloc: Global, steps: &[Step]) -> Result<Transcript, RunStop>
    requires few { length steps.now ≤ 4294967295 }
    requires guests { AreOfGuests steps.now }
    ensures replies { IfOk result (λ t. t.replies ≡ replies_of (moments run_start steps.now)) }
    ensures counts { IfOk result (λ t.
        t.moved ≡ received_counts (state_after_steps run_start steps.now)) }
    ensures conserves { IfOk result (λ t. (s : ℕ) →
        Conserves s (moments run_start steps.now) (state_after_steps run_start steps.now)) }
    ensures passes_one { IfOk result (λ t. (s : ℕ) → (stream_at t.store s).kind ≡ Future →
        length (got s (moments run_start steps.now)) ≤ 1) }
{
    let mut hosts = Hosts {
        writers: Vec::new(alloc),
        readers: Vec::new(alloc),
    };
    let transcript = run(alloc, steps, &mut hosts)?;
    Ok(transcript)
}
