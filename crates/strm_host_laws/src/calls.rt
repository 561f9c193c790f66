//! What holds of every call that is a step of the machine with host ends.
//!
//! Meaning: `Releasing.antt` and `Does.antt` of `strm_host_machine`. Ours.

ghost use Rattle.std.specs.Prelude.{◌≡◌, Ok};
ghost use Rattle.strm_buffers.specs.Tells.{Tells};
ghost use Rattle.strm_machine.specs.State.{State};
ghost use Rattle.strm_machine.specs.Reactions.{reaction};
ghost use Rattle.strm_machine.specs.declared.acts.Act.{Act};
ghost use Rattle.strm_machine.specs.declared.replies.Reply.{Reply};
ghost use Rattle.strm_host_machine.specs.Releasing.{KnowsHeld};
ghost use Rattle.strm_host_machine.specs.Steps.{outcome};
ghost use Rattle.strm_host_machine.specs.Does.{Does};

/// A store that knows which of its host writers hold items knows it after every call that answers or
/// refuses: one with host ends, and one that touches none. A store that a call trapped need not.
pub fn what_is_held_stays_known()
    ensures hosted { (old new : State) (tells told : Tells) (reply : Reply) (act : Act) →
        Does old new tells told (Ok reply) (λ world. outcome world act) →
        KnowsHeld old tells → KnowsHeld new told }
    ensures alone { (old : State) (tells : Tells) (act : Act) →
        KnowsHeld old tells → KnowsHeld (reaction old act).state tells }
{}
