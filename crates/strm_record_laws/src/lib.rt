//! Of its host ends a run looks at their types, at what they hold and at the records that are to come, and at
//! nothing else. Laws, no code that runs.
//!
//! Meaning: `Alike.antt`. Ours.
#![tactic(auto)]

ghost use Rattle.std.specs.Prelude.{◌≡◌, List, []};
ghost use Rattle.strm_machine.specs.declared.steps.Step.{Step};
ghost use Rattle.strm_host_machine.specs.World.{World};
ghost use Rattle.strm_host_machine.specs.HostPlays.{host_play};
ghost use Rattle.strm_record_laws.specs.Alike.{AreAlike, ComeOutAlike};

/// From worlds that are alike, runs of the same steps come out alike: with the same replies and the same
/// state, by the same stop, or in want of a record behind the same replies.
pub fn runs_are_alike()
    ensures { (a b : World) (steps : List Step) → AreAlike a b →
        ComeOutAlike (host_play [] a steps) (host_play [] b steps) }
{}
