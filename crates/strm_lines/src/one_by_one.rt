//! Steps that are given one by one, and replies that are kept one by one: between them a run stands.
//!
//! Source: ours.

ghost use Rattle.std.specs.Prelude.{◌≡◌, ◌<◌, ◌∷◌, ◌++◌, ℕ, List, [], length, OnOk, OnErr};
ghost use Rattle.strm_machine.specs.declared.replies.Reply.{Reply};
ghost use Rattle.strm_machine.specs.declared.steps.Step.{Step};

use strm_codes::counts::OutOfMemory;
use strm_machine::replies::Reply;
use strm_machine::steps::Step;

/// Takes steps, one behind the other.
pub trait TakesSteps {
    // The steps that it took.
    ghost steps: { Self → List Step };

    // How many more it surely takes.
    ghost room: { Self → ℕ };

    /// Asks at once for room for so many steps more, where it can.
    fn reserve(&mut self, additional: usize) -> Result<(), OutOfMemory>
        ensures { steps self.new ≡ steps self.old };

    /// Makes room for a step.
    fn make_room(&mut self) -> Result<(), OutOfMemory>
        ensures same { steps self.new ≡ steps self.old }
        ensures ok { OnOk result (0 < room self.new) };

    /// Takes a step, for which there is room.
    fn take(&mut self, step: Step)
        requires { 0 < room self.old }
        ensures { steps self.new ≡ steps self.old ++ step ∷ [] };
}

/// Gives the steps of a list, one by one.
pub trait GivesSteps {
    // The steps that it has not given.
    ghost left: { Self → List Step };

    /// How many steps it has not given.
    fn len(&self) -> usize
        ensures { result ≡ length (left self.now) };

    /// Puts the next step into a place: a step is long, and is not moved.
    fn put_next(&mut self, step: &mut Step)
        requires { 0 < length (left self.old) }
        ensures { left self.old ≡ step.new ∷ left self.new };
}

/// Keeps the replies of a run, one by one, in a form of its own.
pub trait KeepsReplies {
    // These are the replies that it keeps.
    ghost keeps: { Self → List Reply → Type 0 };

    /// Keeps a reply behind the others, which are less than 4,294,967,295.
    fn keep(&mut self, reply: &Reply) -> Result<(), OutOfMemory>
        requires few { (told : List Reply) × keeps self.old told × (length told < 4294967295) }
        ensures ok { (told : List Reply) → keeps self.old told →
            OnOk result (keeps self.new (told ++ reply.now ∷ [])) }
        ensures err { (told : List Reply) → keeps self.old told →
            OnErr result (keeps self.new told) };
}
