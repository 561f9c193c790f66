//! What the laws of `strm_laws` and `strm_host_laws` say of every run of a list of steps.
//!
//! Source: ours.

ghost use Rattle.std.specs.Prelude.{◌≡◌, ◌∷◌, ◌++◌, [], List, ℕ};
ghost use Rattle.strm_machine.specs.declared.steps.Step.{Step};
ghost use Rattle.strm_machine.specs.declared.replies.Reply.{Reply};
ghost use Rattle.strm_machine.specs.Moments.{moment_of};
ghost use Rattle.strm_laws.specs.Starts.{run_start};
ghost use Rattle.strm_machine.specs.Untouched.{StaysAside, LieThere};
ghost use Rattle.strm_laws.specs.Conservation.{moments, state_after_steps};
ghost use Rattle.strm_laws.specs.Laws.{AreSteps};
ghost use Rattle.strm_host_machine.specs.World.{World, writer_at, reader_at};
ghost use Rattle.strm_host_machine.specs.Ends.{Writer, Reader, writer_in, reader_in};
ghost use Rattle.strm_host_machine.specs.HostPlays.{host_play as play_among, Ends as EndsAmong, Halts as HaltsAmong};
ghost use Rattle.strm_machine.specs.declared.stops.Stop.{Stop};
ghost use Rattle.strm_host_laws.specs.HostLaws.{ClosesExactly, EndsExactly, WriterHalts, ReadersCloseExactly, ReaderHalts};
ghost use Rattle.strm_host_laws.specs.HostMoments.{host_moments, end_world};
ghost use Rattle.strm_buffers.specs.Tells.{Tells};
ghost use Rattle.strm_session.specs.Runs.{start_among, HasLaws, HasLawsFirst};

use strm_host_laws::{guests, runs};
use strm_laws::laws::{
    bytes_are_put, conservation, contexts_count_their_handles, futures_pass_one,
    handles_hold_their_ends, members_are_live, never_two_open, other_bytes_stay, states_are_sound,
    totals_are_counts, unmet_has_moved_none,
};

// What the laws say of every run. It does nothing.
pub(crate) fn laws_hold()
    ensures laws { (steps : List Step) → AreSteps steps →
        HasLaws (moments run_start steps) (state_after_steps run_start steps) }
    ensures aside { (steps : List Step) (step : Step) → AreSteps (steps ++ step ∷ []) →
        StaysAside (moment_of (state_after_steps run_start steps) step) }
    ensures put { (steps : List Step) (step : Step) → AreSteps (steps ++ step ∷ []) →
        LieThere (moment_of (state_after_steps run_start steps) step) }
{
    conservation();
    futures_pass_one();
    never_two_open();
    unmet_has_moved_none();
    totals_are_counts();
    states_are_sound();
    handles_hold_their_ends();
    members_are_live();
    contexts_count_their_handles();
    other_bytes_stay();
    bytes_are_put();
}

// What the laws say of every run among host ends. It does nothing.
pub(crate) fn laws_hold_among()
    ensures laws { (old new : Tells) (steps : List Step) → AreSteps steps → (count : ℕ) →
        HasLawsFirst count (start_among old new) steps }
    ensures leads { (old new : Tells) (steps : List Step) (replies : List Reply) (end : World) →
        play_among [] (start_among old new) steps ≡ EndsAmong replies end →
        end_world (start_among old new) (host_moments (start_among old new) steps) ≡ end }
    ensures writers { (old new : Tells) (steps : List Step) (replies : List Reply) (stop : Stop)
        (writers : List Writer) (readers : List Reader) →
        play_among [] (start_among old new) steps ≡ HaltsAmong replies stop writers readers →
        ClosesExactly (start_among old new)
        (end_world (start_among old new) (host_moments (start_among old new) steps)).state writers }
    ensures readers { (old new : Tells) (steps : List Step) (replies : List Reply) (stop : Stop)
        (writers : List Writer) (readers : List Reader) →
        play_among [] (start_among old new) steps ≡ HaltsAmong replies stop writers readers →
        ReadersCloseExactly (start_among old new)
        (end_world (start_among old new) (host_moments (start_among old new) steps)).state readers }
    ensures gone { (old new : Tells) (steps : List Step) (replies : List Reply) (stop : Stop)
        (writers : List Writer) (readers : List Reader) →
        play_among [] (start_among old new) steps ≡ HaltsAmong replies stop writers readers →
        EndsExactly
        (end_world (start_among old new) (host_moments (start_among old new) steps)).state writers }
    ensures fed { (old new : Tells) (steps : List Step) (replies : List Reply) (stop : Stop)
        (writers : List Writer) (readers : List Reader) →
        play_among [] (start_among old new) steps ≡ HaltsAmong replies stop writers readers →
        (n : ℕ) →
        WriterHalts
        (writer_at (end_world (start_among old new) (host_moments (start_among old new) steps)) n)
        (writer_in writers n) }
    ensures granted { (old new : Tells) (steps : List Step) (replies : List Reply) (stop : Stop)
        (writers : List Writer) (readers : List Reader) →
        play_among [] (start_among old new) steps ≡ HaltsAmong replies stop writers readers →
        (r : ℕ) →
        ReaderHalts
        (reader_at (end_world (start_among old new) (host_moments (start_among old new) steps)) r)
        (reader_in readers r) }
{
    runs::moments_lead_to_the_end();
    runs::ends_close_exactly();
    runs::readers_close_exactly();
    runs::writers_are_fed_exactly();
    runs::readers_are_granted_exactly();
    runs::readers_tell_what_they_took();
    runs::producers_deliver_in_order();
    runs::streams_are_isolated();
    guests::conservation();
    guests::conservation_among();
    guests::futures_pass_one();
    guests::never_two_open();
    guests::unmet_has_moved_none();
    guests::unmet_moves_by_host_ends();
    guests::totals_are_counts();
    guests::other_bytes_stay();
    guests::bytes_are_put();
    guests::states_are_sound();
    guests::handles_hold_their_ends();
    guests::members_are_live();
    guests::contexts_count_their_handles();
}
