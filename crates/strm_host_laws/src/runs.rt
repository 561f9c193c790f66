//! The laws, for whichever steps, of a run from an unused store among whichever host ends.
//!
//! Meaning: `HostLaws.antt`, `HostMoments.antt`, and `HostPlays.antt` and `Does.antt` of `strm_host_machine`.
//! Ours.

ghost use Rattle.std.specs.Prelude.{◌≡◌, ℕ, ◌≤◌, List, [], length};
ghost use Rattle.strm_buffers.specs.Tells.{Tells};
ghost use Rattle.strm_machine.specs.declared.limits.Limits.{Limits};
ghost use Rattle.strm_machine.specs.declared.replies.Reply.{Reply};
ghost use Rattle.strm_machine.specs.declared.steps.Step.{Step};
ghost use Rattle.strm_machine.specs.declared.stops.Stop.{Stop};
ghost use Rattle.strm_host_machine.specs.Ends.{Writer, Reader, writer_in, reader_in};
ghost use Rattle.strm_host_machine.specs.World.{World, writer_at, reader_at};
ghost use Rattle.strm_host_machine.specs.HostPlays.{Ends, Halts, host_play};
ghost use Rattle.strm_host_machine.specs.Does.{start_world};
ghost use Rattle.strm_laws.specs.Laws.{AreSteps};
ghost use Rattle.strm_host_laws.specs.HostMoments.{host_moments, first_moments, end_world};
ghost use Rattle.strm_host_laws.specs.Isolation.{AreIsolated};
ghost use Rattle.strm_host_laws.specs.HostLaws.{ClosesExactly, EndsExactly, WriterGoesOn, WriterHalts, Supplies, DeliversAll, ReadersCloseExactly, ReaderGoesOn, ReaderHalts, TellsTaken};

/// The moments of a run lead to where its play ends, from whichever world.
pub fn moments_lead_to_the_end()
    ensures { (first : World) (run : List Step) (replies : List Reply) (end : World) →
        host_play [] first run ≡ Ends replies end → end_world first (host_moments first run) ≡ end }
{}

/// Exactly the host writers that became gone were closed: after whichever steps a host writer is closed
/// where it was closed at first, and where it was an end of a stream and is none any more, and nowhere
/// else. A step that stops closes none, and those tell then that they are gone that were gone before it.
pub fn ends_close_exactly()
    ensures runs { (tag : ℕ) (limits : Limits) (old new : Tells) (run : List Step)
        (replies : List Reply) (end : World) →
        let first = start_world tag limits old new in
        host_play [] first run ≡ Ends replies end → ClosesExactly first end.state end.writers }
    ensures moments { (tag : ℕ) (limits : Limits) (old new : Tells) (run : List Step) (count : ℕ) →
        let first = start_world tag limits old new in
        let moments = first_moments count first run in
        ClosesExactly first (end_world first moments).state (end_world first moments).writers }
    ensures stops { (tag : ℕ) (limits : Limits) (old new : Tells) (run : List Step)
        (replies : List Reply) (stop : Stop) (writers : List Writer) (readers : List Reader) →
        let first = start_world tag limits old new in
        host_play [] first run ≡ Halts replies stop writers readers →
        ClosesExactly first (end_world first (host_moments first run)).state writers }
    ensures gone { (tag : ℕ) (limits : Limits) (old new : Tells) (run : List Step)
        (replies : List Reply) (stop : Stop) (writers : List Writer) (readers : List Reader) →
        let first = start_world tag limits old new in
        host_play [] first run ≡ Halts replies stop writers readers →
        EndsExactly (end_world first (host_moments first run)).state writers }
{}

/// Exactly the host readers that became gone were closed, as for host writers.
pub fn readers_close_exactly()
    ensures runs { (tag : ℕ) (limits : Limits) (old new : Tells) (run : List Step)
        (replies : List Reply) (end : World) →
        let first = start_world tag limits old new in
        host_play [] first run ≡ Ends replies end →
        ReadersCloseExactly first end.state end.readers }
    ensures moments { (tag : ℕ) (limits : Limits) (old new : Tells) (run : List Step) (count : ℕ) →
        let first = start_world tag limits old new in
        let moments = first_moments count first run in
        ReadersCloseExactly first (end_world first moments).state
        (end_world first moments).readers }
    ensures stops { (tag : ℕ) (limits : Limits) (old new : Tells) (run : List Step)
        (replies : List Reply) (stop : Stop) (writers : List Writer) (readers : List Reader) →
        let first = start_world tag limits old new in
        host_play [] first run ≡ Halts replies stop writers readers →
        ReadersCloseExactly first (end_world first (host_moments first run)).state readers }
{}

/// A host writer uses its records in order, each once, and hears exactly the accepted feeds to it, in
/// order, each behind as many records as it had used when it came, and stays of its kind and payload; from
/// whichever world, whatever the steps. Where a step stops, it uses the records of its polls, and hears
/// nothing.
pub fn writers_are_fed_exactly()
    ensures runs { (first : World) (run : List Step) (count : ℕ) (n : ℕ) →
        WriterGoesOn n (first_moments count first run) (writer_at first n)
        (writer_at (end_world first (first_moments count first run)) n) }
    ensures stops { (first : World) (run : List Step) (replies : List Reply) (stop : Stop)
        (writers : List Writer) (readers : List Reader) →
        host_play [] first run ≡ Halts replies stop writers readers →
        (n : ℕ) → WriterHalts (writer_at (end_world first (host_moments first run)) n)
        (writer_in writers n) }
{}

/// A host reader uses its records in order, each once, and hears exactly the accepted grants to it, in order,
/// each behind as many records as it had used when it came, and stays of its kind and payload; from whichever
/// world, whatever the steps. Where a step stops, it uses the records of its polls, and hears nothing.
pub fn readers_are_granted_exactly()
    ensures runs { (first : World) (run : List Step) (count : ℕ) (r : ℕ) →
        ReaderGoesOn r (first_moments count first run) (reader_at first r)
        (reader_at (end_world first (first_moments count first run)) r) }
    ensures stops { (first : World) (run : List Step) (replies : List Reply) (stop : Stop)
        (writers : List Writer) (readers : List Reader) →
        host_play [] first run ≡ Halts replies stop writers readers →
        (r : ℕ) → ReaderHalts (reader_at (end_world first (host_moments first run)) r)
        (reader_in readers r) }
{}

/// On each stream of a host writer, what the writer held when the stream was made and the items of all
/// records that it used are, in order, what was received, each as it lay in the reader's memory just
/// after it was received or as a host reader's records say that it took it, and what is held, while the
/// writer is an end of the stream; from then on what was received comes first of it, and the rest is
/// given up together. As many items were counted, up to the end of the count's type. A future of a host
/// writer passes one item at most, if the writer held no more than one when the future was made.
pub fn producers_deliver_in_order()
    ensures { (tag : ℕ) (limits : Limits) (old new : Tells) (run : List Step) (count s : ℕ) →
        let first = start_world tag limits old new in
        let moments = first_moments count first run in
        ((n : ℕ) → Supplies (writer_at first n)) → length run ≤ 4294967295 →
        DeliversAll s moments (end_world first moments) }
{}

/// What host readers take of a stream are items, each of them. A host reader that got the read end of a
/// stream has taken, behind what it held at first, exactly the items that left the writes there, in order,
/// each as it lay in its guest's memory just before it was taken, or the front of what the stream's host
/// writer held and produced: so what it tells is what was taken.
pub fn readers_tell_what_they_took()
    ensures { (tag : ℕ) (limits : Limits) (old new : Tells) (run : List Step) (count s r : ℕ) →
        let first = start_world tag limits old new in
        let moments = first_moments count first run in
        AreSteps run →
        TellsTaken s r moments (reader_at first r) (reader_at (end_world first moments) r) }
{}

/// Streams are isolated: the codes answered for a stream are those of its kind and of its own events,
/// whatever is done to other streams between them, refused or not; and a moment that is no event of a
/// stream leaves it whole, with what its host ends hold and what is kept of them. Up to its stop in a run
/// that stops.
pub fn streams_are_isolated()
    ensures { (tag : ℕ) (limits : Limits) (old new : Tells) (run : List Step) (count : ℕ) →
        let first = start_world tag limits old new in
        let moments = first_moments count first run in
        AreIsolated moments (end_world first moments) }
{}
