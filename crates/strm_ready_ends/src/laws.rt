//! What holds of ready host ends, whatever is done with them: nothing is lost, made up or passed twice, all is in
//! order, and no rule of host ends is broken. Laws, no code that runs.
//!
//! Meaning: `Runs.antt`, and `HostRules.antt` of `strm_buffers`. Ours.

ghost use Rattle.std.specs.Prelude.{◌≡◌, ◌≢◌, ℕ, Bool, true, false, List, ◌++◌, Option};
ghost use Rattle.strm_buffers.specs.HostRules.{breaks_as_writer, breaks_as_reader};
ghost use Rattle.strm_buffers.specs.Offers.{Offered};
ghost use Rattle.strm_buffers.specs.Tells.{reader_record};
ghost use Rattle.strm_buffers.specs.declared.answers.Answer.{Answer};
ghost use Rattle.strm_buffers.specs.declared.answers.Answer.TheVariants.{Failed};
ghost use Rattle.strm_ready_ends.specs.ReceiveQueues.{ReceiveQueue, Takes};
ghost use Rattle.strm_ready_ends.specs.Runs.{WriterCall, after_calls, all_fed, all_given, ReaderCall, reader_after_calls, all_taken, all_collected};
ghost use Rattle.strm_ready_ends.specs.SendQueues.{SendQueue, empty_record, is_future};

/// What a ready host writer held and was fed is, in order, what it gave and what it holds, whatever else is done
/// with it, as long as its stream is there.
pub fn what_was_fed_is_given_in_order()
    ensures { (queue : SendQueue) (calls : List WriterCall) → queue.items ++ all_fed calls
        ≡ all_given queue calls ++ (after_calls queue calls).items }
{}

/// What a ready host reader kept and took is, in order, what was collected of it and what it keeps, whatever else
/// is done with it.
pub fn what_was_taken_is_collected_in_order()
    ensures { (queue : ReceiveQueue) (calls : List ReaderCall) → queue.items ++ all_taken calls
        ≡ all_collected queue calls ++ (reader_after_calls queue calls).items }
{}

/// No ready host end fails, and none breaks a rule that host ends owe: so no store is trapped by one. The reader of
/// a future is offered its item with none taken since it was ready, since it is ready again with each that it takes.
pub fn no_rule_is_broken()
    ensures writers { (queue : SendQueue) (room : Option ℕ) (finish : Bool) →
        breaks_as_writer queue.kind (empty_record queue room finish) ≡ false }
    ensures no_writer_fails { (queue : SendQueue) (room : Option ℕ) (finish : Bool) →
        (empty_record queue room finish).answer ≢ Failed }
    ensures readers { (old new : ReceiveQueue) (before after : Offered) (finish : Bool)
        (answer : Answer) → Takes old new before after finish answer →
        (is_future old.kind ≡ true → before.since ≡ 0) →
        breaks_as_reader old.kind (reader_record before after finish answer) ≡ false }
    ensures no_reader_fails { (old new : ReceiveQueue) (before after : Offered) (finish : Bool)
        (answer : Answer) → Takes old new before after finish answer → answer ≢ Failed }
{}
