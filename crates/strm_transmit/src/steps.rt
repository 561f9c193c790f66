//! One step, done on a store and its host ends.
//!
//! Meaning: `step_of` of `Steps.antt` of `strm_host_machine`. Ours.

ghost use Rattle.std.specs.Prelude.{◌≡◌, ◌≢◌, ◌≤◌, false, Err, IfOk, IfErr, IfSome, IsTrue};
ghost use Rattle.strm_codes.specs.declared.refusals.Refusal.{Refusal};
ghost use Rattle.strm_machine.specs.Acts.{act_of};
ghost use Rattle.strm_machine.specs.Reactions.{reaction};
ghost use Rattle.strm_machine.specs.declared.acts.Act.TheVariants as acts;
ghost use Rattle.strm_machine.specs.declared.acts.MemoryAct.TheVariants as memory_acts;
ghost use Rattle.strm_machine.specs.declared.acts.EndAct.TheVariants as end_acts;
ghost use Rattle.strm_machine.specs.declared.acts.LooseAct.TheVariants as loose_acts;
ghost use Rattle.strm_host_machine.specs.Steps.{outcome_of_step, touches};
ghost use Rattle.strm_host_machine.specs.Does.{Fits, Does};
ghost use Rattle.strm_transmit.specs.Meets.{Meets, is_settled, act_takes_memory};
ghost use Rattle.strm_transmit.specs.Hosted.{call_answered, lone, MayBeDone, Leaves, MeetsAlone, MeetsHosted, RunsOutOnlyTaking, RunsOutNoneHeld};
ghost use Rattle.strm_transmit.specs.Performing.{EndsPerforming};

mod calls;
mod replies;

use crate::errors::StoreError;
use crate::host_ends::HostEnds;
use crate::steps::calls::{
    add_guest, drop_context, give_away, join_set, make, make_context, make_pair, move_context,
    on_context, on_set, poll_set, transfer,
};
use crate::steps::replies::{
    code_reply, done, done_reply, member_reply, number_reply, pair_reply, reply,
};
use crate::store::Store;
use strm_codes::codes::TransmitIndex;
use strm_machine::acts::{Act, EndAct, HostAct, LooseAct, MemoryAct, NamedEnd};
use strm_machine::replies::Reply;
use strm_machine::steps::Step;
use strm_machine::streams::Side;

/// Does a step. A refusal is a reply; what comes as an error stops a run. The host ends are those that
/// the store needs (`Store::fits`). It is inlined, so that a reply of a few bytes is not copied as one that
/// may have 64.
#[inline(always)]
pub fn apply<H: HostEnds>(
    store: &mut Store,
    hosts: &mut H,
    step: &Step,
) -> Result<Reply, StoreError>
    requires fits { Fits store.old (H.tells hosts.old) }
    ensures does { Does store.old store.new (H.tells hosts.old) (H.tells hosts.new)
        (call_answered result) (λ world. outcome_of_step world step.now) }
    ensures fits { Fits store.new (H.tells hosts.new) }
    ensures alone { touches (lone store.old) (act_of step.now) ≡ false → MeetsAlone store.old
        store.new (H.tells hosts.old) (H.tells hosts.new) result (act_of step.now) }
    ensures err { IfErr result
        (Leaves (act_of step.now) store.old store.new (H.tells hosts.old) (H.tells hosts.new)) }
    ensures out_of_memory { result ≡ Err StoreError.OutOfMemory
        → MayBeDone store.old (H.tells hosts.old) (act_of step.now) }
    ensures settled { IfOk result (λ reply. IsTrue (is_settled reply)) }
    ensures refused { (refusal : Refusal) → result ≢ Err (StoreError.Refused refusal) }
    ensures takes_no_memory { RunsOutOnlyTaking store.old (act_of step.now) result }
    ensures held { RunsOutNoneHeld store.old (H.tells hosts.old) (act_of step.now) result }
{
    perform_step(store, hosts, step)
}

// What a step does. Reads, writes, events and new streams, of which a run has most, go to their calls at
// once.
#[inline(always)]
fn perform_step<H: HostEnds>(
    store: &mut Store,
    hosts: &mut H,
    step: &Step,
) -> Result<Reply, StoreError>
    requires fits { Fits store.old (H.tells hosts.old) }
    ensures meets { MeetsHosted store.old store.new (H.tells hosts.old) (H.tells hosts.new) result
        (act_of step.now) }
    ensures ends { EndsPerforming store.old (H.tells hosts.old) (act_of step.now) result }
{
    match operation_of(step) {
        Some(asked) => {
            let Asked {
                side,
                end,
                address,
                count,
            } = asked;
            code_reply(store.operate(hosts, side, &end, address, count))
        }
        None => perform_other(store, hosts, step),
    }
}

// The same of a step that is no read or write.
#[inline(always)]
fn perform_other<H: HostEnds>(
    store: &mut Store,
    hosts: &mut H,
    step: &Step,
) -> Result<Reply, StoreError>
    requires fits { Fits store.old (H.tells hosts.old) }
    ensures meets { MeetsHosted store.old store.new (H.tells hosts.old) (H.tells hosts.new) result
        (act_of step.now) }
    ensures ends { EndsPerforming store.old (H.tells hosts.old) (act_of step.now) result }
{
    store.sound();
    store.served();
    match *step {
        Step::Event { guest, handle } => reply(event(store, guest, handle)),
        Step::New { guest, ty } => pair_reply(make_pair(store, guest, guest, ty)),
        Step::Between { writer, reader, ty } => pair_reply(make_pair(store, writer, reader, ty)),
        Step::Guest { size } => number_reply(add_guest(store, size)),
        Step::Move {
            guest,
            ty,
            handle,
            to,
        } => number_reply(give_away(store, &NamedEnd { guest, ty, handle }, to)),
        Step::SetJoin { guest, set, handle } => done_reply(join_set(store, guest, set, handle)),
        Step::SetPoll { guest, set } => member_reply(poll_set(store, guest, set)),
        Step::ErrNew {
            guest,
            address,
            len,
        } => number_reply(make_context(store, guest, address, len)),
        Step::ErrMove { guest, handle, to } => number_reply(move_context(store, guest, handle, to)),
        Step::ErrDrop { guest, handle } => done_reply(drop_context(store, guest, handle)),
        _ => perform_act(store, hosts, step),
    }
}

// A read or write that a step asks for.
struct Asked {
    side: Side,
    end: NamedEnd,
    address: u32,
    count: u32,
}

// What a step asks for, if it is a read or a write. Both are one, so that what is inlined stands there once.
#[inline(always)]
fn operation_of(step: &Step) -> Option<Asked>
    ensures { IfSome result (λ asked. act_of step.now
        ≡ acts.OnEnd asked.side asked.end (end_acts.Operate asked.address asked.count)) }
{
    match *step {
        Step::Write {
            guest,
            ty,
            handle,
            address,
            count,
        } => Some(Asked {
            side: Side::Writing,
            end: NamedEnd { guest, ty, handle },
            address,
            count,
        }),
        Step::Read {
            guest,
            ty,
            handle,
            address,
            count,
        } => Some(Asked {
            side: Side::Reading,
            end: NamedEnd { guest, ty, handle },
            address,
            count,
        }),
        _ => None,
    }
}

// What any step does, seen as its act. Inlined, so that the place of its answer is made ready where it is
// wanted alone.
#[inline(always)]
fn perform_act<H: HostEnds>(
    store: &mut Store,
    hosts: &mut H,
    step: &Step,
) -> Result<Reply, StoreError>
    requires fits { Fits store.old (H.tells hosts.old) }
    ensures meets { MeetsHosted store.old store.new (H.tells hosts.old) (H.tells hosts.new) result
        (act_of step.now) }
    ensures ends { EndsPerforming store.old (H.tells hosts.old) (act_of step.now) result }
{
    // A copy, so that steps which are done at once need not lie in memory.
    let apart = *step;
    reply(perform_apart(store, hosts, &apart))
}

// The same, apart from the code of reads, writes and events; a refusal is an error still.
#[inline(never)]
fn perform_apart<H: HostEnds>(
    store: &mut Store,
    hosts: &mut H,
    step: &Step,
) -> Result<Reply, StoreError>
    requires fits { Fits store.old (H.tells hosts.old) }
    ensures meets { MeetsHosted store.old store.new (H.tells hosts.old) (H.tells hosts.new) result
        (act_of step.now) }
    ensures settled { IfOk result (λ reply. IsTrue (is_settled reply)) }
    ensures takes_no_memory { RunsOutOnlyTaking store.old (act_of step.now) result }
    ensures held { RunsOutNoneHeld store.old (H.tells hosts.old) (act_of step.now) result }
{
    perform(store, hosts, &Act::of(step))
}

// The one call that an act names. Acts are not moved, since one may hold the bytes of a feed; and those
// groups of calls that are not inlined write their replies in place.
#[inline(always)]
fn perform<H: HostEnds>(store: &mut Store, hosts: &mut H, act: &Act) -> Result<Reply, StoreError>
    requires fits { Fits store.old (H.tells hosts.old) }
    ensures meets { MeetsHosted store.old store.new (H.tells hosts.old) (H.tells hosts.new) result
        act.now }
    ensures settled { IfOk result (λ reply. IsTrue (is_settled reply)) }
    ensures takes_no_memory { RunsOutOnlyTaking store.old act.now result }
    ensures held { RunsOutNoneHeld store.old (H.tells hosts.old) act.now result }
{
    store.sound();
    store.served();
    match act {
        Act::Make { making } => make(store, *making),
        Act::OnEnd { side, end, act } => on_end(store, hosts, *side, end, *act),
        Act::Transfer { end, to } => transfer(store, end, *to),
        Act::OnLoose { reader, act } => on_loose(store, hosts, *reader, *act),
        Act::OnHost { host, act } => on_host(store, hosts, *host, act),
        Act::Drive => store.drive_once(hosts).map(done),
        Act::Event { guest, handle } => event(store, *guest, *handle),
        Act::OnSet { guest, set, act } => on_set(store, *guest, *set, *act),
        Act::OnContext { guest, handle, act } => on_context(store, *guest, *handle, *act),
        Act::OnMemory { guest, act } => on_memory(store, *guest, act),
    }
}

// The operation of an end is cancelled.
fn cancel(store: &mut Store, side: Side, end: &NamedEnd) -> Result<Reply, StoreError>
    ensures meets { Meets store.old store.new result
        (reaction store.old (acts.OnEnd side end.now end_acts.Cancel)) }
    ensures settled { IfOk result (λ reply. IsTrue (is_settled reply)) }
    ensures takes_no_memory { result ≢ Err StoreError.OutOfMemory }
{
    store.cancel_side(side, end).map(Reply::Code)
}

// An end leaves its guest.
fn lift(store: &mut Store, side: Side, end: &NamedEnd) -> Result<Reply, StoreError>
    ensures meets { Meets store.old store.new result
        (reaction store.old (acts.OnEnd side end.now end_acts.Lift)) }
    ensures settled { IfOk result (λ reply. IsTrue (is_settled reply)) }
    ensures takes_no_memory { result ≢ Err StoreError.OutOfMemory }
{
    store.lift_side(side, end).map(Reply::Number)
}

// What is done to the end that is named.
#[inline(always)]
fn on_end<H: HostEnds>(
    store: &mut Store,
    hosts: &mut H,
    side: Side,
    end: &NamedEnd,
    act: EndAct,
) -> Result<Reply, StoreError>
    requires fits { Fits store.old (H.tells hosts.old) }
    ensures meets { MeetsHosted store.old store.new (H.tells hosts.old) (H.tells hosts.new) result
        (acts.OnEnd side end.now act) }
    ensures settled { IfOk result (λ reply. IsTrue (is_settled reply)) }
    ensures takes_no_memory { RunsOutOnlyTaking store.old (acts.OnEnd side end.now act) result }
    ensures held { RunsOutNoneHeld store.old (H.tells hosts.old) (acts.OnEnd side end.now act)
        result }
{
    store.sound();
    store.served();
    match act {
        EndAct::Operate { address, count } => {
            store
                .operate(hosts, side, end, address, count)
                .map(Reply::Code)
        }
        EndAct::Drop => store.drop_side(hosts, side, end).map(done),
        EndAct::Cancel => cancel(store, side, end),
        EndAct::Lift => lift(store, side, end),
    }
}

// A loose read end comes into a guest.
fn lower(store: &mut Store, reader: u32, guest: u32, ty: TransmitIndex) -> Result<Reply, StoreError>
    ensures meets { Meets store.old store.new result
        (reaction store.old (acts.OnLoose reader (loose_acts.Lower guest ty))) }
    ensures settled { IfOk result (λ reply. IsTrue (is_settled reply)) }
{
    store.lower(reader, guest, ty).map(Reply::Number)
}

// What is done to the loose read end of a stream.
#[inline(never)]
fn on_loose<H: HostEnds>(
    store: &mut Store,
    hosts: &mut H,
    reader: u32,
    act: LooseAct,
) -> Result<Reply, StoreError>
    requires fits { Fits store.old (H.tells hosts.old) }
    ensures meets { MeetsHosted store.old store.new (H.tells hosts.old) (H.tells hosts.new) result
        (acts.OnLoose reader act) }
    ensures settled { IfOk result (λ reply. IsTrue (is_settled reply)) }
    ensures takes_no_memory { act_takes_memory (acts.OnLoose reader act) ≡ false
        → result ≢ Err StoreError.OutOfMemory }
{
    store.sound();
    store.served();
    match act {
        LooseAct::Lower { guest, ty } => lower(store, reader, guest, ty),
        LooseAct::Close => store.close(hosts, reader).map(done),
    }
}

// What is done to a host end.
#[inline(never)]
fn on_host<H: HostEnds>(
    store: &mut Store,
    hosts: &mut H,
    host: u32,
    act: &HostAct,
) -> Result<Reply, StoreError>
    requires fits { Fits store.old (H.tells hosts.old) }
    ensures meets { MeetsHosted store.old store.new (H.tells hosts.old) (H.tells hosts.new) result
        (acts.OnHost host act.now) }
    ensures settled { IfOk result (λ reply. IsTrue (is_settled reply)) }
    ensures takes_no_memory { act_takes_memory (acts.OnHost host act.now) ≡ false
        → result ≢ Err StoreError.OutOfMemory }
{
    match act {
        HostAct::New => store.host_new(hosts, host).map(Reply::Number),
        HostAct::Feed { bytes } => store.feed(hosts, host, bytes).map(done),
        HostAct::Pipe { reader } => store.pipe(hosts, *reader, host).map(done),
        HostAct::Grant { count } => store.grant(hosts, host, *count).map(done),
    }
}

// What an end is to be told.
#[inline(always)]
fn event(store: &mut Store, guest: u32, handle: u32) -> Result<Reply, StoreError>
    ensures meets { Meets store.old store.new result
        (reaction store.old (acts.Event guest handle)) }
    ensures settled { IfOk result (λ reply. IsTrue (is_settled reply)) }
    ensures takes_no_memory { result ≢ Err StoreError.OutOfMemory }
{
    store.take_event(guest, handle).map(Reply::Event)
}

// What is done to a guest's memory.
#[inline(always)]
fn on_memory(store: &mut Store, guest: u32, act: &MemoryAct) -> Result<Reply, StoreError>
    ensures meets { Meets store.old store.new result
        (reaction store.old (acts.OnMemory guest act.now)) }
    ensures settled { IfOk result (λ reply. IsTrue (is_settled reply)) }
    ensures takes_no_memory { result ≢ Err StoreError.OutOfMemory }
{
    match act {
        MemoryAct::Poke { address, bytes } => store.poke(guest, *address, bytes).map(done),
        MemoryAct::Dump { address, len } => dump(store, guest, *address, *len),
    }
}

// At most 64 bytes of a guest's memory.
fn dumped(store: &Store, guest: u32, address: u32, len: u32) -> Result<Reply, StoreError>
    requires { len ≤ 64 }
    ensures meets { Meets store.now store.now result
        (reaction store.now (acts.OnMemory guest (memory_acts.Dump address len))) }
    ensures settled { IfOk result (λ reply. IsTrue (is_settled reply)) }
    ensures takes_no_memory { result ≢ Err StoreError.OutOfMemory }
{
    store.dump(guest, address, len).map(Reply::Bytes)
}

// The bytes that a step asks for, of which the first 64 are answered.
fn dump(store: &Store, guest: u32, address: u32, len: u32) -> Result<Reply, StoreError>
    ensures meets { Meets store.now store.now result
        (reaction store.now (acts.OnMemory guest (memory_acts.Dump address len))) }
    ensures settled { IfOk result (λ reply. IsTrue (is_settled reply)) }
    ensures takes_no_memory { result ≢ Err StoreError.OutOfMemory }
{
    dumped(store, guest, address, len.min(64))
}
