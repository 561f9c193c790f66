//! Calls of a store, each apart from the code of the steps, and what is made or done by them as the reply
//! of an act.
//!
//! Source: ours.

ghost use Rattle.std.specs.Prelude.{◌≡◌, ◌≢◌, false, Err, IfOk, IsTrue};
ghost use Rattle.strm_machine.specs.Reactions.{reaction};
ghost use Rattle.strm_machine.specs.declared.acts.Act.TheVariants as acts;
ghost use Rattle.strm_machine.specs.declared.acts.ContextAct.TheVariants as context_acts;
ghost use Rattle.strm_machine.specs.declared.acts.Making.TheVariants as makings;
ghost use Rattle.strm_machine.specs.declared.acts.SetAct.TheVariants as set_acts;
ghost use Rattle.strm_machine.specs.declared.replies.Reply.TheVariants as replies;
ghost use Rattle.strm_transmit.specs.Meets.{Meets, as_reply, is_settled, act_takes_memory};

use crate::errors::StoreError;
use crate::steps::replies::done;
use crate::store::Store;
use strm_codes::codes::TransmitIndex;
use strm_machine::acts::{ContextAct, Making, NamedEnd, SetAct};
use strm_machine::replies::{Member, Pair, Reply};

/// A guest is made.
#[inline(never)]
pub(crate) fn add_guest(store: &mut Store, size: u32) -> Result<u32, StoreError>
    ensures meets { Meets store.old store.new (as_reply replies.Number result)
        (reaction store.old (acts.Make (makings.Guest size))) }
    ensures settled { IfOk (as_reply replies.Number result) (λ reply. IsTrue (is_settled reply)) }
{
    store.add_guest(size)
}

/// An error context is made.
#[inline(never)]
pub(crate) fn make_context(
    store: &mut Store,
    guest: u32,
    address: u32,
    len: u32,
) -> Result<u32, StoreError>
    ensures meets { Meets store.old store.new (as_reply replies.Number result)
        (reaction store.old (acts.Make (makings.Context guest address len))) }
    ensures settled { IfOk (as_reply replies.Number result) (λ reply. IsTrue (is_settled reply)) }
{
    store.error_context_new(guest, address, len)
}

/// A stream between two guests is made.
#[inline(never)]
pub(crate) fn make_pair(
    store: &mut Store,
    writer: u32,
    reader: u32,
    ty: TransmitIndex,
) -> Result<Pair, StoreError>
    ensures meets { Meets store.old store.new (as_reply replies.Pair result)
        (reaction store.old (acts.Make (makings.Between writer reader ty))) }
    ensures settled { IfOk (as_reply replies.Pair result) (λ reply. IsTrue (is_settled reply)) }
{
    store.new_between(writer, reader, ty)
}

/// What is made.
#[inline(never)]
pub(crate) fn make(store: &mut Store, making: Making) -> Result<Reply, StoreError>
    ensures meets { Meets store.old store.new result (reaction store.old (acts.Make making)) }
    ensures settled { IfOk result (λ reply. IsTrue (is_settled reply)) }
{
    match making {
        Making::Guest { size } => add_guest(store, size).map(Reply::Number),
        Making::Between { writer, reader, ty } => {
            make_pair(store, writer, reader, ty).map(Reply::Pair)
        }
        Making::Set { guest } => store.set_new(guest).map(Reply::Number),
        Making::Context {
            guest,
            address,
            len,
        } => make_context(store, guest, address, len).map(Reply::Number),
    }
}

/// The same; its number there.
#[inline(never)]
pub(crate) fn give_away(store: &mut Store, end: &NamedEnd, to: u32) -> Result<u32, StoreError>
    ensures meets { Meets store.old store.new (as_reply replies.Number result)
        (reaction store.old (acts.Transfer end.now to)) }
    ensures settled { IfOk (as_reply replies.Number result) (λ reply. IsTrue (is_settled reply)) }
    ensures takes_no_memory { end.now.guest ≡ to → result ≢ Err StoreError.OutOfMemory }
{
    store.transfer(end, to)
}

/// An end goes to a guest.
pub(crate) fn transfer(store: &mut Store, end: &NamedEnd, to: u32) -> Result<Reply, StoreError>
    ensures meets { Meets store.old store.new result
        (reaction store.old (acts.Transfer end.now to)) }
    ensures settled { IfOk result (λ reply. IsTrue (is_settled reply)) }
    ensures takes_no_memory { end.now.guest ≡ to → result ≢ Err StoreError.OutOfMemory }
{
    give_away(store, end, to).map(Reply::Number)
}

/// An end joins a waitable set, or leaves its own.
#[inline(never)]
pub(crate) fn join_set(
    store: &mut Store,
    guest: u32,
    set: u32,
    handle: u32,
) -> Result<(), StoreError>
    ensures meets { Meets store.old store.new (as_reply (λ _. replies.Done) result)
        (reaction store.old (acts.OnSet guest set (set_acts.Join handle))) }
    ensures settled { IfOk (as_reply (λ _. replies.Done) result)
        (λ reply. IsTrue (is_settled reply)) }
{
    store.set_join(guest, set, handle)
}

/// The least member of a waitable set that is ready is told its report: that.
#[inline(never)]
pub(crate) fn poll_set(
    store: &mut Store,
    guest: u32,
    set: u32,
) -> Result<Option<Member>, StoreError>
    ensures meets { Meets store.old store.new (as_reply replies.Member result)
        (reaction store.old (acts.OnSet guest set set_acts.Poll)) }
    ensures settled { IfOk (as_reply replies.Member result) (λ reply. IsTrue (is_settled reply)) }
    ensures takes_no_memory { result ≢ Err StoreError.OutOfMemory }
{
    store.set_poll(guest, set)
}

// The least member of a waitable set that is ready is told its report.
fn poll(store: &mut Store, guest: u32, set: u32) -> Result<Reply, StoreError>
    ensures meets { Meets store.old store.new result
        (reaction store.old (acts.OnSet guest set set_acts.Poll)) }
    ensures settled { IfOk result (λ reply. IsTrue (is_settled reply)) }
    ensures takes_no_memory { result ≢ Err StoreError.OutOfMemory }
{
    let member = poll_set(store, guest, set)?;
    Ok(Reply::Member(member))
}

/// What is done to the waitable set that a handle names.
#[inline(never)]
pub(crate) fn on_set(
    store: &mut Store,
    guest: u32,
    set: u32,
    act: SetAct,
) -> Result<Reply, StoreError>
    ensures meets { Meets store.old store.new result
        (reaction store.old (acts.OnSet guest set act)) }
    ensures settled { IfOk result (λ reply. IsTrue (is_settled reply)) }
    ensures takes_no_memory { act_takes_memory (acts.OnSet guest set act) ≡ false
        → result ≢ Err StoreError.OutOfMemory }
{
    match act {
        SetAct::Join { handle } => join_set(store, guest, set, handle).map(done),
        SetAct::Poll => poll(store, guest, set),
        SetAct::Drop => store.set_drop(guest, set).map(done),
    }
}

/// A guest gets a handle of an error context.
#[inline(never)]
pub(crate) fn move_context(
    store: &mut Store,
    guest: u32,
    handle: u32,
    to: u32,
) -> Result<u32, StoreError>
    ensures meets { Meets store.old store.new (as_reply replies.Number result)
        (reaction store.old (acts.OnContext guest handle (context_acts.Move to))) }
    ensures settled { IfOk (as_reply replies.Number result) (λ reply. IsTrue (is_settled reply)) }
{
    store.error_context_transfer(guest, handle, to)
}

/// A handle of an error context is dropped.
#[inline(never)]
pub(crate) fn drop_context(store: &mut Store, guest: u32, handle: u32) -> Result<(), StoreError>
    ensures meets { Meets store.old store.new (as_reply (λ _. replies.Done) result)
        (reaction store.old (acts.OnContext guest handle context_acts.Drop)) }
    ensures settled { IfOk (as_reply (λ _. replies.Done) result)
        (λ reply. IsTrue (is_settled reply)) }
    ensures takes_no_memory { result ≢ Err StoreError.OutOfMemory }
{
    store.error_context_drop(guest, handle)
}

/// What is done to the error context that a handle names, or to the handle.
#[inline(never)]
pub(crate) fn on_context(
    store: &mut Store,
    guest: u32,
    handle: u32,
    act: ContextAct,
) -> Result<Reply, StoreError>
    ensures meets { Meets store.old store.new result
        (reaction store.old (acts.OnContext guest handle act)) }
    ensures settled { IfOk result (λ reply. IsTrue (is_settled reply)) }
    ensures takes_no_memory { act_takes_memory (acts.OnContext guest handle act) ≡ false
        → result ≢ Err StoreError.OutOfMemory }
{
    match act {
        ContextAct::Text { address } => {
            store
                .error_context_message(guest, handle, address)
                .map(Reply::Number)
        }
        ContextAct::Move { to } => { move_context(store, guest, handle, to).map(Reply::Number) }
        ContextAct::Drop => drop_context(store, guest, handle).map(done),
    }
}
