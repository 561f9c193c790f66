//! What a host end's turn does to the stream: items that went over it, and how an operation is settled.
//!
//! Meaning: `Settling.antt` of `strm_host_machine`. Source: wasmtime, `futures_and_streams.rs`,
//! `poll_produce` with what it does to `ReadState`.

ghost use Rattle.std.specs.Prelude.{◌≡◌, ◌+◌, ◌*◌, ◌^◌, ◌<◌, ◌≤◌, List, length, true, Some, IsSomeAnd};
ghost use Rattle.std.specs.Option.{option_map};
ghost use Rattle.strm_codes.specs.Layout.{item_type};
ghost use Rattle.strm_codes.specs.ItemTypes.{item_size};
ghost use Rattle.strm_buffers.specs.Listing.{Item};
ghost use Rattle.strm_machine.specs.Sides.{opposite, end_of, with_end};
ghost use Rattle.strm_host_machine.specs.WriterTurn.{produced_result};
ghost use Rattle.strm_host_machine.specs.Settling.{result_of, operation_settled, with_some_received, let_go, moved_on};

use strm_buffers::answers::Answer;
use strm_channels::channels::Channel;
use strm_channels::sides::opposite;
use strm_codes::codes::StreamResult;
use strm_codes::counts::ItemCount;
use strm_machine::streams::{Operation, Owner, Side};

/// So many items as a count.
#[inline(always)]
pub fn count_of(items: u32) -> ItemCount
    requires { items < 2 ^ 28 }
    ensures { result ≡ items }
{
    match ItemCount::new(items) {
        Ok(count) => count,
        Err(_) => unreachable!(),
    }
}

/// How an answer settles an operation.
#[inline(always)]
pub fn result_of(answer: Answer) -> Option<StreamResult>
    ensures { result ≡ result_of answer }
{
    match answer {
        Answer::Completed => Some(StreamResult::Completed),
        Answer::Cancelled => Some(StreamResult::Cancelled),
        Answer::Dropped => Some(StreamResult::Dropped),
        Answer::Pending | Answer::Failed => None,
    }
}

/// How an answer settles a read, with so many items held for the next one.
pub fn produced_result(answer: Answer, held: usize) -> Option<StreamResult>
    ensures { (items : List Item) → length items ≡ held → result ≡ produced_result answer items }
{
    match answer {
        Answer::Dropped if held > 0 => Some(StreamResult::Completed),
        _ => result_of(answer),
    }
}

// The operation on a side came out so, if it did.
#[inline(always)]
fn settle(stream: &mut Channel, side: Side, outcome: Option<StreamResult>)
    requires open { IsSomeAnd (end_of side stream.old).operation (λ operation.
        operation.is_open ≡ true) }
    ensures { stream.new ≡ with_end side stream.old (record (end_of side stream.old) {
      operation = option_map (operation_settled outcome) (end_of side stream.old).operation;
    }) }
{
    if let Some(outcome) = outcome {
        stream.settle(side, outcome);
    }
}

/// So many items more were received, if any.
#[inline(always)]
pub fn receive_some(stream: &mut Channel, count: u32)
    ensures { stream.new ≡ with_some_received stream.old count }
{
    if count > 0 {
        stream.receive(count);
    }
}

// A host end that is done with the stream is gone.
#[inline(always)]
fn let_go(stream: &mut Channel, side: Side, outcome: Option<StreamResult>)
    ensures { stream.new ≡ let_go side outcome stream.old }
{
    if outcome == Some(StreamResult::Dropped) {
        stream.set_owner(side, Owner::Gone);
    }
}

/// So many items of the operation on a side came from the host end on the other side, or went to it,
/// and the operation is settled so, if it is.
#[inline(always)]
#[tactic(auto, unfolding(strm_host_machine::specs::Settling::moved_on))]
pub fn move_on(
    stream: &mut Channel,
    side: Side,
    operation: &Operation,
    count: ItemCount,
    outcome: Option<StreamResult>,
)
    requires waiting { (end_of side stream.old).operation ≡ Some operation.now }
    requires open { operation.now.is_open ≡ true }
    requires left { count ≤ operation.now.left }
    requires counted { operation.now.moved + operation.now.left < 2 ^ 28 }
    requires room { operation.now.address + item_size (item_type stream.old.payload) * count
        < 2 ^ 32 }
    ensures { stream.new ≡ moved_on side stream.old operation.now count outcome }
{
    stream.progress(side, count);
    settle(stream, side, outcome);
    receive_some(stream, count.as_u32());
    let_go(stream, opposite(side), outcome);
}
