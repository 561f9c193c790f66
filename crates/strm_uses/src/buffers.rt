//! A boxed host writer fills a guest's memory, and a boxed host reader takes from one.

ghost use Rattle.std.specs.Prelude.{◌≡◌, ℕ, ◌+◌, ◌*◌, ◌≤◌, [], length};
ghost use Rattle.strm_codes.specs.Layout.{item_type};
ghost use Rattle.strm_codes.specs.ItemTypes.{item_size};
ghost use Rattle.strm_memory.specs.Bytes.{bytes_at, IsApart};
ghost use Rattle.strm_buffers.specs.Said.{IfAnswered, IfNoMemory};
ghost use Rattle.strm_uses.specs.Polled.{FetchesItems, DeliversItems};

use std::alloc::Global;
use std::mem;
use strm_buffers::answers::{HostTurn, Turn};
use strm_buffers::boxes::{poll_reader, poll_writer, reader_payload, writer_payload};
use strm_buffers::offers::Offer;
use strm_buffers::readers::HostReader;
use strm_buffers::windows::Window;
use strm_buffers::writers::HostWriter;
use strm_memory::memories::GuestMemory;

/// Polls a host writer for items of a guest, and puts as many as there is room for into its memory
/// from an address on. The memory is lent, and not copied.
pub fn fetch(
    alloc: Global,
    writer: &mut Box<dyn HostWriter>,
    memory: &mut GuestMemory,
    address: u32,
    room: u32,
    finish: bool,
) -> HostTurn
    requires inside { address + item_size (item_type (writer_tells writer.old).payload) * room
        ≤ length memory.old.bytes }
    requires nothing_held { (writer_tells writer.old).holds ≡ [] }
    ensures fetched { IfAnswered result
        (FetchesItems (writer_tells writer.old) (writer_tells writer.new)
        memory.old.bytes memory.new.bytes address room finish) }
    ensures no_record { IfNoMemory result
        ((writer_tells writer.new).said ≡ (writer_tells writer.old).said) }
    ensures outside { (other n : ℕ)
        → IsApart address (item_size (item_type (writer_tells writer.old).payload) * room) other n
        → bytes_at memory.new.bytes other n ≡ bytes_at memory.old.bytes other n }
    ensures stays { memory.new.base ≡ memory.old.base }
{
    let lent = mem::replace(memory, GuestMemory::empty(alloc));
    let mut window = Window::over(lent, writer_payload(writer), address, room);
    match window.prepare() {
        Ok(()) => {}
        Err(_) => {
            *memory = window.into_memory().0;
            return Turn::NoMemory;
        }
    }
    let turn = poll_writer(writer, &mut window, finish);
    let _ = window.marked();
    *memory = window.into_memory().0;
    turn
}

/// Offers a host reader so many items of a guest, from an address of its memory on, which stays
/// as it was; and how many it took.
pub fn deliver(
    alloc: Global,
    reader: &mut Box<dyn HostReader>,
    memory: &mut GuestMemory,
    address: u32,
    count: u32,
    finish: bool,
) -> (HostTurn, u32)
    requires inside { address + item_size (item_type (reader_tells reader.old).payload) * count
        ≤ length memory.old.bytes }
    ensures delivered { IfAnswered result.0 (DeliversItems (reader_tells reader.old)
        (reader_tells reader.new) memory.old.bytes address count finish result.1) }
    ensures no_record { IfNoMemory result.0
        ((reader_tells reader.new).said ≡ (reader_tells reader.old).said) }
    ensures memory { memory.new ≡ memory.old }
{
    let lent = mem::replace(memory, GuestMemory::empty(alloc));
    let mut offer = Offer::of_memory(lent, reader_payload(reader), address, count, 0);
    let turn = poll_reader(reader, &mut offer, finish);
    let (lent, taken) = offer.into_memory();
    *memory = lent;
    (turn, taken)
}
