//! A guest's handle table: a stream's end comes under a handle, and goes.

ghost use Rattle.std.specs.Prelude.{◌≡◌, ◌+◌, ◌≤◌, false, None, Ok, Err, IfOk, OnOk, OnErr};
ghost use Rattle.strm_handles.specs.Handles.{next_index, live_of};
ghost use Rattle.strm_handles.specs.Lookups.{stream_rep_of};
ghost use Rattle.strm_handles.specs.declared.entries.TransmitLocalState.TheVariants.{Read};
ghost use Rattle.strm_handles.specs.declared.errors.HandleError.TheVariants.{UnknownHandle};

use strm_codes::counts::OutOfMemory;
use strm_codes::payloads::Payload;
use strm_handles::counters::HandleCounter;
use strm_handles::errors::HandleError;
use strm_handles::tables::HandleTable;

/// Gives a guest the read end of a stream: its handle, by which the stream is found from now on.
pub fn give_read_end(
    table: &mut HandleTable,
    counter: &mut HandleCounter,
    ty: Payload,
    stream: u32,
) -> Result<u32, HandleError>
    ensures found { IfOk result (λ handle.
        stream_rep_of table.new.handles ty handle ≡ Ok (stream, Read false)) }
    ensures counted { OnOk result (counter.new.live ≡ counter.old.live + 1) }
    ensures refused { OnErr result (table.new ≡ table.old) }
{
    table.sound();
    table.stream_insert_read(counter, ty, stream)
}

/// Takes it back: the stream's number. The handle then leads nowhere, and is the one given next.
pub fn take_read_end(
    table: &mut HandleTable,
    counter: &mut HandleCounter,
    ty: Payload,
    handle: u32,
) -> Result<u32, HandleError>
    requires { live_of table.old.handles ≤ counter.old.live }
    ensures gone { OnOk result
        (stream_rep_of table.new.handles ty handle ≡ Err UnknownHandle) }
    ensures next { OnOk result (next_index table.new.handles ≡ handle) }
    ensures refused { OnErr result (table.new ≡ table.old) }
{
    let (stream, _) = table.stream_remove_readable(counter, ty, handle)?;
    Ok(stream)
}

/// The same for a guest that asked for it: its handle, or none where it has too many and traps. Want of
/// memory is the runtime's own trouble, and is passed on.
pub fn give_or_trap(
    table: &mut HandleTable,
    counter: &mut HandleCounter,
    ty: Payload,
    stream: u32,
) -> Result<Option<u32>, OutOfMemory>
    ensures trapped { result ≡ Ok None → table.new ≡ table.old }
    ensures refused { OnErr result (table.new ≡ table.old) }
{
    match give_read_end(table, counter, ty, stream) {
        Ok(handle) => Ok(Some(handle)),
        Err(HandleError::OutOfMemory) => Err(OutOfMemory),
        // IndexOverflow or HandleLimit.
        Err(_) => Ok(None),
    }
}
