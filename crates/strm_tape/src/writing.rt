//! Steps written behind other bytes, each as the grammar spells it. After `OutOfMemory` the bytes are
//! to be thrown away.
//!
//! Source: ours.

ghost use Rattle.std.specs.Prelude.{◌≡◌, ◌≤◌, [], ◌∷◌, ◌++◌, length, map, replicate, OnOk};
ghost use Rattle.strm_codes.specs.NodeBytes.{node_byte};
ghost use Rattle.strm_codes.specs.Sameness.{scalar_number};
ghost use Rattle.strm_codes.specs.Spellings.{AreSpelled};
ghost use Rattle.strm_lines.specs.Grammar.{Number, Typed, operands};
ghost use Rattle.strm_tape.specs.Spelling.{number_bytes, payload_bytes, type_bytes, counted_bytes, arguments_bytes, step_bytes};

use strm_codes::codes::TransmitIndex;
use strm_codes::counts::OutOfMemory;
use strm_codes::nodes::Node;
use strm_codes::payloads::Payload;
use strm_codes::scalars::Scalar;
use strm_machine::chunks::Chunk;
use strm_machine::steps::Step;

// Bytes as they are.
pub(crate) fn put(out: &mut Vec<u8>, bytes: &[u8]) -> Result<(), OutOfMemory>
    ensures { OnOk result (out.new.items ≡ out.old.items ++ bytes.now) }
{
    out.extend_from_slice(bytes)?;
    Ok(())
}

// So many bytes that are 0.
pub(crate) fn put_zeros(out: &mut Vec<u8>, count: usize) -> Result<(), OutOfMemory>
    ensures { OnOk result (out.new.items ≡ out.old.items ++ replicate count 0) }
{
    if out.reserve(count).is_err() {
        return Err(OutOfMemory);
    }
    let end = out.len() + count;
    out.resize(end, 0)?;
    Ok(())
}

// The four bytes of a number.
fn bytes_of(number: u32) -> [u8; 4]
    ensures { result ≡ number_bytes number }
{
    [
        (number % 256) as u8,
        (number / 256 % 256) as u8,
        (number / 256 / 256 % 256) as u8,
        (number / 256 / 256 / 256 % 256) as u8,
    ]
}

// A number.
pub(crate) fn put_number(out: &mut Vec<u8>, number: u32) -> Result<(), OutOfMemory>
    ensures { OnOk result (out.new.items ≡ out.old.items ++ number_bytes number) }
{
    put(out, &bytes_of(number))
}

// The place of a scalar.
fn place_of(scalar: Scalar) -> u8
    ensures { result ≡ scalar_number scalar }
{
    match scalar {
        Scalar::Bool => 0,
        Scalar::S8 => 1,
        Scalar::U8 => 2,
        Scalar::S16 => 3,
        Scalar::U16 => 4,
        Scalar::S32 => 5,
        Scalar::U32 => 6,
        Scalar::S64 => 7,
        Scalar::U64 => 8,
        Scalar::Char => 9,
        Scalar::F32 => 10,
        Scalar::F64 => 11,
    }
}

// A place, and a number.
fn put_one(out: &mut Vec<u8>, place: u8, first: u32) -> Result<(), OutOfMemory>
    ensures { OnOk result (out.new.items ≡ out.old.items ++ place ∷ number_bytes first) }
{
    put(out, &[place])?;
    put_number(out, first)
}

// A place, and two numbers.
fn put_two(out: &mut Vec<u8>, place: u8, first: u32, second: u32) -> Result<(), OutOfMemory>
    ensures { OnOk result (out.new.items ≡ out.old.items
        ++ place ∷ number_bytes first ++ number_bytes second) }
{
    put_one(out, place, first)?;
    put_number(out, second)
}

// A place, and three numbers.
fn put_three(
    out: &mut Vec<u8>,
    place: u8,
    first: u32,
    second: u32,
    third: u32,
) -> Result<(), OutOfMemory>
    ensures { OnOk result (out.new.items ≡ out.old.items
        ++ place ∷ number_bytes first ++ number_bytes second ++ number_bytes third) }
{
    put_two(out, place, first, second)?;
    put_number(out, third)
}

// A place, a number and bytes behind their number.
fn put_chunk(out: &mut Vec<u8>, bytes: &Chunk) -> Result<(), OutOfMemory>
    ensures { OnOk result (out.new.items ≡ out.old.items ++ counted_bytes bytes.now) }
{
    let slice = bytes.as_slice();
    put(out, &[slice.len() as u8])?;
    put(out, slice)
}

// The scalars of a tuple behind their number.
fn put_shape(out: &mut Vec<u8>, scalars: &[Scalar]) -> Result<(), OutOfMemory>
    ensures { OnOk result (out.new.items ≡ out.old.items ++ map scalar_number scalars.now) }
{
    for k in 0..scalars.len() {
        put(out, &[place_of(scalars[k])])?;
    }
    Ok(())
}

// The words of a type.
fn put_type_words(out: &mut Vec<u8>, words: &[Node]) -> Result<(), OutOfMemory>
    requires each { AreSpelled words.now }
    requires few { length words.now ≤ 16 }
    ensures { OnOk result (out.new.items ≡ out.old.items ++ map node_byte words.now) }
{
    for k in 0..words.len() {
        put(out, &[words[k].to_byte()])?;
    }
    Ok(())
}

// A payload.
pub(crate) fn put_payload(out: &mut Vec<u8>, payload: &Payload) -> Result<(), OutOfMemory>
    ensures { OnOk result (out.new.items ≡ out.old.items ++ payload_bytes payload.now) }
{
    match payload {
        Payload::Nothing => put(out, &[0]),
        Payload::One(scalar) => put(out, &[1, place_of(*scalar)]),
        Payload::Tuple(shape) => {
            let scalars = shape.as_slice();
            put(out, &[2, scalars.len() as u8])?;
            put_shape(out, scalars)
        }
        Payload::Compound(compound) => {
            let words = compound.as_slice();
            put(out, &[3, words.len() as u8])?;
            put_type_words(out, words)
        }
    }
}

// A type.
pub(crate) fn put_type(out: &mut Vec<u8>, ty: &TransmitIndex) -> Result<(), OutOfMemory>
    ensures { OnOk result (out.new.items ≡ out.old.items ++ type_bytes ty.now) }
{
    match ty {
        TransmitIndex::Stream(payload) => {
            put(out, &[0])?;
            put_payload(out, payload)
        }
        TransmitIndex::Future(payload) => {
            put(out, &[1])?;
            put_payload(out, payload)
        }
    }
}

// A place, a number and a type.
fn put_one_and_type(
    out: &mut Vec<u8>,
    place: u8,
    first: u32,
    ty: &TransmitIndex,
) -> Result<(), OutOfMemory>
    ensures { OnOk result (out.new.items ≡ out.old.items
        ++ place ∷ arguments_bytes (Number first ∷ Typed ty.now ∷ [])) }
{
    put_one(out, place, first)?;
    put_type(out, ty)
}

// A place, two numbers and a type.
fn put_two_and_type(
    out: &mut Vec<u8>,
    place: u8,
    first: u32,
    second: u32,
    ty: &TransmitIndex,
) -> Result<(), OutOfMemory>
    ensures { OnOk result (out.new.items ≡ out.old.items
        ++ place ∷ arguments_bytes (Number first ∷ Number second ∷ Typed ty.now ∷ [])) }
{
    put_two(out, place, first, second)?;
    put_type(out, ty)
}

// A place, and what names an end.
fn put_end(
    out: &mut Vec<u8>,
    place: u8,
    guest: u32,
    ty: &TransmitIndex,
    handle: u32,
) -> Result<(), OutOfMemory>
    ensures { OnOk result (out.new.items ≡ out.old.items
        ++ place ∷ arguments_bytes (Number guest ∷ Typed ty.now ∷ Number handle ∷ [])) }
{
    put_one_and_type(out, place, guest, ty)?;
    put_number(out, handle)
}

// The same, and one number more.
fn put_end_and_one(
    out: &mut Vec<u8>,
    place: u8,
    guest: u32,
    ty: &TransmitIndex,
    handle: u32,
    more: u32,
) -> Result<(), OutOfMemory>
    ensures { OnOk result (out.new.items ≡ out.old.items
        ++ place ∷ arguments_bytes (Number guest ∷ Typed ty.now ∷ Number handle ∷ Number more ∷ [])) }
{
    put_end(out, place, guest, ty, handle)?;
    put_number(out, more)
}

// A place, and what a read or write names.
fn put_operands(
    out: &mut Vec<u8>,
    place: u8,
    guest: u32,
    ty: &TransmitIndex,
    handle: u32,
    address: u32,
    count: u32,
) -> Result<(), OutOfMemory>
    ensures { OnOk result (out.new.items ≡ out.old.items
        ++ place ∷ arguments_bytes (operands guest ty.now handle address count)) }
{
    put_end_and_one(out, place, guest, ty, handle, address)?;
    put_number(out, count)
}

// A place, a number and bytes.
fn put_one_and_bytes(
    out: &mut Vec<u8>,
    place: u8,
    first: u32,
    bytes: &Chunk,
) -> Result<(), OutOfMemory>
    ensures { OnOk result (out.new.items ≡ out.old.items
        ++ place ∷ number_bytes first ++ counted_bytes bytes.now) }
{
    put_one(out, place, first)?;
    put_chunk(out, bytes)
}

// A place, two numbers and bytes.
fn put_two_and_bytes(
    out: &mut Vec<u8>,
    place: u8,
    first: u32,
    second: u32,
    bytes: &Chunk,
) -> Result<(), OutOfMemory>
    ensures { OnOk result (out.new.items ≡ out.old.items
        ++ place ∷ number_bytes first ++ number_bytes second ++ counted_bytes bytes.now) }
{
    put_two(out, place, first, second)?;
    put_chunk(out, bytes)
}

/// A step.
pub(crate) fn put_step(out: &mut Vec<u8>, step: &Step) -> Result<(), OutOfMemory>
    ensures { OnOk result (out.new.items ≡ out.old.items ++ step_bytes step.now) }
{
    match step {
        Step::Guest { size } => put_one(out, 1, *size),
        Step::New { guest, ty } => put_one_and_type(out, 2, *guest, ty),
        Step::Between { writer, reader, ty } => put_two_and_type(out, 3, *writer, *reader, ty),
        Step::Write {
            guest,
            ty,
            handle,
            address,
            count,
        } => put_operands(out, 4, *guest, ty, *handle, *address, *count),
        Step::Read {
            guest,
            ty,
            handle,
            address,
            count,
        } => put_operands(out, 5, *guest, ty, *handle, *address, *count),
        Step::CancelWrite { guest, ty, handle } => put_end(out, 6, *guest, ty, *handle),
        Step::CancelRead { guest, ty, handle } => put_end(out, 7, *guest, ty, *handle),
        Step::DropWrite { guest, ty, handle } => put_end(out, 8, *guest, ty, *handle),
        Step::DropRead { guest, ty, handle } => put_end(out, 9, *guest, ty, *handle),
        Step::Event { guest, handle } => put_two(out, 10, *guest, *handle),
        Step::Move {
            guest,
            ty,
            handle,
            to,
        } => put_end_and_one(out, 11, *guest, ty, *handle, *to),
        Step::Lift { guest, ty, handle } => put_end(out, 12, *guest, ty, *handle),
        Step::Lower { reader, guest, ty } => put_two_and_type(out, 13, *reader, *guest, ty),
        Step::Pipe { reader, host } => put_two(out, 14, *reader, *host),
        Step::Close { reader } => put_one(out, 15, *reader),
        Step::HostNew { host } => put_one(out, 16, *host),
        Step::Drive => put(out, &[17]),
        Step::Feed { host, bytes } => put_one_and_bytes(out, 18, *host, bytes),
        Step::Grant { host, count } => put_two(out, 19, *host, *count),
        Step::SetNew { guest } => put_one(out, 20, *guest),
        Step::SetJoin { guest, set, handle } => put_three(out, 21, *guest, *set, *handle),
        Step::SetPoll { guest, set } => put_two(out, 22, *guest, *set),
        Step::SetDrop { guest, set } => put_two(out, 23, *guest, *set),
        Step::ErrNew {
            guest,
            address,
            len,
        } => put_three(out, 24, *guest, *address, *len),
        Step::ErrText {
            guest,
            handle,
            address,
        } => put_three(out, 25, *guest, *handle, *address),
        Step::ErrMove { guest, handle, to } => put_three(out, 26, *guest, *handle, *to),
        Step::ErrDrop { guest, handle } => put_two(out, 27, *guest, *handle),
        Step::Poke {
            guest,
            address,
            bytes,
        } => put_two_and_bytes(out, 28, *guest, *address, bytes),
        Step::Dump {
            guest,
            address,
            len,
        } => put_three(out, 29, *guest, *address, *len),
    }
}
