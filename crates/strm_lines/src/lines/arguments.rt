//! The arguments behind a command, by what they are.
//!
//! Source: ours.

ghost use Rattle.std.specs.Prelude.{◌≡◌};
ghost use Rattle.strm_lines.specs.Reading.{fed_bytes, nothing, two_numbers, three_numbers, number_and_type, two_numbers_and_type, named_end_of, end_and_guest, place_words, operands_of, number_and_fed, place_and_bytes, place_and_len};

use crate::words::{hex, leading_number, leading_type, number, number_within, transmit_type};
use strm_codes::codes::TransmitIndex;
use strm_machine::acts::NamedEnd;
use strm_machine::chunks::Chunk;

#[tactic(auto, unfolding(crate::specs::Reading::nothing))]
pub(crate) fn nothing(rest: &[u8]) -> Option<()>
    ensures { result ≡ nothing rest.now }
{
    if rest.is_empty() { Some(()) } else { None }
}

#[inline(always)]
#[tactic(auto, unfolding(crate::specs::Reading::two_numbers))]
pub(crate) fn two_numbers(rest: &[u8]) -> Option<(u32, u32)>
    ensures { result ≡ two_numbers rest.now }
{
    let (first, rest) = leading_number(rest)?;
    let second = number(rest)?;
    Some((first, second))
}

#[inline(always)]
#[tactic(auto, unfolding(crate::specs::Reading::three_numbers))]
pub(crate) fn three_numbers(rest: &[u8]) -> Option<(u32, u32, u32)>
    ensures { result ≡ three_numbers rest.now }
{
    let (first, rest) = leading_number(rest)?;
    let (second, rest) = leading_number(rest)?;
    let third = number(rest)?;
    Some((first, second, third))
}

#[inline(always)]
#[tactic(auto, unfolding(crate::specs::Reading::number_and_type))]
pub(crate) fn number_and_type(rest: &[u8]) -> Option<(u32, TransmitIndex)>
    ensures { result ≡ number_and_type rest.now }
{
    let (number, rest) = leading_number(rest)?;
    let ty = transmit_type(rest)?;
    Some((number, ty))
}

#[inline(always)]
#[tactic(auto, unfolding(crate::specs::Reading::two_numbers_and_type))]
pub(crate) fn two_numbers_and_type(rest: &[u8]) -> Option<(u32, u32, TransmitIndex)>
    ensures { result ≡ two_numbers_and_type rest.now }
{
    let (first, rest) = leading_number(rest)?;
    let (second, rest) = leading_number(rest)?;
    let ty = transmit_type(rest)?;
    Some((first, second, ty))
}

#[tactic(auto, unfolding(crate::specs::Reading::named_end_of))]
pub(crate) fn named_end(rest: &[u8]) -> Option<NamedEnd>
    ensures { result ≡ named_end_of rest.now }
{
    let (guest, rest) = leading_number(rest)?;
    let Some((ty, rest)) = leading_type(rest) else {
        return None;
    };
    let handle = number(rest)?;
    Some(NamedEnd { guest, ty, handle })
}

#[tactic(auto, unfolding(crate::specs::Reading::end_and_guest))]
pub(crate) fn end_and_guest(rest: &[u8]) -> Option<(NamedEnd, u32)>
    ensures { result ≡ end_and_guest rest.now }
{
    let (guest, rest) = leading_number(rest)?;
    let Some((ty, rest)) = leading_type(rest) else {
        return None;
    };
    let (handle, rest) = leading_number(rest)?;
    let to = number(rest)?;
    Some((NamedEnd { guest, ty, handle }, to))
}

// Handle, address and count, which a future's line does not have.
#[inline(always)]
#[tactic(auto, unfolding(crate::specs::Reading::place_words, crate::specs::Reading::two_numbers, crate::specs::Reading::three_numbers))]
fn place(ty: &TransmitIndex, rest: &[u8]) -> Option<(u32, u32, u32)>
    ensures { result ≡ place_words ty.now rest.now }
{
    let (handle, rest) = leading_number(rest)?;
    match ty {
        TransmitIndex::Stream(_) => {
            let (address, rest) = leading_number(rest)?;
            let count = number(rest)?;
            Some((handle, address, count))
        }
        TransmitIndex::Future(_) => {
            let address = number(rest)?;
            Some((handle, address, 1))
        }
    }
}

// What `write` and `read` name: an end, an address and a count.
#[inline(always)]
#[tactic(auto, unfolding(crate::specs::Reading::operands_of))]
pub(crate) fn operands(rest: &[u8]) -> Option<(NamedEnd, u32, u32)>
    ensures { result ≡ operands_of rest.now }
{
    let (guest, rest) = leading_number(rest)?;
    let Some((ty, rest)) = leading_type(rest) else {
        return None;
    };
    let (handle, address, count) = place(&ty, rest)?;
    Some((NamedEnd { guest, ty, handle }, address, count))
}

// What is fed: 1 to 64 bytes, or none for `end`.
#[tactic(auto, unfolding(crate::specs::Reading::fed_bytes))]
fn fed(word: &[u8]) -> Option<Chunk>
    ensures { result ≡ fed_bytes word.now }
{
    if word == b"end".as_slice() {
        Chunk::new(&[])
    } else {
        hex(word)
    }
}

#[tactic(auto, unfolding(crate::specs::Reading::number_and_fed))]
pub(crate) fn number_and_fed(rest: &[u8]) -> Option<(u32, Chunk)>
    ensures { result ≡ number_and_fed rest.now }
{
    let (host, rest) = leading_number(rest)?;
    let bytes = fed(rest)?;
    Some((host, bytes))
}

#[inline(always)]
#[tactic(auto, unfolding(crate::specs::Reading::place_and_bytes))]
pub(crate) fn place_and_bytes(rest: &[u8]) -> Option<(u32, u32, Chunk)>
    ensures { result ≡ place_and_bytes rest.now }
{
    let (guest, rest) = leading_number(rest)?;
    let (address, rest) = leading_number(rest)?;
    let bytes = hex(rest)?;
    Some((guest, address, bytes))
}

#[inline(always)]
#[tactic(auto, unfolding(crate::specs::Reading::place_and_len))]
pub(crate) fn place_and_len(rest: &[u8]) -> Option<(u32, u32, u32)>
    ensures { result ≡ place_and_len rest.now }
{
    let (guest, rest) = leading_number(rest)?;
    let (address, rest) = leading_number(rest)?;
    let len = number_within(rest, 1, 64)?;
    Some((guest, address, len))
}
