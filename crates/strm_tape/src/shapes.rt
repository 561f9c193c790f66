//! The arguments of a step, by what they are.
//!
//! Source: ours.

ghost use Rattle.std.specs.Prelude.{◌≡◌};
ghost use Rattle.std.specs.Option.{option_map};
ghost use Rattle.strm_tape.specs.Reading.{followed_by_part, read_number, transmit_type, chunk, within, two, three, read_named_end, read_operands};

use crate::parts::{chunk, count_of, number, transmit_type, within};
use strm_codes::codes::TransmitIndex;
use strm_machine::chunks::Chunk;

#[inline(always)]
pub(crate) fn two_numbers(bytes: &[u8]) -> Option<(u32, u32, &[u8])>
    ensures { option_map (λ p. ((p.0, p.1), p.2.now)) result ≡ two bytes.now }
{
    let (first, rest) = number(bytes)?;
    let (second, rest) = number(rest)?;
    Some((first, second, rest))
}

#[inline(always)]
pub(crate) fn three_numbers(bytes: &[u8]) -> Option<(u32, u32, u32, &[u8])>
    ensures { option_map (λ p. ((p.0, (p.1, p.2)), p.3.now)) result ≡ three bytes.now }
{
    let (first, rest) = number(bytes)?;
    let (second, third, rest) = two_numbers(rest)?;
    Some((first, second, third, rest))
}

pub(crate) fn number_and_type(bytes: &[u8]) -> Option<(u32, TransmitIndex, &[u8])>
    ensures { option_map (λ p. ((p.0, p.1), p.2.now)) result
        ≡ followed_by_part read_number transmit_type bytes.now }
{
    let (number, rest) = number(bytes)?;
    let Some((ty, rest)) = transmit_type(rest) else {
        return None;
    };
    Some((number, ty, rest))
}

pub(crate) fn two_numbers_and_type(bytes: &[u8]) -> Option<(u32, u32, TransmitIndex, &[u8])>
    ensures { option_map (λ p. ((p.0, (p.1, p.2)), p.3.now)) result
        ≡ followed_by_part read_number (followed_by_part read_number transmit_type) bytes.now }
{
    let (first, rest) = number(bytes)?;
    let Some((second, ty, rest)) = number_and_type(rest) else {
        return None;
    };
    Some((first, second, ty, rest))
}

pub(crate) fn named_end(bytes: &[u8]) -> Option<(u32, TransmitIndex, u32, &[u8])>
    ensures { option_map (λ p. ((p.0, (p.1, p.2)), p.3.now)) result ≡ read_named_end bytes.now }
{
    let (guest, rest) = number(bytes)?;
    let Some((ty, rest)) = transmit_type(rest) else {
        return None;
    };
    let (handle, rest) = number(rest)?;
    Some((guest, ty, handle, rest))
}

pub(crate) fn end_and_guest(bytes: &[u8]) -> Option<(u32, TransmitIndex, u32, u32, &[u8])>
    ensures { option_map (λ p. ((p.0, (p.1, (p.2, p.3))), p.4.now)) result
        ≡ followed_by_part read_number (followed_by_part transmit_type two) bytes.now }
{
    let (guest, rest) = number(bytes)?;
    let Some((ty, rest)) = transmit_type(rest) else {
        return None;
    };
    let (handle, to, rest) = two_numbers(rest)?;
    Some((guest, ty, handle, to, rest))
}

pub(crate) fn operands(bytes: &[u8]) -> Option<(u32, TransmitIndex, u32, u32, u32, &[u8])>
    ensures { option_map (λ p. ((p.0, (p.1, (p.2, (p.3, p.4)))), p.5.now)) result
        ≡ read_operands bytes.now }
{
    let (guest, rest) = number(bytes)?;
    let Some((ty, rest)) = transmit_type(rest) else {
        return None;
    };
    let (handle, address, rest) = two_numbers(rest)?;
    let (count, rest) = count_of(&ty, rest)?;
    Some((guest, ty, handle, address, count, rest))
}

pub(crate) fn number_and_fed(bytes: &[u8]) -> Option<(u32, Chunk, &[u8])>
    ensures { option_map (λ p. ((p.0, p.1), p.2.now)) result
        ≡ followed_by_part read_number (chunk 0) bytes.now }
{
    let (host, rest) = number(bytes)?;
    let Some((fed, rest)) = chunk(0, rest) else {
        return None;
    };
    Some((host, fed, rest))
}

pub(crate) fn place_and_bytes(bytes: &[u8]) -> Option<(u32, u32, Chunk, &[u8])>
    ensures { option_map (λ p. ((p.0, (p.1, p.2)), p.3.now)) result
        ≡ followed_by_part read_number (followed_by_part read_number (chunk 1)) bytes.now }
{
    let (guest, address, rest) = two_numbers(bytes)?;
    let Some((put, rest)) = chunk(1, rest) else {
        return None;
    };
    Some((guest, address, put, rest))
}

pub(crate) fn place_and_len(bytes: &[u8]) -> Option<(u32, u32, u32, &[u8])>
    ensures { option_map (λ p. ((p.0, (p.1, p.2)), p.3.now)) result
        ≡ followed_by_part read_number (followed_by_part read_number (within 1 64)) bytes.now }
{
    let (guest, address, rest) = two_numbers(bytes)?;
    let (len, rest) = within(1, 64, rest)?;
    Some((guest, address, len, rest))
}
