//! The steps of a tape, each read as the one step that it spells.
//!
//! Here the commands stand in groups, by their places. Source: ours.

ghost use Rattle.std.specs.Prelude.{◌≡◌, ◌≤◌};
ghost use Rattle.std.specs.Option.{option_map};
ghost use Rattle.strm_tape.specs.Reading.{step, step_by};

use crate::parts::{byte, number};
use crate::shapes::{
    end_and_guest, named_end, number_and_fed, number_and_type, operands, place_and_bytes,
    place_and_len, three_numbers, two_numbers, two_numbers_and_type,
};
use strm_machine::steps::Step;

// A step, and what follows it.
#[tactic(auto, unfolding(crate::specs::Reading::step))]
pub(crate) fn step(bytes: &[u8]) -> Option<(Step, &[u8])>
    ensures { option_map (λ p. (p.0, p.1.now)) result ≡ step bytes.now }
{
    let (place, rest) = byte(bytes)?;
    step_by(place, rest)
}

// The step whose command has this place, and what follows it.
#[tactic(auto, using(crate::proofs::StepLemmas::no_place))]
fn step_by(place: u8, bytes: &[u8]) -> Option<(Step, &[u8])>
    ensures { option_map (λ p. (p.0, p.1.now)) result ≡ step_by place bytes.now }
{
    if place < 1 || place > 29 {
        None
    } else if place < 9 {
        guest_or_operation(place, bytes)
    } else if place < 17 {
        end(place, bytes)
    } else if place < 24 {
        host_or_set(place, bytes)
    } else {
        text_or_memory(place, bytes)
    }
}

// Guests, streams, reads and writes, and the cancels.
#[tactic(auto, unfolding(crate::specs::Reading::step_by))]
fn guest_or_operation(place: u8, bytes: &[u8]) -> Option<(Step, &[u8])>
    requires low { 1 ≤ place }
    requires high { place ≤ 8 }
    ensures { option_map (λ p. (p.0, p.1.now)) result ≡ step_by place bytes.now }
{
    match place {
        1 => {
            let Some((size, rest)) = number(bytes) else {
                return None;
            };
            Some((Step::Guest { size }, rest))
        }
        2 => {
            let Some((guest, ty, rest)) = number_and_type(bytes) else {
                return None;
            };
            Some((Step::New { guest, ty }, rest))
        }
        3 => {
            let Some((writer, reader, ty, rest)) = two_numbers_and_type(bytes) else {
                return None;
            };
            Some((Step::Between { writer, reader, ty }, rest))
        }
        4 => {
            let Some((guest, ty, handle, address, count, rest)) = operands(bytes) else {
                return None;
            };
            Some((
                Step::Write {
                    guest,
                    ty,
                    handle,
                    address,
                    count,
                },
                rest,
            ))
        }
        5 => {
            let Some((guest, ty, handle, address, count, rest)) = operands(bytes) else {
                return None;
            };
            Some((
                Step::Read {
                    guest,
                    ty,
                    handle,
                    address,
                    count,
                },
                rest,
            ))
        }
        6 => {
            let Some((guest, ty, handle, rest)) = named_end(bytes) else {
                return None;
            };
            Some((Step::CancelWrite { guest, ty, handle }, rest))
        }
        7 => {
            let Some((guest, ty, handle, rest)) = named_end(bytes) else {
                return None;
            };
            Some((Step::CancelRead { guest, ty, handle }, rest))
        }
        8 => {
            let Some((guest, ty, handle, rest)) = named_end(bytes) else {
                return None;
            };
            Some((Step::DropWrite { guest, ty, handle }, rest))
        }
        _ => unreachable!(),
    }
}

// Ends: drops, events and moves.
#[tactic(auto, unfolding(crate::specs::Reading::step_by))]
fn end(place: u8, bytes: &[u8]) -> Option<(Step, &[u8])>
    requires low { 9 ≤ place }
    requires high { place ≤ 16 }
    ensures { option_map (λ p. (p.0, p.1.now)) result ≡ step_by place bytes.now }
{
    match place {
        9 => {
            let Some((guest, ty, handle, rest)) = named_end(bytes) else {
                return None;
            };
            Some((Step::DropRead { guest, ty, handle }, rest))
        }
        10 => {
            let Some((guest, handle, rest)) = two_numbers(bytes) else {
                return None;
            };
            Some((Step::Event { guest, handle }, rest))
        }
        11 => {
            let Some((guest, ty, handle, to, rest)) = end_and_guest(bytes) else {
                return None;
            };
            Some((
                Step::Move {
                    guest,
                    ty,
                    handle,
                    to,
                },
                rest,
            ))
        }
        12 => {
            let Some((guest, ty, handle, rest)) = named_end(bytes) else {
                return None;
            };
            Some((Step::Lift { guest, ty, handle }, rest))
        }
        13 => {
            let Some((reader, guest, ty, rest)) = two_numbers_and_type(bytes) else {
                return None;
            };
            Some((Step::Lower { reader, guest, ty }, rest))
        }
        14 => {
            let Some((reader, host, rest)) = two_numbers(bytes) else {
                return None;
            };
            Some((Step::Pipe { reader, host }, rest))
        }
        15 => {
            let Some((reader, rest)) = number(bytes) else {
                return None;
            };
            Some((Step::Close { reader }, rest))
        }
        16 => {
            let Some((host, rest)) = number(bytes) else {
                return None;
            };
            Some((Step::HostNew { host }, rest))
        }
        _ => unreachable!(),
    }
}

// Host ends and waitable sets.
#[tactic(auto, unfolding(crate::specs::Reading::step_by))]
fn host_or_set(place: u8, bytes: &[u8]) -> Option<(Step, &[u8])>
    requires low { 17 ≤ place }
    requires high { place ≤ 23 }
    ensures { option_map (λ p. (p.0, p.1.now)) result ≡ step_by place bytes.now }
{
    match place {
        17 => Some((Step::Drive, bytes)),
        18 => {
            let Some((host, bytes, rest)) = number_and_fed(bytes) else {
                return None;
            };
            Some((Step::Feed { host, bytes }, rest))
        }
        19 => {
            let Some((host, count, rest)) = two_numbers(bytes) else {
                return None;
            };
            Some((Step::Grant { host, count }, rest))
        }
        20 => {
            let Some((guest, rest)) = number(bytes) else {
                return None;
            };
            Some((Step::SetNew { guest }, rest))
        }
        21 => {
            let Some((guest, set, handle, rest)) = three_numbers(bytes) else {
                return None;
            };
            Some((Step::SetJoin { guest, set, handle }, rest))
        }
        22 => {
            let Some((guest, set, rest)) = two_numbers(bytes) else {
                return None;
            };
            Some((Step::SetPoll { guest, set }, rest))
        }
        23 => {
            let Some((guest, set, rest)) = two_numbers(bytes) else {
                return None;
            };
            Some((Step::SetDrop { guest, set }, rest))
        }
        _ => unreachable!(),
    }
}

// Error contexts and memories.
#[tactic(auto, unfolding(crate::specs::Reading::step_by))]
fn text_or_memory(place: u8, bytes: &[u8]) -> Option<(Step, &[u8])>
    requires low { 24 ≤ place }
    requires high { place ≤ 29 }
    ensures { option_map (λ p. (p.0, p.1.now)) result ≡ step_by place bytes.now }
{
    match place {
        24 => {
            let Some((guest, address, len, rest)) = three_numbers(bytes) else {
                return None;
            };
            Some((
                Step::ErrNew {
                    guest,
                    address,
                    len,
                },
                rest,
            ))
        }
        25 => {
            let Some((guest, handle, address, rest)) = three_numbers(bytes) else {
                return None;
            };
            Some((
                Step::ErrText {
                    guest,
                    handle,
                    address,
                },
                rest,
            ))
        }
        26 => {
            let Some((guest, handle, to, rest)) = three_numbers(bytes) else {
                return None;
            };
            Some((Step::ErrMove { guest, handle, to }, rest))
        }
        27 => {
            let Some((guest, handle, rest)) = two_numbers(bytes) else {
                return None;
            };
            Some((Step::ErrDrop { guest, handle }, rest))
        }
        28 => {
            let Some((guest, address, bytes, rest)) = place_and_bytes(bytes) else {
                return None;
            };
            Some((
                Step::Poke {
                    guest,
                    address,
                    bytes,
                },
                rest,
            ))
        }
        29 => {
            let Some((guest, address, len, rest)) = place_and_len(bytes) else {
                return None;
            };
            Some((
                Step::Dump {
                    guest,
                    address,
                    len,
                },
                rest,
            ))
        }
        _ => unreachable!(),
    }
}
