//! Lines, each read as the one step that it spells.
//!
//! Here the commands stand in groups, those of most lines first; how arguments are read is in
//! `arguments`. Source: ours.

ghost use Rattle.std.specs.Prelude.{◌≡◌, ◌<◌, [], ◌∷◌, ◌++◌, true, is_some, slice_index_or};
ghost use Rattle.std.specs.Option.{option_to_list};
ghost use Rattle.strm_lines.specs.Reading.{often, touching, making, opening, pairing, ending, moving, hosting, gathering, explaining, commands_of, read_by, step_of};

mod arguments;

use crate::lines::arguments::{
    end_and_guest, named_end, nothing, number_and_fed, number_and_type, operands, place_and_bytes,
    place_and_len, three_numbers, two_numbers, two_numbers_and_type,
};
use crate::one_by_one::TakesSteps;
use crate::words::{behind, behind_both, number};
use strm_machine::acts::NamedEnd;
use strm_machine::steps::Step;

// Commands that stand together, with all that stand behind them.
enum Group {
    Often,
    Touching,
    Making,
    Opening,
    Pairing,
    Ending,
    Moving,
    Hosting,
    Gathering,
    Explaining,
}

// The byte at a place of a line; where there is none, 0.
#[inline(always)]
fn byte_at(line: &[u8], place: usize) -> u8
    ensures { result ≡ slice_index_or line.now place 0 }
{
    if place < line.len() { line[place] } else { 0 }
}

// Commands among which a line's own is, if it has one, by its first bytes.
#[inline(always)]
#[tactic(auto, using(crate::proofs::GroupLemmas::begins_c, crate::proofs::GroupLemmas::begins_dri, crate::proofs::GroupLemmas::begins_dr, crate::proofs::GroupLemmas::begins_d, crate::proofs::GroupLemmas::begins_er, crate::proofs::GroupLemmas::begins_f, crate::proofs::GroupLemmas::begins_h, crate::proofs::GroupLemmas::begins_g, crate::proofs::GroupLemmas::begins_n, crate::proofs::GroupLemmas::begins_l, crate::proofs::GroupLemmas::begins_m, crate::proofs::GroupLemmas::begins_pa, crate::proofs::GroupLemmas::begins_pi, crate::proofs::GroupLemmas::begins_p, crate::proofs::GroupLemmas::begins_s))]
fn group_of(line: &[u8]) -> Group
    ensures { read_by often line.now ≡ read_by (commands_of result) line.now }
{
    match byte_at(line, 0) {
        b'c' => Group::Ending,
        b'd' => match byte_at(line, 1) {
            b'r' => match byte_at(line, 2) {
                b'i' => Group::Hosting,
                _ => Group::Ending,
            },
            _ => Group::Touching,
        },
        b'e' => match byte_at(line, 1) {
            b'r' => Group::Explaining,
            _ => Group::Often,
        },
        b'f' | b'h' => Group::Hosting,
        b'g' => Group::Making,
        b'l' | b'm' => Group::Moving,
        b'n' => Group::Opening,
        b'p' => match byte_at(line, 1) {
            b'a' => Group::Pairing,
            b'i' => Group::Hosting,
            _ => Group::Touching,
        },
        b's' => Group::Gathering,
        _ => Group::Often,
    }
}

// Keeps the step that was read.
#[inline(always)]
fn keep<L: TakesSteps>(steps: &mut L, step: Step) -> bool
    requires room { 0 < L.room steps.old }
    ensures items { L.steps steps.new ≡ L.steps steps.old ++ step ∷ [] }
    ensures found { result ≡ true }
{
    steps.take(step);
    true
}

// Keeps the step that a line spells, where it spells one: each is made where it is to lie.
#[inline(always)]
#[tactic(auto, unfolding(crate::specs::Reading::step_of))]
pub(crate) fn keep_line<L: TakesSteps>(steps: &mut L, line: &[u8]) -> bool
    requires room { 0 < L.room steps.old }
    ensures items { L.steps steps.new ≡ L.steps steps.old ++ option_to_list (step_of line.now) }
    ensures found { result ≡ is_some (step_of line.now) }
{
    match group_of(line) {
        Group::Often => keep_often(steps, line),
        Group::Touching => keep_touching(steps, line),
        Group::Making => keep_making(steps, line),
        Group::Opening => keep_opening(steps, line),
        Group::Pairing => keep_pairing(steps, line),
        Group::Ending => keep_ending(steps, line),
        Group::Moving => keep_moving(steps, line),
        Group::Hosting => keep_hosting(steps, line),
        Group::Gathering => keep_gathering(steps, line),
        Group::Explaining => keep_explaining(steps, line),
    }
}

// Keeps that of a line that begins with a command of most lines, or with one of those below.
#[inline(always)]
#[tactic(auto, unfolding(crate::specs::Reading::often))]
fn keep_often<L: TakesSteps>(steps: &mut L, line: &[u8]) -> bool
    requires room { 0 < L.room steps.old }
    ensures items { L.steps steps.new
        ≡ L.steps steps.old ++ option_to_list (read_by often line.now) }
    ensures found { result ≡ is_some (read_by often line.now) }
{
    if let Some(rest) = behind(line, b"write ") {
        let Some((NamedEnd { guest, ty, handle }, address, count)) = operands(rest) else {
            return false;
        };
        keep(
            steps,
            Step::Write {
                guest,
                ty,
                handle,
                address,
                count,
            },
        )
    } else if let Some(rest) = behind(line, b"read ") {
        let Some((NamedEnd { guest, ty, handle }, address, count)) = operands(rest) else {
            return false;
        };
        keep(
            steps,
            Step::Read {
                guest,
                ty,
                handle,
                address,
                count,
            },
        )
    } else if let Some(rest) = behind(line, b"event ") {
        let Some((guest, handle)) = two_numbers(rest) else {
            return false;
        };
        keep(steps, Step::Event { guest, handle })
    } else {
        keep_touching(steps, line)
    }
}

// Keeps that of a line that begins with a command of a guest's memory, or with one of those below.
#[tactic(auto, unfolding(crate::specs::Reading::touching))]
fn keep_touching<L: TakesSteps>(steps: &mut L, line: &[u8]) -> bool
    requires room { 0 < L.room steps.old }
    ensures items { L.steps steps.new
        ≡ L.steps steps.old ++ option_to_list (read_by touching line.now) }
    ensures found { result ≡ is_some (read_by touching line.now) }
{
    if let Some(rest) = behind(line, b"poke ") {
        let Some((guest, address, bytes)) = place_and_bytes(rest) else {
            return false;
        };
        keep(
            steps,
            Step::Poke {
                guest,
                address,
                bytes,
            },
        )
    } else if let Some(rest) = behind(line, b"dump ") {
        let Some((guest, address, len)) = place_and_len(rest) else {
            return false;
        };
        keep(
            steps,
            Step::Dump {
                guest,
                address,
                len,
            },
        )
    } else {
        keep_making(steps, line)
    }
}

// The same of what makes guests.
#[tactic(auto, unfolding(crate::specs::Reading::making))]
fn keep_making<L: TakesSteps>(steps: &mut L, line: &[u8]) -> bool
    requires room { 0 < L.room steps.old }
    ensures items { L.steps steps.new
        ≡ L.steps steps.old ++ option_to_list (read_by making line.now) }
    ensures found { result ≡ is_some (read_by making line.now) }
{
    if let Some(rest) = behind(line, b"guest ") {
        let Some(size) = number(rest) else {
            return false;
        };
        keep(steps, Step::Guest { size })
    } else {
        keep_opening(steps, line)
    }
}

// The same of streams of one guest.
#[tactic(auto, unfolding(crate::specs::Reading::opening))]
fn keep_opening<L: TakesSteps>(steps: &mut L, line: &[u8]) -> bool
    requires room { 0 < L.room steps.old }
    ensures items { L.steps steps.new
        ≡ L.steps steps.old ++ option_to_list (read_by opening line.now) }
    ensures found { result ≡ is_some (read_by opening line.now) }
{
    if let Some(rest) = behind(line, b"new ") {
        let Some((guest, ty)) = number_and_type(rest) else {
            return false;
        };
        keep(steps, Step::New { guest, ty })
    } else {
        keep_pairing(steps, line)
    }
}

// The same of streams between two guests.
#[tactic(auto, unfolding(crate::specs::Reading::pairing))]
fn keep_pairing<L: TakesSteps>(steps: &mut L, line: &[u8]) -> bool
    requires room { 0 < L.room steps.old }
    ensures items { L.steps steps.new
        ≡ L.steps steps.old ++ option_to_list (read_by pairing line.now) }
    ensures found { result ≡ is_some (read_by pairing line.now) }
{
    if let Some(rest) = behind(line, b"pair ") {
        let Some((writer, reader, ty)) = two_numbers_and_type(rest) else {
            return false;
        };
        keep(steps, Step::Between { writer, reader, ty })
    } else {
        keep_ending(steps, line)
    }
}

// The same of drops and cancels.
#[tactic(auto, unfolding(crate::specs::Reading::ending, crate::specs::Reading::behind))]
fn keep_ending<L: TakesSteps>(steps: &mut L, line: &[u8]) -> bool
    requires room { 0 < L.room steps.old }
    ensures items { L.steps steps.new
        ≡ L.steps steps.old ++ option_to_list (read_by ending line.now) }
    ensures found { result ≡ is_some (read_by ending line.now) }
{
    if let Some(rest) = behind_both(line, b"drop-wri", b"te ") {
        let Some(NamedEnd { guest, ty, handle }) = named_end(rest) else {
            return false;
        };
        keep(steps, Step::DropWrite { guest, ty, handle })
    } else if let Some(rest) = behind_both(line, b"drop-rea", b"d ") {
        let Some(NamedEnd { guest, ty, handle }) = named_end(rest) else {
            return false;
        };
        keep(steps, Step::DropRead { guest, ty, handle })
    } else if let Some(rest) = behind_both(line, b"cancel-w", b"rite ") {
        let Some(NamedEnd { guest, ty, handle }) = named_end(rest) else {
            return false;
        };
        keep(steps, Step::CancelWrite { guest, ty, handle })
    } else if let Some(rest) = behind_both(line, b"cancel-r", b"ead ") {
        let Some(NamedEnd { guest, ty, handle }) = named_end(rest) else {
            return false;
        };
        keep(steps, Step::CancelRead { guest, ty, handle })
    } else if let Some(rest) = behind(line, b"close ") {
        let Some(reader) = number(rest) else {
            return false;
        };
        keep(steps, Step::Close { reader })
    } else {
        keep_moving(steps, line)
    }
}

// The same of read ends that change their owner.
#[tactic(auto, unfolding(crate::specs::Reading::moving))]
fn keep_moving<L: TakesSteps>(steps: &mut L, line: &[u8]) -> bool
    requires room { 0 < L.room steps.old }
    ensures items { L.steps steps.new
        ≡ L.steps steps.old ++ option_to_list (read_by moving line.now) }
    ensures found { result ≡ is_some (read_by moving line.now) }
{
    if let Some(rest) = behind(line, b"move ") {
        let Some((NamedEnd { guest, ty, handle }, to)) = end_and_guest(rest) else {
            return false;
        };
        keep(
            steps,
            Step::Move {
                guest,
                ty,
                handle,
                to,
            },
        )
    } else if let Some(rest) = behind(line, b"lift ") {
        let Some(NamedEnd { guest, ty, handle }) = named_end(rest) else {
            return false;
        };
        keep(steps, Step::Lift { guest, ty, handle })
    } else if let Some(rest) = behind(line, b"lower ") {
        let Some((reader, guest, ty)) = two_numbers_and_type(rest) else {
            return false;
        };
        keep(steps, Step::Lower { reader, guest, ty })
    } else {
        keep_hosting(steps, line)
    }
}

// The same of host ends.
#[tactic(auto, unfolding(crate::specs::Reading::hosting))]
fn keep_hosting<L: TakesSteps>(steps: &mut L, line: &[u8]) -> bool
    requires room { 0 < L.room steps.old }
    ensures items { L.steps steps.new
        ≡ L.steps steps.old ++ option_to_list (read_by hosting line.now) }
    ensures found { result ≡ is_some (read_by hosting line.now) }
{
    if let Some(rest) = behind(line, b"host ") {
        let Some(host) = number(rest) else {
            return false;
        };
        keep(steps, Step::HostNew { host })
    } else if let Some(rest) = behind(line, b"feed ") {
        let Some((host, bytes)) = number_and_fed(rest) else {
            return false;
        };
        keep(steps, Step::Feed { host, bytes })
    } else if let Some(rest) = behind(line, b"pipe ") {
        let Some((reader, host)) = two_numbers(rest) else {
            return false;
        };
        keep(steps, Step::Pipe { reader, host })
    } else if let Some(rest) = behind(line, b"grant ") {
        let Some((host, count)) = two_numbers(rest) else {
            return false;
        };
        keep(steps, Step::Grant { host, count })
    } else if let Some(rest) = behind(line, b"drive") {
        let Some(()) = nothing(rest) else {
            return false;
        };
        keep(steps, Step::Drive)
    } else {
        keep_gathering(steps, line)
    }
}

// The same of waitable sets.
#[tactic(auto, unfolding(crate::specs::Reading::gathering))]
fn keep_gathering<L: TakesSteps>(steps: &mut L, line: &[u8]) -> bool
    requires room { 0 < L.room steps.old }
    ensures items { L.steps steps.new
        ≡ L.steps steps.old ++ option_to_list (read_by gathering line.now) }
    ensures found { result ≡ is_some (read_by gathering line.now) }
{
    if let Some(rest) = behind_both(line, b"set-poll", b" ") {
        let Some((guest, set)) = two_numbers(rest) else {
            return false;
        };
        keep(steps, Step::SetPoll { guest, set })
    } else if let Some(rest) = behind_both(line, b"set-join", b" ") {
        let Some((guest, set, handle)) = three_numbers(rest) else {
            return false;
        };
        keep(steps, Step::SetJoin { guest, set, handle })
    } else if let Some(rest) = behind(line, b"set-new ") {
        let Some(guest) = number(rest) else {
            return false;
        };
        keep(steps, Step::SetNew { guest })
    } else if let Some(rest) = behind_both(line, b"set-drop", b" ") {
        let Some((guest, set)) = two_numbers(rest) else {
            return false;
        };
        keep(steps, Step::SetDrop { guest, set })
    } else {
        keep_explaining(steps, line)
    }
}

// The same of error contexts.
#[tactic(auto, unfolding(crate::specs::Reading::explaining, crate::specs::Reading::behind))]
fn keep_explaining<L: TakesSteps>(steps: &mut L, line: &[u8]) -> bool
    requires room { 0 < L.room steps.old }
    ensures items { L.steps steps.new
        ≡ L.steps steps.old ++ option_to_list (read_by explaining line.now) }
    ensures found { result ≡ is_some (read_by explaining line.now) }
{
    if let Some(rest) = behind_both(line, b"err-drop", b" ") {
        let Some((guest, handle)) = two_numbers(rest) else {
            return false;
        };
        keep(steps, Step::ErrDrop { guest, handle })
    } else if let Some(rest) = behind_both(line, b"err-move", b" ") {
        let Some((guest, handle, to)) = three_numbers(rest) else {
            return false;
        };
        keep(steps, Step::ErrMove { guest, handle, to })
    } else if let Some(rest) = behind(line, b"err-new ") {
        let Some((guest, address, len)) = three_numbers(rest) else {
            return false;
        };
        keep(
            steps,
            Step::ErrNew {
                guest,
                address,
                len,
            },
        )
    } else if let Some(rest) = behind_both(line, b"err-text", b" ") {
        let Some((guest, handle, address)) = three_numbers(rest) else {
            return false;
        };
        keep(
            steps,
            Step::ErrText {
                guest,
                handle,
                address,
            },
        )
    } else {
        false
    }
}
