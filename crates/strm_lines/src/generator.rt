//! The generator: a list of steps from a number and a seed.
//!
//! Source: ours. The draws are those of the example of `rand` in the C standard.

ghost use Rattle.std.specs.Prelude.{◌≡◌, ◌≢◌, ◌↔◌, ◌<◌, ◌+◌, ◌∷◌, ℕ, drop, IfOk, Err};
ghost use Rattle.std.specs.List.{range_with_len};
ghost use Rattle.strm_lines.specs.Generator.{next_state, drawn, drawn_step, first_steps, generated};

use crate::lists::Steps;
use crate::one_by_one::GivesSteps;
use crate::parsing::ParseError;
use std::alloc::Global;
use std::marker::Model;
use strm_codes::codes::TransmitIndex;
use strm_codes::payloads::Payload;
use strm_codes::scalars::Scalar;
use strm_machine::chunks::Chunk;
use strm_machine::steps::Step;

/// The most steps that are drawn: with the four before them they are as many as an input has lines.
pub const MAX_DRAWN: u32 = 262_140;

const BYTE_STREAM: TransmitIndex = TransmitIndex::Stream(Payload::One(Scalar::U8));

// Numbers that are drawn one after the other.
#[derive(Clone, Copy)]
struct Draws {
    state: u32,
}

impl Draws {
    // The next one, below 32768.
    fn draw(&mut self) -> u32
        ensures state { self.new.state ≡ next_state self.old.state }
        ensures number { result ≡ drawn self.new.state }
    {
        self.state = ((u64::from(self.state) * 1_103_515_245 + 12_345) % (1 << 31)) as u32;
        self.state / 65_536
    }
}

/// The generator's steps, each drawn when it is given. Contracts see it as the list of those that it has
/// not given.
#[derive(Drop)]
pub struct Drawn {
    // How many of the first four it has given.
    begun: u32,
    draws: Draws,
    // How many it has still to draw.
    count: u32,
}

impl Model for Drawn {
    ghost use Rattle.std.specs.Prelude.{List, ◌++◌, drop};
    ghost use Rattle.strm_machine.specs.declared.steps.Step.{Step};
    ghost use Rattle.strm_lines.specs.Generator.{first_steps, drawn_steps};

    ghost Value = { List Step };

    ghost view = { λ d. drop d.begun first_steps ++ drawn_steps d.count d.draws.state };
}

impl Drawn {
    /// So many steps behind the first four, from this seed.
    pub fn new(count: u32, seed: u32) -> Drawn
        ensures { result ≡ generated count seed }
    {
        Drawn {
            begun: 0,
            draws: Draws {
                state: seed % (1 << 31),
            },
            count,
        }
    }
}

impl GivesSteps for Drawn {
    ghost left = { λ d. d };

    fn len(&self) -> usize {
        4usize.saturating_sub(self.begun as usize) + self.count as usize
    }

    fn put_next(&mut self, step: &mut Step) {
        if self.begun < 4 {
            *step = first_step(self.begun);
            self.begun += 1;
            return;
        }
        let first = self.draws.draw();
        let second = self.draws.draw();
        let third = self.draws.draw();
        self.count -= 1;
        *step = drawn_step(first, second, third);
    }
}

/// Four steps that make two guests, a stream of bytes from the one to the other, and bytes to write; and
/// behind them so many that are drawn: writes, reads, events and moves.
pub fn generate(alloc: Global, count: u32, seed: u32) -> Result<Steps, ParseError>
    ensures ok { IfOk result (λ steps. steps ≡ generated count seed) }
    ensures too_long { (result ≡ Err ParseError.TooLong) ↔ (MAX_DRAWN < count) }
    ensures no_lines { (line : ℕ) → result ≢ Err (ParseError.BadLine line) }
{
    if count > MAX_DRAWN {
        return Err(ParseError::TooLong);
    }
    let mut drawn = Drawn::new(count, seed);
    match Steps::given(alloc, &mut drawn) {
        Ok(steps) => Ok(steps),
        Err(_) => Err(ParseError::OutOfMemory),
    }
}

// The first four steps, by their numbers from 0.
fn first_step(number: u32) -> Step
    requires { number < 4 }
    ensures { drop number first_steps ≡ result ∷ drop (number + 1) first_steps }
{
    match number {
        0 | 1 => Step::Guest { size: 65_536 },
        2 => Step::Between {
            writer: 0,
            reader: 1,
            ty: BYTE_STREAM,
        },
        _ => Step::Poke {
            guest: 0,
            address: 0,
            bytes: first_bytes(),
        },
    }
}

// The bytes 0 to 63.
fn first_bytes() -> Chunk
    ensures { result ≡ range_with_len 0 64 }
{
    let mut bytes = [0u8; 64];
    for k in 0..64usize {
        bytes[k] = k as u8;
    }
    match Chunk::new(&bytes) {
        Some(chunk) => chunk,
        None => unreachable!(),
    }
}

// The step of three draws.
fn drawn_step(first: u32, second: u32, third: u32) -> Step
    ensures { result ≡ drawn_step first second third }
{
    let address = second;
    let count = third % 1024;
    match first % 8 {
        0..=2 => Step::Write {
            guest: 0,
            ty: BYTE_STREAM,
            handle: 1,
            address,
            count,
        },
        3..=5 => Step::Read {
            guest: 1,
            ty: BYTE_STREAM,
            handle: 1,
            address,
            count,
        },
        6 => Step::Event {
            guest: 0,
            handle: 1,
        },
        _ if second % 2 == 0 => Step::Event {
            guest: 1,
            handle: 1,
        },
        _ => Step::Move {
            guest: 0,
            ty: BYTE_STREAM,
            handle: 1,
            to: 0,
        },
    }
}
