//! Stages, each alone and one behind the other, against lists that were worked out by hand.

ghost use Rattle.std.specs.Prelude.{◌≤◌};

use crate::rows::holds;
use std::alloc::Global;
use strm_chain::chains::chain_all;
use strm_chain::faults::ChainError;
use strm_chain::stages::Stage;

// Stages, an input, and what they make of it.
#[derive(Clone, Copy)]
struct Row {
    stages: &'static [Stage],
    input: &'static [u8],
    output: &'static [u8],
}

// Whether the stages make this of the input, in pieces of this size.
fn is_made(alloc: Global, row: &Row, chunk: u32) -> Result<bool, ChainError>
    requires { (16 ≤ chunk) × (chunk ≤ 64) }
{
    let end = chain_all(alloc, row.stages, row.input.to_vec(alloc)?, chunk)?;
    Ok(end.ended && end.output.as_slice() == row.output)
}

const ALONE: [Row; 14] = [
    Row {
        stages: &[Stage::Copy],
        input: &[0, 1, 255],
        output: &[0, 1, 255],
    },
    Row {
        stages: &[Stage::Copy],
        input: &[],
        output: &[],
    },
    Row {
        stages: &[Stage::Add(0)],
        input: &[0, 255],
        output: &[0, 255],
    },
    Row {
        stages: &[Stage::Add(1)],
        input: &[0, 7, 254, 255],
        output: &[1, 8, 255, 0],
    },
    Row {
        stages: &[Stage::Add(255)],
        input: &[0, 1, 255],
        output: &[255, 0, 254],
    },
    Row {
        stages: &[Stage::Without(7)],
        input: &[7, 1, 7, 7, 2, 7],
        output: &[1, 2],
    },
    Row {
        stages: &[Stage::Without(0)],
        input: &[0, 0, 0],
        output: &[],
    },
    Row {
        stages: &[Stage::Twice],
        input: &[1, 2, 1],
        output: &[1, 1, 2, 2, 1, 1],
    },
    Row {
        stages: &[Stage::Sum],
        input: &[1, 2, 3, 250, 0, 5],
        output: &[1, 3, 6, 0, 0, 5],
    },
    Row {
        stages: &[Stage::First(0)],
        input: &[1, 2],
        output: &[],
    },
    Row {
        stages: &[Stage::First(2)],
        input: &[1, 2, 3],
        output: &[1, 2],
    },
    Row {
        stages: &[Stage::First(3)],
        input: &[1, 2, 3],
        output: &[1, 2, 3],
    },
    Row {
        stages: &[Stage::First(4_294_967_295)],
        input: &[9],
        output: &[9],
    },
    Row {
        stages: &[],
        input: &[3, 1, 2],
        output: &[3, 1, 2],
    },
];

#[test]
fn each_stage_alone(rt: HostRuntime) {
    for (at, row) in ALONE.iter().enumerate() {
        holds(&rt, is_made(rt.alloc(), row, 16), at);
        holds(&rt, is_made(rt.alloc(), row, 64), at);
    }
}

const TOGETHER: [Row; 5] = [
    Row {
        stages: &[Stage::Add(1), Stage::Twice],
        input: &[1, 2],
        output: &[2, 2, 3, 3],
    },
    Row {
        stages: &[Stage::Without(0), Stage::Sum, Stage::First(3)],
        input: &[0, 5, 0, 6, 7, 8],
        output: &[5, 11, 18],
    },
    Row {
        stages: &[Stage::Add(1), Stage::Twice],
        input: &[],
        output: &[],
    },
    // The first stage takes what the others would be given.
    Row {
        stages: &[Stage::First(0), Stage::Twice, Stage::Sum],
        input: &[1, 2, 3],
        output: &[],
    },
    // Eight stages, 20 bytes: more than a piece of 16 has. They are doubled, their zeros left out, counted on
    // from the first, doubled again, and cut where 33 are through.
    Row {
        stages: &[
            Stage::Copy,
            Stage::Twice,
            Stage::Without(0),
            Stage::Sum,
            Stage::Add(10),
            Stage::Twice,
            Stage::First(33),
            Stage::Copy,
        ],
        input: &[1, 0, 1, 1, 0, 1, 1, 1, 1, 1, 1, 1, 1, 1, 1, 1, 1, 1, 1, 1],
        output: &[
            11, 11, 12, 12, 13, 13, 14, 14, 15, 15, 16, 16, 17, 17, 18, 18, 19, 19, 20, 20, 21, 21,
            22, 22, 23, 23, 24, 24, 25, 25, 26, 26, 27,
        ],
    },
];

#[test]
fn stages_together(rt: HostRuntime) {
    for (at, row) in TOGETHER.iter().enumerate() {
        holds(&rt, is_made(rt.alloc(), row, 16), at);
        holds(&rt, is_made(rt.alloc(), row, 64), at);
    }
}
