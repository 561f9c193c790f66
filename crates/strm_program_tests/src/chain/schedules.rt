//! One chain under schedules that end it and schedules that do not.

use crate::rows::holds;
use std::alloc::Global;
use std::process::Abort;
use strm_chain::chains::{Chain, ChainEnd, chain_run};
use strm_chain::faults::ChainError;
use strm_chain::stages::Stage;
use strm_chain::workers::ChainTurn;

// Turns that are taken so many times, whether the sink is told then that there is no more, and what it
// has received.
#[derive(Clone, Copy)]
struct Row {
    round: &'static [u32],
    times: u32,
    ended: bool,
    output: &'static [u8],
}

// What the chain makes of its input.
const WHOLE: &[u8] = &[2, 2, 3, 3];

// The chain of two stages under this schedule.
fn run_by(alloc: Global, row: &Row) -> Result<ChainEnd, ChainError> {
    let mut schedule: Vec<u32> = Vec::new(alloc);
    for _ in 0..row.times {
        schedule.extend_from_slice(row.round)?;
    }
    let input = [1u8, 2].to_vec(alloc)?;
    let stages = [Stage::Add(1), Stage::Twice];
    chain_run(alloc, &stages, input, 64, schedule.as_slice())
}

fn goes(alloc: Global, row: &Row) -> Result<bool, ChainError> {
    let end = run_by(alloc, row)?;
    Ok(end.ended == row.ended && end.output.as_slice() == row.output)
}

const ENDING: [Row; 8] = [
    Row {
        round: &[0, 1, 2, 3],
        times: 12,
        ended: true,
        output: WHOLE,
    },
    Row {
        round: &[3, 2, 1, 0],
        times: 12,
        ended: true,
        output: WHOLE,
    },
    Row {
        round: &[0, 0, 1, 1, 2, 2, 3, 3],
        times: 8,
        ended: true,
        output: WHOLE,
    },
    Row {
        round: &[3, 0, 2, 1],
        times: 12,
        ended: true,
        output: WHOLE,
    },
    Row {
        round: &[1, 3, 0, 2],
        times: 12,
        ended: true,
        output: WHOLE,
    },
    // Numbers past the last guest begin again with the first.
    Row {
        round: &[4, 9, 14, 7, 4_294_967_295],
        times: 12,
        ended: true,
        output: WHOLE,
    },
    Row {
        round: &[0, 1, 0, 2, 0, 3, 3],
        times: 12,
        ended: true,
        output: WHOLE,
    },
    // The second stage waits for its turn while the others take fifteen each.
    Row {
        round: &[
            0, 1, 3, 0, 1, 3, 0, 1, 3, 0, 1, 3, 0, 1, 3, 0, 1, 3, 0, 1, 3, 0, 1, 3, 0, 1, 3, 0, 1,
            3, 0, 1, 3, 0, 1, 3, 0, 1, 3, 0, 1, 3, 0, 1, 3, 2,
        ],
        times: 12,
        ended: true,
        output: WHOLE,
    },
];

#[test]
fn schedules_that_end(rt: HostRuntime) {
    for (at, row) in ENDING.iter().enumerate() {
        holds(&rt, goes(rt.alloc(), row), at);
    }
}

const OTHER: [Row; 5] = [
    // The sink reads nothing; the source writes nothing; a stage passes nothing on.
    Row {
        round: &[0, 1, 2],
        times: 30,
        ended: false,
        output: &[],
    },
    Row {
        round: &[3, 2, 1],
        times: 30,
        ended: false,
        output: &[],
    },
    Row {
        round: &[0, 1, 3],
        times: 30,
        ended: false,
        output: &[],
    },
    Row {
        round: &[0, 1, 2, 3],
        times: 1,
        ended: false,
        output: &[],
    },
    Row {
        round: &[],
        times: 1,
        ended: false,
        output: &[],
    },
];

#[test]
fn schedules_that_do_not_end(rt: HostRuntime) {
    for (at, row) in OTHER.iter().enumerate() {
        holds(&rt, goes(rt.alloc(), row), at);
    }
}

// How many rounds of three guests it takes until the sink is told, of ten, and how many turns of them
// were idle.
fn rounds(alloc: Global) -> Result<(u32, u32), ChainError> {
    let input = [7u8].to_vec(alloc)?;
    let mut chain = Chain::new(alloc, &[Stage::Copy], input, 16)?;
    let mut idle = 0u32;
    for round in 0..10u32 {
        if chain.ended() {
            return Ok((round, idle));
        }
        for who in 0..3u32 {
            if who < chain.guests() && chain.turn(who)? == ChainTurn::Idle {
                idle = idle.saturating_add(1);
            }
        }
    }
    Ok((10, idle))
}

fn are(rt: &impl Abort, found: Result<(u32, u32), ChainError>, wanted: (u32, u32)) {
    assert_eq!(rt; found, Ok(wanted));
}

// The output of that chain after so many rounds, which a caller who drives it asks for.
fn driven(alloc: Global, count: u32) -> Result<ChainEnd, ChainError> {
    let input = [7u8].to_vec(alloc)?;
    let mut chain = Chain::new(alloc, &[Stage::Copy], input, 16)?;
    for _ in 0..count {
        for who in 0..3u32 {
            if who < chain.guests() {
                chain.turn(who)?;
            }
        }
    }
    chain.finish()
}

fn comes_to(alloc: Global, count: u32, ended: bool, output: &[u8]) -> Result<bool, ChainError> {
    let end = driven(alloc, count)?;
    Ok(end.ended == ended && end.output.as_slice() == output)
}

#[test]
fn a_caller_has_the_output(rt: HostRuntime) {
    holds(&rt, comes_to(rt.alloc(), 0, false, &[]), 0);
    holds(&rt, comes_to(rt.alloc(), 3, false, &[7]), 3);
    holds(&rt, comes_to(rt.alloc(), 4, true, &[7]), 4);
}

// In the first round the source writes, the stage reads that at once, and the sink's read waits. In the
// second the source and the sink hear of it, between them the stage writes. In the third the source drops
// its end, of which the stage is told, and the sink reads again. In the fourth the source has ended, so is
// idle, the stage drops its end, and the sink is told.
#[test]
fn turn_by_turn(rt: HostRuntime) {
    are(&rt, rounds(rt.alloc()), (4, 1));
}
