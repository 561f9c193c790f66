//! Why stages and an input make no chain.
//!
//! Meaning: `Faults.antt`. Ours.

ghost use Rattle.std.specs.Prelude.{◌≡◌, count_by};
ghost use Rattle.strm_chain.specs.Faults.{is_twice, fault_of};

use crate::stages::Stage;
use std::alloc::AllocError;
use strm_codes::counts::OutOfMemory;
use thiserror::Error;

/// The most stages of a chain.
pub const MAX_STAGES: usize = 8;

/// The most of them that are `Twice`.
pub const MAX_TWICE: usize = 2;

/// The most bytes of an input.
pub const MAX_INPUT: usize = 65_536;

/// Why there is no chain, or no end of one.
#[derive(Clone, Copy, Debug, PartialEq, Eq, Error)]
pub enum ChainError {
    /// There are more than 8 stages.
    #[error("there are more than {max} stages", max = MAX_STAGES)]
    TooManyStages,
    /// More than 2 of them are `Twice`.
    #[error("more than {max} stages give each byte twice", max = MAX_TWICE)]
    TooManyTwice,
    /// The input has more than 65,536 bytes.
    #[error("the input has more than {max} bytes", max = MAX_INPUT)]
    TooLong,
    /// An allocation was refused, or the play has no room for a turn of a caller or a schedule.
    #[error("out of memory")]
    OutOfMemory,
}

impl From<OutOfMemory> for ChainError {
    ghost use Rattle.strm_chain.specs.declared.faults.ChainError.TheVariants.{OutOfMemory as NoMemory};

    ghost from_gives = { λ _ e. e ≡ NoMemory };

    fn from(_error: OutOfMemory) -> ChainError {
        ChainError::OutOfMemory
    }
}

impl From<AllocError> for ChainError {
    ghost use Rattle.strm_chain.specs.declared.faults.ChainError.TheVariants.{OutOfMemory as NoMemory};

    ghost from_gives = { λ _ e. e ≡ NoMemory };

    fn from(_error: AllocError) -> ChainError {
        ChainError::OutOfMemory
    }
}

// Whether a stage is `Twice`.
fn is_twice(stage: &Stage) -> bool
    ensures { result ≡ is_twice stage.now }
{
    match stage {
        Stage::Twice => true,
        _ => false,
    }
}

/// How many of the stages are `Twice`.
pub fn count_twice(stages: &[Stage]) -> usize
    ensures { result ≡ count_by is_twice stages.now }
{
    let mut count = 0usize;
    for stage in stages {
        if is_twice(stage) {
            count += 1;
        }
    }
    count
}

// Why these stages and this input make no chain.
pub(crate) fn fault(stages: &[Stage], input: usize) -> Option<ChainError>
    ensures { result ≡ fault_of stages.now input }
{
    if stages.len() > MAX_STAGES {
        Some(ChainError::TooManyStages)
    } else if count_twice(stages) > MAX_TWICE {
        Some(ChainError::TooManyTwice)
    } else if input > MAX_INPUT {
        Some(ChainError::TooLong)
    } else {
        None
    }
}
