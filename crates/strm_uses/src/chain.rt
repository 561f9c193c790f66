//! A chain of guests: bytes go through two stages.

ghost use Rattle.std.specs.Prelude.{◌≡◌, ◌∷◌, [], IfOk};
ghost use Rattle.strm_chain.specs.Stages.{composed};
ghost use Rattle.strm_chain.specs.declared.stages.Stage.TheVariants.{Without, Twice};

use std::alloc::Global;
use strm_chain::chains::{ChainEnd, chain_all};
use strm_chain::faults::ChainError;
use strm_chain::stages::Stage;

/// Passes bytes through two guests, of which the first leaves out zeros and the second doubles each byte.
pub fn double(alloc: Global, input: Vec<u8>) -> Result<ChainEnd, ChainError>
    ensures output { IfOk result (λ end.
        end.output ≡ composed (Without 0 ∷ Twice ∷ []) input.items) }
{
    let stages = [Stage::Without(0), Stage::Twice];
    let end = chain_all(alloc, &stages, input, 64)?;
    Ok(end)
}
