// The waves of all pieces of a run, in one pass.
ghost use Rattle.std.specs.Prelude.{◌≡◌, [], IfOk, length, vec_len};
ghost use Rattle.rk_waves.specs.Pieces.{waves_after};
ghost use Rattle.rk_waves.specs.Tells.{AllFit, gathers_by};

use crate::{Piece, Table};
use rk_base::NoMemory;
use std::alloc::Global;

/// The waves of pieces, in the order of the run, so many commands. Of each cell it is told whether it only gathers what
/// other cells hold, as the names of a directory do. It takes the time of the cells that the pieces name, however many
/// pairs of pieces there are.
pub fn waves(
    alloc: Global,
    gathers: &[bool],
    commands: usize,
    pieces: &[Piece],
) -> Result<Vec<usize>, NoMemory>
    ensures count { IfOk result (λ ws. vec_len ws ≡ length pieces.now) }
    // Of pieces whose commands and cells are told of.
    ensures waves { AllFit commands (length gathers.now) pieces.now → IfOk result (λ ws. ws.items ≡ waves_after (gathers_by gathers.now) [] pieces.now) }
{
    let mut table = Table::new(alloc, gathers, commands)?;
    let mut waves = Vec::new(alloc);
    'pieces: for piece in pieces {
        let wave = table.place(piece)?;
        waves.push(wave)?;
    }
    Ok(waves)
}
