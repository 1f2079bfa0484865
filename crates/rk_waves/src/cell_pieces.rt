// Pieces of commands by the cells that they touch, as they come up.
ghost use Rattle.std.specs.Prelude.{◌≡◌, ◌++◌, Bool, IfOk, IfSome, OnOk, map};
ghost use Rattle.rk_waves.specs.CellPieces.{AllStand, AreBy, IsTold, RunPieces, closed, done, no_pieces, numbers_in, placed, touched};
ghost use Rattle.rk_waves.specs.Grown.{Grown};
ghost use Rattle.rk_waves.specs.Listed.{IsPlan, members};
ghost use Rattle.rk_waves.specs.Tells.{OwnersBelow};

use crate::{CellNumbers, Piece, Waves, waves};
use rk_base::NoMemory;
use std::alloc::Global;
use std::hash::Hash;
use std::marker::Model;
use std::mem;

/// Pieces of commands, as they come up in the order of a run, by the cells that their steps touch. A cell is kept once, and
/// the pieces name it by its number.
#[derive(Drop)]
pub struct CellPieces<C: Eq + Hash> {
    cells: CellNumbers<C>,
    ended: Vec<Piece>,
    // Of the steps since the last piece ended.
    reads: Vec<usize>,
    writes: Vec<usize>,
    begun: bool,
}

impl<C: Eq + Hash> Model for CellPieces<C> {
    ghost use Rattle.rk_waves.specs.CellPieces.{Pieced};

    ghost Value = { Pieced C };

    ghost view = { λ p. record { cells = p.cells; ended = p.ended.items; reads = p.reads.items; writes = p.writes.items; begun = p.begun } };
}

// Cells are put by their numbers, behind others.
fn put_numbers<C: Eq + Hash + Drop>(
    cells: &mut CellNumbers<C>,
    numbers: &mut Vec<usize>,
    given: Vec<C>,
) -> Result<(), NoMemory>
    ensures grown { OnOk result (Grown C.eq cells.old cells.new) }
    ensures numbers { OnOk result (numbers.new.items ≡ numbers.old.items ++ numbers_in C.eq cells.new given.items) }
    ensures stand { OnOk result (AllStand C.eq cells.new given.items) }
{
    'cells: for cell in given {
        let number = cells.number(cell)?;
        numbers.push(number)?;
    }
    Ok(())
}

// A number above those of all commands that have a piece; `None` only where there is no such number.
fn commands_of(pieces: &[Piece]) -> Option<usize>
    ensures { IfSome result (λ n. OwnersBelow n pieces.now) }
{
    let mut commands: usize = 0;
    'pieces: for piece in pieces {
        let above = piece.owner.checked_add(1)?;
        commands = commands.max(above);
    }
    Some(commands)
}

impl<C: Eq + Hash> CellPieces<C> {
    /// No pieces, and no step.
    pub fn new(alloc: Global) -> CellPieces<C>
        ensures none { AreBy C.eq no_pieces result }
    {
        CellPieces {
            cells: CellNumbers::new(alloc),
            ended: Vec::new(alloc),
            reads: Vec::new(alloc),
            writes: Vec::new(alloc),
            begun: false,
        }
    }

    /// The cells that were touched, in the order of their numbers.
    pub fn cells(&self) -> &[C]
        ensures { result.now ≡ self.now.cells }
    {
        self.cells.as_slice()
    }

    /// The steps since the last piece are a piece of this command, which launched another one. It fails for want of memory
    /// alone.
    pub fn close(&mut self, owner: usize) -> Result<(), NoMemory>
        ensures closed { (p : RunPieces C) → AreBy C.eq p self.old → OnOk result (AreBy C.eq (closed p owner) self.new) }
    {
        let alloc = *self.reads.allocator();
        let reads = mem::replace(&mut self.reads, Vec::new(alloc));
        let writes = mem::replace(&mut self.writes, Vec::new(alloc));
        self.ended.push(Piece {
            owner,
            reads,
            writes,
        })?;
        self.begun = false;
        Ok(())
    }

    /// The steps since the last piece, if there are some, are a piece of this command, which has ended. It fails for want of
    /// memory alone.
    pub fn end(&mut self, owner: usize) -> Result<(), NoMemory>
        ensures done { (p : RunPieces C) → AreBy C.eq p self.old → OnOk result (AreBy C.eq (done p owner) self.new) }
    {
        if self.begun {
            self.close(owner)?;
        }
        Ok(())
    }

    /// The waves of the pieces, with the commands that have a step in each. Of each cell it is told whether it only gathers
    /// what other cells hold, in the order of `cells`. It fails for want of memory alone.
    pub fn plan(&self, alloc: Global, gathers: &[bool]) -> Result<Waves, NoMemory>
        ensures plan { (p : RunPieces C) (g : C → Bool) → IsTold C.eq g → AreBy C.eq p self.now → gathers.now ≡ map g self.now.cells
            → IfOk result (IsPlan (members (placed C.eq g p.ended))) }
    {
        let pieces = self.ended.as_slice();
        let Some(commands) = commands_of(pieces) else {
            return Err(NoMemory);
        };
        let waves = waves(alloc, gathers, commands, pieces)?;
        Waves::of(alloc, pieces, waves.as_slice())
    }
}

impl<C: Eq + Hash + Drop> CellPieces<C> {
    /// A step was taken that reads and writes these cells. It fails for want of memory alone.
    pub fn touch(&mut self, reads: Vec<C>, writes: Vec<C>) -> Result<(), NoMemory>
        ensures touched { (p : RunPieces C) → AreBy C.eq p self.old
            → OnOk result (AreBy C.eq (touched p (record { reads = reads.items; writes = writes.items })) self.new) }
    {
        put_numbers(&mut self.cells, &mut self.reads, reads)?;
        put_numbers(&mut self.cells, &mut self.writes, writes)?;
        self.begun = true;
        Ok(())
    }
}
