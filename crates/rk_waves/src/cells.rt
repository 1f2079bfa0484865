// Cells by numbers.
ghost use Rattle.std.specs.Prelude.{◌<◌, ◌≡◌, [], IfOk, OnErr, OnOk, length};
ghost use Rattle.rk_waves.specs.CellNumbers.{number_in, with_cell};

use indexmap::IndexSet;
use rk_base::NoMemory;
use std::alloc::Global;
use std::hash::Hash;
use std::marker::Model;

/// Cells, each with a number from 0 on, in the order in which they came up: each stands once. These numbers are those of
/// a `Piece`.
#[derive(Drop)]
pub struct CellNumbers<C: Eq + Hash> {
    cells: IndexSet<C>,
}

impl<C: Eq + Hash> Model for CellNumbers<C> {
    ghost use Rattle.std.specs.Prelude.{List};

    ghost Value = { List C };

    ghost view = { λ n. n.cells.keys };
}

impl<C: Eq + Hash> CellNumbers<C> {
    /// No cells.
    pub fn new(alloc: Global) -> CellNumbers<C>
        ensures value { result ≡ [] }
    {
        CellNumbers {
            cells: IndexSet::new(alloc),
        }
    }

    /// All of them, in the order of their numbers.
    pub fn as_slice(&self) -> &[C]
        ensures value { result.now ≡ self.now }
    {
        self.cells.as_slice()
    }
}

impl<C: Eq + Hash + Drop> CellNumbers<C> {
    /// The number of a cell, which is added behind the others where it is new. It fails for want of memory alone.
    pub fn number(&mut self, cell: C) -> Result<usize, NoMemory>
        ensures number { IfOk result (λ n. n ≡ number_in C.eq self.old cell) }
        ensures all { OnOk result (self.new ≡ with_cell C.eq self.old cell) }
        ensures err { OnErr result (self.new ≡ self.old) }
        ensures within { IfOk result (λ n. n < length self.new) }
    {
        let (number, _) = self.cells.insert_full(cell)?;
        Ok(number)
    }
}
