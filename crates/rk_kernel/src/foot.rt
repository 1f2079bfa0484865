// Feet.
ghost use Rattle.std.specs.Prelude.{◌≡◌, IfOk};
ghost use Rattle.rk_kernel.specs.Foot.{both, nothing, reading, writing};

use crate::{Cell, CellList};
use rk_base::NoMemory;
use std::alloc::Global;

/// The cells that a call reads, and those that it writes.
#[derive(Debug, Drop)]
pub struct Foot {
    pub reads: CellList,
    pub writes: CellList,
}

impl Foot {
    pub(crate) fn new(reads: Vec<Cell>, writes: Vec<Cell>) -> Foot
        ensures { result ≡ record { reads = reads.items; writes = writes.items } }
    {
        Foot {
            reads: CellList::from_vec(reads),
            writes: CellList::from_vec(writes),
        }
    }

    pub(crate) fn nothing(alloc: Global) -> Foot
        ensures { result ≡ nothing }
    {
        Foot::new(Vec::new(alloc), Vec::new(alloc))
    }

    pub(crate) fn reading(cells: Vec<Cell>) -> Foot
        ensures { result ≡ reading cells.items }
    {
        let none = Vec::new(*cells.allocator());
        Foot::new(cells, none)
    }

    pub(crate) fn writing(cells: Vec<Cell>) -> Foot
        ensures { result ≡ writing cells.items }
    {
        let none = Vec::new(*cells.allocator());
        Foot::new(none, cells)
    }

    // This, and then another one.
    pub(crate) fn then(self, next: Foot) -> Result<Foot, NoMemory>
        ensures { IfOk result (λ foot. foot ≡ both self next) }
    {
        let Foot {
            mut reads,
            mut writes,
        } = self;
        let Foot {
            reads: more_reads,
            writes: more_writes,
        } = next;
        reads.append(more_reads)?;
        writes.append(more_writes)?;
        Ok(Foot { reads, writes })
    }
}
