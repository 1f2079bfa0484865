// Cells of a world.
ghost use Rattle.std.specs.Prelude.{◌≡◌, ◌++◌, OnOk};
ghost use Rattle.std.specs.Cmp.{partial_equiv_from_equiv};
ghost use Rattle.rk_kernel.specs.Cell.{cell_alike, cell_equiv, cell_writes, gathers, kind, name, number, same_cell};
ghost use Rattle.rk_kernel.specs.Foot.{cell_seen};

use rk_base::{Name, NoMemory};
use rk_tree::NodeId;
use rk_walk::Seen;
use std::hash::{Hash, Hasher};
use std::marker::Model;

/// A part of a world that calls read and write, by the numbers of that world. What a call makes has the number that comes next.
#[derive(Debug, Drop)]
pub enum Cell {
    /// What stands under a name in a directory, or that nothing does.
    Entry(NodeId, Name),
    /// All entries of a directory.
    Names(NodeId),
    /// Where a directory stands.
    Above(NodeId),
    /// The mode of a node.
    Mode(NodeId),
    /// The bytes of a file.
    Bytes(NodeId),
    /// An open description.
    Opened(usize),
    /// What a pipe holds.
    Pipe(usize),
    /// What was written to the output.
    Output,
    /// What was written to the error text.
    ErrorText,
}

impl Cell {
    /// Whether it gathers what other cells hold, as all entries of a directory do: two writes of it are no conflict.
    pub fn gathers(&self) -> bool
        ensures { result ≡ gathers self.now }
    {
        matches!(self, Cell::Names(_))
    }

    fn kind(&self) -> u8
        ensures { result ≡ kind self.now }
    {
        match self {
            Cell::Entry(_, _) => 0,
            Cell::Names(_) => 1,
            Cell::Above(_) => 2,
            Cell::Mode(_) => 3,
            Cell::Bytes(_) => 4,
            Cell::Opened(_) => 5,
            Cell::Pipe(_) => 6,
            Cell::Output => 7,
            Cell::ErrorText => 8,
        }
    }

    fn number(&self) -> usize
        ensures { result ≡ number self.now }
    {
        match self {
            Cell::Entry(dir, _) => dir.number(),
            Cell::Names(dir) => dir.number(),
            Cell::Above(dir) => dir.number(),
            Cell::Mode(node) => node.number(),
            Cell::Bytes(file) => file.number(),
            Cell::Opened(description) => *description,
            Cell::Pipe(pipe) => *pipe,
            Cell::Output => 0,
            Cell::ErrorText => 0,
        }
    }

    fn name(&self) -> &[u8]
        ensures { result.now ≡ name self.now }
    {
        match self {
            Cell::Entry(_, name) => name.as_slice(),
            _ => b"",
        }
    }

    // What a path looks at.
    pub(crate) fn seen(seen: Seen) -> Cell
        ensures { result ≡ cell_seen seen }
    {
        match seen {
            Seen::Mode(dir) => Cell::Mode(dir),
            Seen::Above(dir) => Cell::Above(dir),
            Seen::Entry(dir, name) => Cell::Entry(dir, name),
        }
    }
}

impl PartialEq for Cell {
    ghost eq = { same_cell };

    ghost laws = { partial_equiv_from_equiv cell_equiv };

    fn eq(&self, other: &Cell) -> bool {
        self.kind() == other.kind()
            && self.number() == other.number()
            && self.name() == other.name()
    }
}

impl Eq for Cell {
    ghost laws = { cell_equiv };
}

impl Hash for Cell {
    ghost hash_input = { cell_writes };

    ghost respects_eq = { cell_alike.fed };

    fn hash<H: Hasher>(&self, state: &mut H) {
        self.kind().hash(state);
        self.number().hash(state);
        self.name().hash(state);
    }
}

/// Cells, in the order in which a call comes to them. One may stand there more than once.
#[derive(Debug, Drop)]
pub struct CellList {
    cells: Vec<Cell>,
}

impl Model for CellList {
    ghost use Rattle.std.specs.Prelude.{List};
    ghost use Rattle.rk_kernel.specs.declared.cell.Cell.{Cell};

    ghost Value = { List Cell };

    ghost view = { λ l. l.cells.items };
}

impl CellList {
    /// The list of these cells.
    pub fn from_vec(cells: Vec<Cell>) -> CellList
        ensures { result ≡ cells.items }
    {
        CellList { cells }
    }

    /// Its cells, in their order.
    pub fn into_vec(self) -> Vec<Cell>
        ensures { result.items ≡ self }
    {
        let CellList { cells } = self;
        cells
    }

    /// Its cells, borrowed.
    pub fn as_slice(&self) -> &[Cell]
        ensures { result.now ≡ self.now }
    {
        self.cells.as_slice()
    }

    // With these cells behind its own.
    pub(crate) fn append(&mut self, more: CellList) -> Result<(), NoMemory>
        ensures { OnOk result (self.new ≡ self.old ++ more) }
    {
        let mut more = more.into_vec();
        self.cells.append(&mut more)?;
        Ok(())
    }
}
