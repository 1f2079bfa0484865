// What a call reads and writes behind the ways of its paths, but for Rename: a row for each call.
ghost use Rattle.std.specs.Prelude.{◌≡◌, ◌++◌, ◌∷◌, [], IfOk, Some, false, if◌then◌else◌, slice_get, true};
ghost use Rattle.rk_calls.specs.Refs.{ref_at};
ghost use Rattle.rk_tree.specs.Hierarchy.{mode_of, node};
ghost use Rattle.rk_tree.specs.Refusals as refusals;
ghost use Rattle.rk_walk.specs.declared.place.Place.TheVariants.{Absent, Found};
ghost use Rattle.rk_kernel.specs.Feet as feet;
ghost use Rattle.rk_kernel.specs.Foot.{at_spot, both, entry_cells, nothing, reading, writing};
ghost use Rattle.rk_kernel.specs.Spot.{spot_means, IsSpotOf};
ghost use Rattle.rk_kernel.specs.declared.cell.Cell.TheVariants as cell;

use crate::spot::Spot;
use crate::world::opening::{is_read, lacks};
use crate::{Cell, Description, Foot, Source, World};
use rk_base::{Bytes, FileType, Name, NoMemory, has_nul};
use rk_calls::{How, Refs};
use rk_tree::{NodeId, has_r, has_x};
use std::alloc::Global;

// A name in a directory, and so all names of it.
pub(super) fn entry(alloc: Global, dir: NodeId, name: &Name) -> Result<Vec<Cell>, NoMemory>
    ensures { IfOk result (λ cells. cells.items ≡ entry_cells (Some (dir, name.now))) }
{
    let name = name.copy()?;
    let cells = vec![in alloc; Cell::Entry(dir, name), Cell::Names(dir)]?;
    Ok(cells)
}

// What is read of it.
fn source_cells(alloc: Global, k: usize, source: Source) -> Result<Vec<Cell>, NoMemory>
    ensures { IfOk result (λ cells. cells.items ≡ cell.Opened k ∷ feet.source_cells source) }
{
    let cells = match source {
        Source::Node(n) => vec![in alloc; Cell::Opened(k), Cell::Bytes(NodeId::new(n))]?,
        Source::Pipe(p) => vec![in alloc; Cell::Opened(k), Cell::Pipe(p)]?,
        Source::Output => vec![in alloc; Cell::Opened(k)]?,
        Source::ErrorText => vec![in alloc; Cell::Opened(k)]?,
        Source::Nothing => vec![in alloc; Cell::Opened(k)]?,
    };
    Ok(cells)
}

// What reading takes of it.
fn taken_cells(alloc: Global, k: usize, source: Source) -> Result<Vec<Cell>, NoMemory>
    ensures { IfOk result (λ cells. cells.items ≡ feet.taken_cells k source) }
{
    match source {
        Source::Node(_) => Ok(vec![in alloc; Cell::Opened(k)]?),
        Source::Pipe(p) => Ok(vec![in alloc; Cell::Pipe(p)]?),
        Source::Output => Ok(Vec::new(alloc)),
        Source::ErrorText => Ok(Vec::new(alloc)),
        Source::Nothing => Ok(Vec::new(alloc)),
    }
}

// What is written by it.
fn put_cells(alloc: Global, k: usize, d: Description) -> Result<Vec<Cell>, NoMemory>
    ensures { IfOk result (λ cells. cells.items ≡ feet.put_cells k d d.source) }
{
    match d.source {
        Source::Node(n) => {
            let bytes = Cell::Bytes(NodeId::new(n));
            if d.append {
                return Ok(vec![in alloc; bytes]?);
            }
            Ok(vec![in alloc; bytes, Cell::Opened(k)]?)
        }
        Source::Pipe(p) => Ok(vec![in alloc; Cell::Pipe(p)]?),
        Source::Output => Ok(vec![in alloc; Cell::Output]?),
        Source::ErrorText => Ok(vec![in alloc; Cell::ErrorText]?),
        Source::Nothing => Ok(Vec::new(alloc)),
    }
}

impl World {
    // It reads one cell.
    pub(super) fn sees(&self, it: Cell) -> Result<Foot, NoMemory>
        ensures { IfOk result (λ foot. foot ≡ reading (it ∷ [])) }
    {
        let cells = vec![in self.allocator(); it]?;
        Ok(Foot::reading(cells))
    }

    // It does nothing.
    pub(super) fn rests(&self) -> Foot
        ensures { result ≡ nothing }
    {
        Foot::nothing(self.allocator())
    }

    fn open_absent_foot(&self, how: How, dir: NodeId, name: &Name) -> Result<Foot, NoMemory>
        ensures { IfOk result (λ foot. foot ≡ feet.open_foot self.now how (Absent dir name.now false)) }
    {
        if is_read(how) {
            return Ok(self.rests());
        }
        if self.lacks_w(dir) {
            return self.sees(Cell::Mode(dir));
        }
        let alloc = self.allocator();
        let name = name.copy()?;
        let seen = vec![in alloc; Cell::Mode(dir)]?;
        let open = Cell::Opened(self.opens.len());
        let written = vec![in alloc; open, Cell::Entry(dir, name), Cell::Names(dir)]?;
        Ok(Foot::new(seen, written))
    }

    fn open_found_foot(&self, how: How, n: NodeId) -> Result<Foot, NoMemory>
        ensures { IfOk result (λ foot. foot ≡ feet.open_foot self.now how (Found (record { node = n; up = None; slash = false }))) }
    {
        if self.tree.is_dir(n) {
            return Ok(self.rests());
        }
        if lacks(how, self.tree.mode(n)) {
            return self.sees(Cell::Mode(n));
        }
        let alloc = self.allocator();
        let seen = vec![in alloc; Cell::Mode(n)]?;
        let open = Cell::Opened(self.opens.len());
        match how {
            How::Read => Ok(Foot::new(seen, vec![in alloc; open]?)),
            How::Make => Ok(Foot::new(seen, vec![in alloc; open, Cell::Bytes(n)]?)),
            How::Append => Ok(Foot::new(seen, vec![in alloc; open]?)),
        }
    }

    pub(super) fn open_row(&self, how: How, spot: &Spot) -> Result<Foot, NoMemory>
        ensures { IfOk result (λ foot. foot ≡ at_spot (spot_means spot.now) (feet.open_foot self.now how)) }
    {
        match spot {
            Spot::Fails(_) => Ok(self.rests()),
            Spot::Absent(dir, name, _) => self.open_absent_foot(how, *dir, name),
            Spot::Found(n, _, _) => self.open_found_foot(how, *n),
        }
    }

    fn read_by_foot(&self, k: usize, d: Description) -> Result<Foot, NoMemory>
        ensures { IfOk result (λ foot. foot ≡ feet.read_by_foot k (Some d)) }
    {
        if !d.read {
            return self.sees(Cell::Opened(k));
        }
        let seen = source_cells(self.allocator(), k, d.source)?;
        let taken = taken_cells(self.allocator(), k, d.source)?;
        Ok(Foot::new(seen, taken))
    }

    pub(super) fn read_foot(&self, refs: &Refs, r: u64) -> Result<Foot, NoMemory>
        ensures { IfOk result (λ foot. foot ≡ feet.read_foot self.now (ref_at refs.now r)) }
    {
        match refs.at(r) {
            None => Ok(self.rests()),
            Some(k) => match self.description(k) {
                None => self.sees(Cell::Opened(k)),
                Some(d) => self.read_by_foot(k, d),
            },
        }
    }

    fn write_by_foot(&self, k: usize, d: Description) -> Result<Foot, NoMemory>
        ensures { IfOk result (λ foot. foot ≡ feet.write_by_foot k (Some d)) }
    {
        if !d.write {
            return self.sees(Cell::Opened(k));
        }
        let seen = vec![in self.allocator(); Cell::Opened(k)]?;
        let put = put_cells(self.allocator(), k, d)?;
        Ok(Foot::new(seen, put))
    }

    pub(super) fn write_foot(&self, refs: &Refs, r: u64) -> Result<Foot, NoMemory>
        ensures { IfOk result (λ foot. foot ≡ feet.write_foot self.now (ref_at refs.now r)) }
    {
        match refs.at(r) {
            None => Ok(self.rests()),
            Some(k) => match self.description(k) {
                None => self.sees(Cell::Opened(k)),
                Some(d) => self.write_by_foot(k, d),
            },
        }
    }

    pub(super) fn pipe_foot(&self) -> Result<Foot, NoMemory>
        ensures { IfOk result (λ foot. foot ≡ feet.pipe_foot self.now) }
    {
        let Some(second) = self.opens.len().checked_add(1) else {
            return Err(NoMemory);
        };
        let first = Cell::Opened(self.opens.len());
        let pipe = Cell::Pipe(self.pipes.len());
        let made = vec![in self.allocator(); first, Cell::Opened(second), pipe]?;
        Ok(Foot::writing(made))
    }

    fn stat_found_foot(&self, n: NodeId) -> Result<Foot, NoMemory>
        requires { refusals.is_there (node self.now.tree n) ≡ true }
        ensures { IfOk result (λ foot. foot ≡ reading (feet.stat_cells n (node self.now.tree n))) }
    {
        let alloc = self.allocator();
        match self.tree.kind(n) {
            FileType::File => {
                let seen = vec![in alloc; Cell::Mode(n), Cell::Bytes(n)]?;
                Ok(Foot::reading(seen))
            }
            FileType::Dir => self.sees(Cell::Mode(n)),
            FileType::Link => Ok(self.rests()),
        }
    }

    pub(super) fn stat_row(&self, spot: &Spot) -> Result<Foot, NoMemory>
        requires { IsSpotOf self.now.tree spot.now }
        ensures { IfOk result (λ foot. foot ≡ at_spot (spot_means spot.now) (feet.stat_foot self.now)) }
    {
        match spot {
            Spot::Fails(_) => Ok(self.rests()),
            Spot::Absent(_, _, _) => Ok(self.rests()),
            Spot::Found(n, _, _) => self.stat_found_foot(*n),
        }
    }

    pub(super) fn list_row(&self, spot: &Spot) -> Result<Foot, NoMemory>
        ensures { IfOk result (λ foot. foot ≡ at_spot (spot_means spot.now) (feet.list_foot self.now)) }
    {
        match spot {
            Spot::Fails(_) => Ok(self.rests()),
            Spot::Absent(_, _, _) => Ok(self.rests()),
            Spot::Found(n, _, _) => {
                if !self.tree.is_dir(*n) {
                    return Ok(self.rests());
                }
                if !has_r(self.tree.mode(*n)) {
                    return self.sees(Cell::Mode(*n));
                }
                let seen = vec![in self.allocator(); Cell::Mode(*n), Cell::Names(*n)]?;
                Ok(Foot::reading(seen))
            }
        }
    }

    // The way alone.
    pub(super) fn way_row(&self, spot: &Spot) -> Foot
        ensures { result ≡ at_spot (spot_means spot.now) feet.way_foot }
    {
        match spot {
            Spot::Fails(_) => self.rests(),
            Spot::Absent(_, _, _) => self.rests(),
            Spot::Found(_, _, _) => self.rests(),
        }
    }

    pub(super) fn walk_row(&self, spot: &Spot) -> Result<Foot, NoMemory>
        ensures { IfOk result (λ foot. foot ≡ at_spot (spot_means spot.now) (feet.walk_foot self.now)) }
    {
        match spot {
            Spot::Fails(_) => Ok(self.rests()),
            Spot::Absent(_, _, _) => Ok(self.rests()),
            Spot::Found(n, _, _) => {
                if !self.tree.is_dir(*n) {
                    return Ok(self.rests());
                }
                if !has_x(self.tree.mode(*n)) {
                    return self.sees(Cell::Mode(*n));
                }
                let mode = self.sees(Cell::Mode(*n))?;
                let places = self.upwards(*n)?;
                let foot = mode.then(Foot::reading(places))?;
                Ok(foot)
            }
        }
    }

    // A directory gains or loses a name, and more is written.
    fn name_foot(&self, dir: NodeId, name: &Name, more: Vec<Cell>) -> Result<Foot, NoMemory>
        ensures { IfOk result (λ foot. foot ≡ both (reading (cell.Mode dir ∷ [])) (if refusals.lacks_w self.now.tree dir then nothing else writing (entry_cells (Some (dir, name.now)) ++ more.items))) }
    {
        let mut more = more;
        if self.lacks_w(dir) {
            return self.sees(Cell::Mode(dir));
        }
        let seen = vec![in self.allocator(); Cell::Mode(dir)]?;
        let mut written = entry(self.allocator(), dir, name)?;
        written.append(&mut more)?;
        Ok(Foot::new(seen, written))
    }

    pub(super) fn mkdir_row(&self, mode: u16, spot: &Spot) -> Result<Foot, NoMemory>
        ensures { IfOk result (λ foot. foot ≡ at_spot (spot_means spot.now) (feet.mkdir_foot self.now mode)) }
    {
        match spot {
            Spot::Fails(_) => Ok(self.rests()),
            Spot::Absent(dir, name, _) => {
                if 0o777 < mode {
                    return Ok(self.rests());
                }
                let made = self.next_node()?;
                let place = vec![in self.allocator(); Cell::Above(made)]?;
                self.name_foot(*dir, name, place)
            }
            Spot::Found(_, _, _) => {
                if 0o777 < mode {
                    return Ok(self.rests());
                }
                Ok(self.rests())
            }
        }
    }

    pub(super) fn symlink_row(&self, text: &Bytes, spot: &Spot) -> Result<Foot, NoMemory>
        ensures { IfOk result (λ foot. foot ≡ at_spot (spot_means spot.now) (feet.symlink_foot self.now text.now)) }
    {
        match spot {
            Spot::Fails(_) => Ok(self.rests()),
            Spot::Absent(dir, name, _) => {
                if text.as_slice().is_empty() || has_nul(text.as_slice()) {
                    return Ok(self.rests());
                }
                self.name_foot(*dir, name, Vec::new(self.allocator()))
            }
            Spot::Found(_, _, _) => {
                if text.as_slice().is_empty() || has_nul(text.as_slice()) {
                    return Ok(self.rests());
                }
                Ok(self.rests())
            }
        }
    }

    // What was found gets a second name.
    pub(super) fn link_found_row(&self, n: NodeId, to: &Spot) -> Result<Foot, NoMemory>
        ensures { IfOk result (λ foot. foot ≡ at_spot (spot_means to.now) (feet.link_foot self.now (Found (record { node = n; up = None; slash = false })))) }
    {
        match to {
            Spot::Fails(_) => Ok(self.rests()),
            Spot::Absent(dir, name, _) => {
                if self.tree.is_dir(n) {
                    return Ok(self.rests());
                }
                self.name_foot(*dir, name, Vec::new(self.allocator()))
            }
            Spot::Found(_, _, _) => {
                if self.tree.is_dir(n) {
                    return Ok(self.rests());
                }
                Ok(self.rests())
            }
        }
    }

    pub(super) fn unlink_row(&self, spot: &Spot) -> Result<Foot, NoMemory>
        requires { IsSpotOf self.now.tree spot.now }
        ensures { IfOk result (λ foot. foot ≡ at_spot (spot_means spot.now) (feet.unlink_foot self.now)) }
    {
        match spot {
            Spot::Fails(_) => Ok(self.rests()),
            Spot::Absent(_, _, _) => Ok(self.rests()),
            Spot::Found(n, up, _) => {
                if self.tree.is_dir(*n) {
                    return Ok(self.rests());
                }
                match up {
                    None => Ok(self.rests()),
                    Some((dir, name)) => { self.name_foot(*dir, name, Vec::new(self.allocator())) }
                }
            }
        }
    }

    // Whether names stand in a directory.
    pub(super) fn has_names(&self, dir: NodeId) -> Result<bool, NoMemory>
        ensures { IfOk result (λ has. has ≡ refusals.has_names self.now.tree dir) }
    {
        if !self.tree.is_dir(dir) {
            return Ok(false);
        }
        let names = self.tree.list(dir)?;
        Ok(!names.as_slice().is_empty())
    }

    // A directory under a name is removed.
    fn rmdir_name_foot(&self, n: NodeId, dir: NodeId, name: &Name) -> Result<Foot, NoMemory>
        ensures { IfOk result (λ foot. foot ≡ feet.rmdir_foot self.now (Found (record { node = n; up = Some (dir, name.now); slash = false }))) }
    {
        if !self.tree.is_dir(n) {
            return Ok(self.rests());
        }
        let names = self.sees(Cell::Names(n))?;
        if self.has_names(n)? {
            return Ok(names);
        }
        let place = vec![in self.allocator(); Cell::Above(n)]?;
        let row = self.name_foot(dir, name, place)?;
        let foot = names.then(row)?;
        Ok(foot)
    }

    pub(super) fn rmdir_row(&self, spot: &Spot) -> Result<Foot, NoMemory>
        ensures { IfOk result (λ foot. foot ≡ at_spot (spot_means spot.now) (feet.rmdir_foot self.now)) }
    {
        match spot {
            Spot::Fails(_) => Ok(self.rests()),
            Spot::Absent(_, _, _) => Ok(self.rests()),
            Spot::Found(_, None, _) => Ok(self.rests()),
            Spot::Found(n, Some((dir, name)), _) => self.rmdir_name_foot(*n, *dir, name),
        }
    }

    pub(super) fn chmod_row(&self, mode: u16, spot: &Spot) -> Result<Foot, NoMemory>
        ensures { IfOk result (λ foot. foot ≡ at_spot (spot_means spot.now) (feet.chmod_foot mode)) }
    {
        match spot {
            Spot::Fails(_) => Ok(self.rests()),
            Spot::Absent(_, _, _) => {
                if 0o777 < mode {
                    return Ok(self.rests());
                }
                Ok(self.rests())
            }
            Spot::Found(n, _, _) => {
                if 0o777 < mode {
                    return Ok(self.rests());
                }
                let written = vec![in self.allocator(); Cell::Mode(*n)]?;
                Ok(Foot::writing(written))
            }
        }
    }
}
