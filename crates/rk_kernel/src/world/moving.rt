// What Rename reads and writes behind the ways of its paths.
ghost use Rattle.std.specs.Prelude.{◌≡◌, ◌++◌, ◌∷◌, [], IfOk, Option, Some, None, false, if◌then◌else◌, true, ℕ};
ghost use Rattle.rk_tree.specs.Entries.{is_dir};
ghost use Rattle.rk_tree.specs.Hierarchy.{node};
ghost use Rattle.rk_tree.specs.Refusals as refusals;
ghost use Rattle.rk_walk.specs.Places.{IsFreeName, IsNameOf};
ghost use Rattle.rk_walk.specs.declared.place.Place.TheVariants.{Absent, Found};
ghost use Rattle.rk_kernel.specs.Feet as feet;
ghost use Rattle.rk_kernel.specs.Foot.{at_spot, both, entry_cells, nothing, reading, upwards, writing};
ghost use Rattle.rk_kernel.specs.Spot.{spot_means, IsSpotOf};
ghost use Rattle.rk_kernel.specs.declared.cell.Cell.TheVariants as cell;

use crate::spot::Spot;
use crate::world::touching::entry;
use crate::{Cell, Foot, World};
use rk_base::{Name, NoMemory};
use rk_tree::NodeId;

impl World {
    // Where a directory stands; of what is none nothing is told.
    fn place_cells(&self, n: NodeId) -> Result<Vec<Cell>, NoMemory>
        ensures { IfOk result (λ cells. cells.items ≡ (if is_dir (node self.now.tree n) then cell.Above n ∷ [] else [])) }
    {
        if self.tree.is_dir(n) {
            return Ok(vec![in self.allocator(); Cell::Above(n)]?);
        }
        Ok(Vec::new(self.allocator()))
    }

    // Both entries, and where directories stand that are moved or replaced.
    fn moved_cells(
        &self,
        n: NodeId,
        from: &(NodeId, Name),
        to: NodeId,
        name: &Name,
        over: Option<NodeId>,
    ) -> Result<Vec<Cell>, NoMemory>
        ensures { IfOk result (λ cells. cells.items ≡ entry_cells (Some from.now) ++ (entry_cells (Some (to, name.now)) ++ ((if is_dir (node self.now.tree n) then cell.Above n ∷ [] else []) ++ feet.over_cells self.now over))) }
    {
        let alloc = self.allocator();
        let mut cells = entry(alloc, from.0, &from.1)?;
        let mut onto = entry(alloc, to, name)?;
        let mut place = self.place_cells(n)?;
        let mut gone = match over {
            None => Vec::new(alloc),
            Some(m) => self.place_cells(m)?,
        };
        place.append(&mut gone)?;
        onto.append(&mut place)?;
        cells.append(&mut onto)?;
        Ok(cells)
    }

    // Unless a directory would go into itself: where the second directory and all above it stand.
    fn unless_below(&self, n: NodeId, to: NodeId, rest: Foot) -> Result<Foot, NoMemory>
        requires { is_dir (node self.now.tree to) ≡ true }
        ensures { IfOk result (λ foot. foot ≡ both (reading (upwards self.now.tree to)) (if refusals.goes_below self.now.tree n to then nothing else rest)) }
    {
        let places = Foot::reading(self.upwards(to)?);
        if self.tree.is_dir(n) {
            if self.stands_within(n, to)? {
                return Ok(places);
            }
        }
        let foot = places.then(rest)?;
        Ok(foot)
    }

    // The modes of both directories, and then.
    fn modes_then(&self, from: NodeId, to: NodeId, rest: Foot) -> Result<Foot, NoMemory>
        ensures { IfOk result (λ foot. foot ≡ both (reading (cell.Mode from ∷ cell.Mode to ∷ [])) rest) }
    {
        let seen = vec![in self.allocator(); Cell::Mode(from), Cell::Mode(to)]?;
        let foot = Foot::reading(seen).then(rest)?;
        Ok(foot)
    }

    // To a name that stands for nothing.
    fn moved_to_foot(
        &self,
        n: NodeId,
        from: &(NodeId, Name),
        to: NodeId,
        name: &Name,
        slash: bool,
    ) -> Result<Foot, NoMemory>
        requires { IsFreeName self.now.tree to name.now }
        ensures { IfOk result (λ foot. foot ≡ feet.moved_foot self.now (Found (record { node = n; up = Some from.now; slash = false })) (Absent to name.now slash)) }
    {
        if self.lacks_w(from.0) {
            return self.sees(Cell::Mode(from.0));
        }
        if self.lacks_w(to) {
            return self.modes_then(from.0, to, self.rests());
        }
        if !self.tree.is_dir(n) && slash {
            return self.modes_then(from.0, to, self.rests());
        }
        let written = self.moved_cells(n, from, to, name, None)?;
        let moved = self.unless_below(n, to, Foot::writing(written))?;
        self.modes_then(from.0, to, moved)
    }

    // Unless names stand in what is replaced: all its entries, where it is a directory.
    fn unless_full(&self, m: NodeId, rest: Foot) -> Result<Foot, NoMemory>
        ensures { IfOk result (λ foot. foot ≡ both (reading (if is_dir (node self.now.tree m) then cell.Names m ∷ [] else [])) (if refusals.has_names self.now.tree m then nothing else rest)) }
    {
        if !self.tree.is_dir(m) {
            return Ok(rest);
        }
        let names = self.sees(Cell::Names(m))?;
        if self.has_names(m)? {
            return Ok(names);
        }
        let foot = names.then(rest)?;
        Ok(foot)
    }

    // In the place of another node.
    fn moved_over_foot(
        &self,
        n: NodeId,
        from: &(NodeId, Name),
        m: NodeId,
        to: &(NodeId, Name),
    ) -> Result<Foot, NoMemory>
        requires { IsNameOf self.now.tree m to.now.0 to.now.1 }
        ensures { IfOk result (λ foot. foot ≡ feet.moved_foot self.now (Found (record { node = n; up = Some from.now; slash = false })) (Found (record { node = m; up = Some to.now; slash = false }))) }
    {
        if self.lacks_w(from.0) {
            return self.sees(Cell::Mode(from.0));
        }
        if self.lacks_w(to.0) {
            return self.modes_then(from.0, to.0, self.rests());
        }
        if self.tree.is_dir(n) != self.tree.is_dir(m) {
            return self.modes_then(from.0, to.0, self.rests());
        }
        let written = self.moved_cells(n, from, to.0, &to.1, Some(m))?;
        let over = self.unless_full(m, Foot::writing(written))?;
        let moved = self.unless_below(n, to.0, over)?;
        self.modes_then(from.0, to.0, moved)
    }

    pub(super) fn rename_found_row(
        &self,
        n: NodeId,
        from: &(NodeId, Name),
        to: &Spot,
    ) -> Result<Foot, NoMemory>
        requires { IsSpotOf self.now.tree to.now }
        ensures { IfOk result (λ foot. foot ≡ at_spot (spot_means to.now) (feet.rename_foot self.now (Found (record { node = n; up = Some from.now; slash = false })))) }
    {
        match to {
            Spot::Fails(_) => Ok(self.rests()),
            Spot::Absent(dir, name, slash) => self.moved_to_foot(n, from, *dir, name, *slash),
            Spot::Found(_, None, _) => Ok(self.rests()),
            Spot::Found(m, Some(onto), _) => {
                if n == *m {
                    return Ok(self.rests());
                }
                self.moved_over_foot(n, from, *m, onto)
            }
        }
    }
}
