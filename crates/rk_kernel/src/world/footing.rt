// The cells that a call reads and writes.
ghost use Rattle.std.specs.Prelude.{◌≡◌, IfOk, false, true};
ghost use Rattle.rk_tree.specs.Hierarchy as hierarchy;
ghost use Rattle.rk_kernel.specs.Do.{followed, itself};
ghost use Rattle.rk_kernel.specs.Feet as feet;
ghost use Rattle.rk_kernel.specs.Foot.{along, at_spot, both, reading, way_cells};
ghost use Rattle.rk_kernel.specs.Rows.{strict};
ghost use Rattle.rk_kernel.specs.Spot.{spot_means, IsSpotOf};
ghost use Rattle.rk_walk.specs.Walk.{resolve};

use crate::spot::{Spot, spot_of, without_slash};
use crate::{Cell, Foot, World};
use rk_base::{Bytes, NoMemory};
use rk_calls::{Call, How, Refs};
use rk_walk::{Way, resolve_seeing};

// What the way of a path reads, and where it leads.
#[derive(Drop)]
pub(super) struct Led {
    cells: Vec<Cell>,
    pub(super) spot: Spot,
}

impl Led {
    // An absent name with a slash after it is no entry.
    fn strictly(self) -> Led
        ensures cells { result.cells.items ≡ self.cells.items }
        ensures means { spot_means result.spot ≡ strict (spot_means self.spot) }
        ensures stands { (tree : hierarchy.Hierarchy) → IsSpotOf tree self.spot → IsSpotOf tree result.spot }
    {
        let Led { cells, spot } = self;
        Led {
            cells,
            spot: without_slash(spot),
        }
    }

    // The way, and then what a row does.
    fn with(self, row: Foot) -> Result<Foot, NoMemory>
        ensures { IfOk result (λ foot. foot ≡ both (reading self.cells.items) row) }
    {
        let Led { cells, spot: _ } = self;
        let foot = Foot::reading(cells).then(row)?;
        Ok(foot)
    }
}

impl World {
    // The way of a path, whose last link is followed or not.
    fn led(&self, path: &Bytes, follow: bool) -> Result<Led, NoMemory>
        ensures cells { IfOk result (λ led. led.cells.items ≡ way_cells self.now path.now follow) }
        ensures means { IfOk result (λ led. spot_means led.spot ≡ resolve self.now.tree path.now follow) }
        ensures stands { IfOk result (λ led. IsSpotOf self.now.tree led.spot) }
    {
        let alloc = self.allocator();
        let way = resolve_seeing(alloc, &self.tree, path.as_slice(), follow)?;
        let Way { seen, place } = way;
        let spot = spot_of(alloc, place)?;
        let cells = seen.into_iter().map(Cell::seen).collect(alloc)?;
        Ok(Led { cells, spot })
    }

    // The way of a path, whose last link is followed; an absent name with a slash after it is no entry.
    fn led_on(&self, path: &Bytes) -> Result<Led, NoMemory>
        ensures cells { IfOk result (λ led. led.cells.items ≡ way_cells self.now path.now true) }
        ensures means { IfOk result (λ led. spot_means led.spot ≡ followed self.now path.now) }
        ensures stands { IfOk result (λ led. IsSpotOf self.now.tree led.spot) }
    {
        let led = self.led(path, true)?;
        Ok(led.strictly())
    }

    // The same, its last link not followed.
    fn led_itself(&self, path: &Bytes) -> Result<Led, NoMemory>
        ensures cells { IfOk result (λ led. led.cells.items ≡ way_cells self.now path.now false) }
        ensures means { IfOk result (λ led. spot_means led.spot ≡ itself self.now path.now) }
        ensures stands { IfOk result (λ led. IsSpotOf self.now.tree led.spot) }
    {
        let led = self.led(path, false)?;
        Ok(led.strictly())
    }

    fn open_foot(&self, path: &Bytes, how: How) -> Result<Foot, NoMemory>
        ensures { IfOk result (λ foot. foot ≡ along self.now path.now true (followed self.now path.now) (feet.open_foot self.now how)) }
    {
        let led = self.led_on(path)?;
        let row = self.open_row(how, &led.spot)?;
        led.with(row)
    }

    fn stat_foot(&self, path: &Bytes, follow: bool) -> Result<Foot, NoMemory>
        ensures { IfOk result (λ foot. foot ≡ along self.now path.now follow (resolve self.now.tree path.now follow) (feet.stat_foot self.now)) }
    {
        let led = self.led(path, follow)?;
        let row = self.stat_row(&led.spot)?;
        led.with(row)
    }

    fn list_foot(&self, path: &Bytes) -> Result<Foot, NoMemory>
        ensures { IfOk result (λ foot. foot ≡ along self.now path.now true (followed self.now path.now) (feet.list_foot self.now)) }
    {
        let led = self.led_on(path)?;
        let row = self.list_row(&led.spot)?;
        led.with(row)
    }

    fn read_link_foot(&self, path: &Bytes) -> Result<Foot, NoMemory>
        ensures { IfOk result (λ foot. foot ≡ along self.now path.now false (itself self.now path.now) feet.way_foot) }
    {
        let led = self.led_itself(path)?;
        let row = self.way_row(&led.spot);
        led.with(row)
    }

    fn walk_foot(&self, path: &Bytes) -> Result<Foot, NoMemory>
        ensures { IfOk result (λ foot. foot ≡ along self.now path.now true (followed self.now path.now) (feet.walk_foot self.now)) }
    {
        let led = self.led_on(path)?;
        let row = self.walk_row(&led.spot)?;
        led.with(row)
    }

    // The way of the second path, unless something stands in the way of the first one.
    fn same_row(&self, first: &Spot, path: &Bytes) -> Result<Foot, NoMemory>
        ensures { IfOk result (λ foot. foot ≡ at_spot (spot_means first.now) (λ _. along self.now path.now true (followed self.now path.now) feet.way_foot)) }
    {
        match first {
            Spot::Fails(_) => Ok(self.rests()),
            Spot::Absent(_, _, _) => self.way_foot(path),
            Spot::Found(_, _, _) => self.way_foot(path),
        }
    }

    // The way alone.
    fn way_foot(&self, path: &Bytes) -> Result<Foot, NoMemory>
        ensures { IfOk result (λ foot. foot ≡ along self.now path.now true (followed self.now path.now) feet.way_foot) }
    {
        let led = self.led_on(path)?;
        let row = self.way_row(&led.spot);
        led.with(row)
    }

    fn same_foot(&self, a: &Bytes, b: &Bytes) -> Result<Foot, NoMemory>
        ensures { IfOk result (λ foot. foot ≡ along self.now a.now true (followed self.now a.now) (λ _. along self.now b.now true (followed self.now b.now) feet.way_foot)) }
    {
        let led = self.led_on(a)?;
        let row = self.same_row(&led.spot, b)?;
        led.with(row)
    }

    fn mkdir_foot(&self, path: &Bytes, mode: u16) -> Result<Foot, NoMemory>
        ensures { IfOk result (λ foot. foot ≡ along self.now path.now false (resolve self.now.tree path.now false) (feet.mkdir_foot self.now mode)) }
    {
        let led = self.led(path, false)?;
        let row = self.mkdir_row(mode, &led.spot)?;
        led.with(row)
    }

    fn rmdir_foot(&self, path: &Bytes) -> Result<Foot, NoMemory>
        ensures { IfOk result (λ foot. foot ≡ along self.now path.now false (itself self.now path.now) (feet.rmdir_foot self.now)) }
    {
        let led = self.led_itself(path)?;
        let row = self.rmdir_row(&led.spot)?;
        led.with(row)
    }

    fn unlink_foot(&self, path: &Bytes) -> Result<Foot, NoMemory>
        ensures { IfOk result (λ foot. foot ≡ along self.now path.now false (itself self.now path.now) (feet.unlink_foot self.now)) }
    {
        let led = self.led_itself(path)?;
        let row = self.unlink_row(&led.spot)?;
        led.with(row)
    }

    fn symlink_foot(&self, text: &Bytes, path: &Bytes) -> Result<Foot, NoMemory>
        ensures { IfOk result (λ foot. foot ≡ along self.now path.now false (itself self.now path.now) (feet.symlink_foot self.now text.now)) }
    {
        let led = self.led_itself(path)?;
        let row = self.symlink_row(text, &led.spot)?;
        led.with(row)
    }

    // What the second path of Link looks at and what the call does there, by where the first one led.
    fn link_row(&self, from: &Spot, path: &Bytes) -> Result<Foot, NoMemory>
        ensures { IfOk result (λ foot. foot ≡ at_spot (spot_means from.now) (λ place. along self.now path.now false (itself self.now path.now) (feet.link_foot self.now place))) }
    {
        match from {
            Spot::Fails(_) => Ok(self.rests()),
            Spot::Absent(_, _, _) => {
                let led = self.led_itself(path)?;
                let row = self.way_row(&led.spot);
                led.with(row)
            }
            Spot::Found(n, _, _) => {
                let led = self.led_itself(path)?;
                let row = self.link_found_row(*n, &led.spot)?;
                led.with(row)
            }
        }
    }

    fn link_foot(&self, a: &Bytes, b: &Bytes) -> Result<Foot, NoMemory>
        ensures { IfOk result (λ foot. foot ≡ along self.now a.now false (itself self.now a.now) (λ place. along self.now b.now false (itself self.now b.now) (feet.link_foot self.now place))) }
    {
        let led = self.led_itself(a)?;
        let row = self.link_row(&led.spot, b)?;
        led.with(row)
    }

    // The same of Rename.
    fn rename_row(&self, from: &Spot, path: &Bytes) -> Result<Foot, NoMemory>
        requires { IsSpotOf self.now.tree from.now }
        ensures { IfOk result (λ foot. foot ≡ at_spot (spot_means from.now) (λ place. along self.now path.now false (resolve self.now.tree path.now false) (feet.rename_foot self.now place))) }
    {
        match from {
            Spot::Fails(_) => Ok(self.rests()),
            Spot::Absent(_, _, _) => {
                let led = self.led(path, false)?;
                let row = self.way_row(&led.spot);
                led.with(row)
            }
            Spot::Found(_, None, _) => {
                let led = self.led(path, false)?;
                let row = self.way_row(&led.spot);
                led.with(row)
            }
            Spot::Found(n, Some(up), _) => {
                let led = self.led(path, false)?;
                let row = self.rename_found_row(*n, up, &led.spot)?;
                led.with(row)
            }
        }
    }

    fn rename_foot(&self, a: &Bytes, b: &Bytes) -> Result<Foot, NoMemory>
        ensures { IfOk result (λ foot. foot ≡ along self.now a.now false (itself self.now a.now) (λ place. along self.now b.now false (resolve self.now.tree b.now false) (feet.rename_foot self.now place))) }
    {
        let led = self.led_itself(a)?;
        let row = self.rename_row(&led.spot, b)?;
        led.with(row)
    }

    fn chmod_foot(&self, path: &Bytes, mode: u16) -> Result<Foot, NoMemory>
        ensures { IfOk result (λ foot. foot ≡ along self.now path.now true (followed self.now path.now) (feet.chmod_foot mode)) }
    {
        let led = self.led_on(path)?;
        let row = self.chmod_row(mode, &led.spot)?;
        led.with(row)
    }

    /// The cells that a call reads and writes in this world. What the call makes is told by the numbers that come next, and no
    /// bytes are asked for: a file that wasn't read stays so. It fails for want of memory alone.
    pub fn foot(&self, refs: &Refs, call: &Call) -> Result<Foot, NoMemory>
        ensures foot { IfOk result (λ foot. foot ≡ feet.foot_by self.now refs.now call.now) }
    {
        match call {
            Call::Open(path, how) => self.open_foot(path, *how),
            Call::Read(r) => self.read_foot(refs, *r),
            Call::ReadLine(r) => self.read_foot(refs, *r),
            Call::Write(r, _) => self.write_foot(refs, *r),
            Call::Stat(path, follow) => self.stat_foot(path, *follow),
            Call::List(path) => self.list_foot(path),
            Call::ReadLink(path) => self.read_link_foot(path),
            Call::Walk(path) => self.walk_foot(path),
            Call::Same(a, b) => self.same_foot(a, b),
            Call::Mkdir(path, mode) => self.mkdir_foot(path, *mode),
            Call::Rmdir(path) => self.rmdir_foot(path),
            Call::Unlink(path) => self.unlink_foot(path),
            Call::Rename(a, b) => self.rename_foot(a, b),
            Call::Symlink(text, path) => self.symlink_foot(text, path),
            Call::Link(a, b) => self.link_foot(a, b),
            Call::Chmod(path, mode) => self.chmod_foot(path, *mode),
            Call::Pipe => self.pipe_foot(),
            Call::Launch(_, _) => Ok(self.rests()),
        }
    }
}
