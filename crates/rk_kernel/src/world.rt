// The world.
ghost use Rattle.std.specs.Prelude.{◌≡◌, ◌≤◌, IfOk, drop, length, slice_get, slice_set};
ghost use Rattle.rk_tree.specs.Copies.{snapshot_of};
ghost use Rattle.rk_tree.specs.Entries.{IsWholeSnapshot};
ghost use Rattle.rk_tree.specs.Whole.{IsWhole};
ghost use Rattle.rk_kernel.specs.World.{fresh, text_of, with_offset};

mod answering;
mod asking;
mod changing;
mod files;
mod footing;
mod looking;
mod moving;
mod opening;
mod piping;
mod reading;
mod renaming;
mod touching;
mod trees;
mod upward;
mod writing;

use crate::Description;
use crate::pipe::{Pipe, skip_in};
use rk_base::NoMemory;
use rk_tree::{Snapshot, Tree};
use std::alloc::Global;
use std::marker::Model;

/// A tree, the open descriptions, the pipes, and what was written to the output and to the error text. It
/// answers every call but a launch.
#[derive(Drop)]
pub struct World {
    tree: Tree,
    opens: Vec<Description>,
    pipes: Vec<Pipe>,
    out: Vec<u8>,
    err: Vec<u8>,
}

impl Model for World {
    ghost use Rattle.rk_kernel.specs.World.{World, world_code};

    ghost Value = { World };

    ghost use Rattle.rk_kernel.specs.contracts.description.Description as description;
    ghost use Rattle.rk_tree.specs.Hierarchy.{hierarchy_code};

    ghost coded = { world_code hierarchy_code description.the_row.coded };

    ghost view = { λ w. record { tree = w.tree; opens = w.opens.items; pipes = w.pipes.items; out = w.out.items; err = w.err.items } };
}

impl World {
    /// The world of a tree in which nothing has run: description 0 is the empty input, 1 the output and 2 the
    /// error text.
    pub fn new(alloc: Global, tree: Tree) -> Result<World, NoMemory>
        ensures { IfOk result (λ w. w ≡ fresh tree) }
    {
        let opens = vec![in alloc;
            Description::empty_input(),
            Description::output(),
            Description::error_text(),
        ]?;
        Ok(World {
            tree,
            opens,
            pipes: Vec::new(alloc),
            out: Vec::new(alloc),
            err: Vec::new(alloc),
        })
    }

    /// What was written to the output.
    pub fn out(&self) -> &[u8]
        ensures { result.now ≡ self.now.out }
    {
        self.out.as_slice()
    }

    /// What was written to the error text.
    pub fn err(&self) -> &[u8]
        ensures { result.now ≡ self.now.err }
    {
        self.err.as_slice()
    }

    /// Each path of the tree with what stands there. The tree is whole, whatever was asked, and so is what it shows.
    pub fn snapshot(&self) -> Result<Snapshot, NoMemory>
        ensures tree { IsWhole self.now.tree }
        ensures snapshot { IfOk result (λ s. s ≡ snapshot_of self.now.tree) }
        ensures whole { IfOk result IsWholeSnapshot }
    {
        self.tree.snapshot()
    }

    fn allocator(&self) -> Global {
        *self.opens.allocator()
    }

    fn description(&self, k: usize) -> Option<Description>
        ensures { result ≡ slice_get self.now.opens k }
    {
        self.opens.get(k).copied()
    }

    fn set_offset(&mut self, k: usize, d: Description, offset: usize)
        ensures { self.new ≡ with_offset self.old k d offset }
    {
        if let Some(slot) = self.opens.get_mut(k) {
            *slot = Description { offset, ..d };
        }
    }

    // So many bytes of a pipe were read.
    fn skip(&mut self, p: usize, n: usize)
        requires { n ≤ length (text_of (slice_get self.old.pipes p)) }
        ensures { self.new ≡ record self.old { pipes = slice_set self.old.pipes p (drop n (text_of (slice_get self.old.pipes p))) } }
    {
        skip_in(&mut self.pipes, p, n);
    }
}
