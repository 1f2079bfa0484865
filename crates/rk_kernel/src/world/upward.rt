// Where directories stand, from one up to the root; and the number of the next node.
ghost use Rattle.std.specs.Prelude.{◌≡◌, ◌≤◌, ◌++◌, ◌∷◌, [], IfOk, IfSome, length, true};
ghost use Rattle.rk_base.specs.Text.{begins_with, is_within, stem};
ghost use Rattle.rk_tree.specs.Entries.{is_dir};
ghost use Rattle.rk_tree.specs.Hierarchy.{node, parent_of, path_of, stands_within};
ghost use Rattle.rk_kernel.specs.Feet.{next_node};
ghost use Rattle.rk_kernel.specs.Foot.{levels_of, upwards};

use crate::{Cell, World};
use rk_base::{NoMemory, Path};
use rk_tree::NodeId;
use std::alloc::Global;

fn stem(path: &Path) -> &[u8]
    ensures { result.now ≡ stem path.now }
{
    if path.is_root() { b"" } else { path.text() }
}

fn begins_with(text: &[u8], front: &[u8]) -> bool
    ensures { result ≡ begins_with text.now front.now }
{
    if text.len() < front.len() {
        return text == front;
    }
    text.split_at(front.len()).0 == front
}

fn begins_below(alloc: Global, above: &Path, path: &Path) -> Result<bool, NoMemory>
    ensures { IfOk result (λ is. is ≡ begins_with path.now (stem above.now ++ 47 ∷ [])) }
{
    let mut front = Vec::from_slice(alloc, stem(above))?;
    front.push(b'/')?;
    Ok(begins_with(path.text(), front.as_slice()))
}

// Whether a path is this one or stands anywhere below it.
#[tactic(auto, unfolding(rk_base::specs::Text::is_within))]
fn is_within(alloc: Global, above: &Path, path: &Path) -> Result<bool, NoMemory>
    ensures { IfOk result (λ is. is ≡ is_within above.now path.now) }
{
    let below = begins_below(alloc, above, path)?;
    Ok(path.text() == above.text() || below)
}

impl World {
    // How many names the path of a directory has.
    fn levels(&self, dir: NodeId) -> Result<usize, NoMemory>
        requires { is_dir (node self.now.tree dir) ≡ true }
        ensures { IfOk result (λ levels. levels ≡ levels_of (path_of self.now.tree dir)) }
    {
        match self.tree.path_of(dir)? {
            None => Ok(0),
            Some(path) => Ok(path.depth()),
        }
    }

    // What a directory stands in, which is a directory, as the tree is whole.
    fn parent(&self, dir: NodeId) -> Option<NodeId>
        requires { is_dir (node self.now.tree dir) ≡ true }
        ensures parent { result ≡ parent_of self.now.tree dir }
        ensures dir { IfSome result (λ up. is_dir (node self.now.tree up) ≡ true) }
    {
        let _root = self.tree.root();
        self.tree.parent(dir)
    }

    // Where a directory and all above it stand.
    pub(super) fn upwards(&self, dir: NodeId) -> Result<Vec<Cell>, NoMemory>
        requires { is_dir (node self.now.tree dir) ≡ true }
        ensures { IfOk result (λ cells. cells.items ≡ upwards self.now.tree dir) }
    {
        let levels = self.levels(dir)?;
        let mut cells = Vec::new(self.allocator());
        let mut at = dir;
        'up: for _ in 0..levels {
            cells.push(Cell::Above(at))?;
            match self.parent(at) {
                None => return Ok(cells),
                Some(up) => at = up,
            }
        }
        cells.push(Cell::Above(at))?;
        Ok(cells)
    }

    // Whether a directory is this one or stands anywhere below it.
    #[tactic(auto, unfolding(rk_tree::specs::Hierarchy::stands_within))]
    pub(super) fn stands_within(&self, above: NodeId, dir: NodeId) -> Result<bool, NoMemory>
        requires above { is_dir (node self.now.tree above) ≡ true }
        requires dir { is_dir (node self.now.tree dir) ≡ true }
        ensures { IfOk result (λ within. within ≡ stands_within self.now.tree above dir) }
    {
        let above = self.tree.path_of(above)?;
        let dir = self.tree.path_of(dir)?;
        match above {
            None => Ok(false),
            Some(above) => match dir {
                None => Ok(false),
                Some(path) => is_within(self.allocator(), &above, &path),
            },
        }
    }

    // A number from which on there are no nodes.
    fn past_nodes(&self) -> Result<usize, NoMemory>
        ensures { IfOk result (λ n. length self.now.tree.nodes ≤ n) }
    {
        let mut past: usize = 1;
        'past: while self.tree.has(NodeId::new(past)) {
            let Some(twice) = past.checked_mul(2) else {
                return Err(NoMemory);
            };
            past = twice;
        }
        Ok(past)
    }

    // The least number of no node, up to this one.
    fn first_free(&self, past: usize) -> usize
        requires { length self.now.tree.nodes ≤ past }
        ensures { result ≡ length self.now.tree.nodes }
    {
        let mut low: usize = 0;
        let mut high = past;
        'between: while low < high {
            let middle = low + (high - low) / 2;
            if self.tree.has(NodeId::new(middle)) {
                low = middle + 1;
            } else {
                high = middle;
            }
        }
        low
    }

    // The number that the next node gets.
    pub(super) fn next_node(&self) -> Result<NodeId, NoMemory>
        ensures { IfOk result (λ n. n ≡ next_node self.now) }
    {
        let past = self.past_nodes()?;
        Ok(NodeId::new(self.first_free(past)))
    }
}
