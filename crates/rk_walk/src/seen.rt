// What is looked at on the way.
ghost use Rattle.std.specs.Prelude.{◌≡◌, ◌++◌, IfOk, OnOk, option_to_list};
ghost use Rattle.rk_walk.specs.Way.{looks, looks_up};

use crate::Label;
use rk_base::{Name, NoMemory, is_name};
use rk_tree::{NodeId, Tree, has_x};
use std::alloc::Global;

/// What a path looks at in a directory that it passes.
#[derive(Debug, Drop)]
pub enum Seen {
    /// Its mode.
    Mode(NodeId),
    /// Where it stands: it is left by `..`.
    Above(NodeId),
    /// What stands under a name in it, or that nothing does.
    Entry(NodeId, Name),
}

// What a component looks up in a directory with `x`.
fn look_up(alloc: Global, at: NodeId, name: &[u8]) -> Result<Option<Seen>, NoMemory>
    ensures { IfOk result (λ seen. option_to_list seen ≡ looks_up at name.now) }
{
    if name == b".".as_slice() {
        return Ok(None);
    }
    if name == b"..".as_slice() {
        return Ok(Some(Seen::Above(at)));
    }
    if !is_name(name) {
        return Ok(None);
    }
    if at.is_root() && name == b".rkr".as_slice() {
        return Ok(None);
    }
    let name = Label::new(name).to_name(alloc)?;
    Ok(Some(Seen::Entry(at, name)))
}

// What a component looks at in a directory is noted.
pub(crate) fn look(
    tree: &Tree,
    at: NodeId,
    name: &[u8],
    seen: &mut Vec<Seen>,
) -> Result<(), NoMemory>
    ensures { OnOk result (seen.new.items ≡ seen.old.items ++ looks tree.now at name.now) }
{
    if !tree.is_dir(at) {
        return Ok(());
    }
    seen.push(Seen::Mode(at))?;
    if !has_x(tree.mode(at)) {
        return Ok(());
    }
    match look_up(*seen.allocator(), at, name)? {
        None => Ok(()),
        Some(more) => {
            seen.push(more)?;
            Ok(())
        }
    }
}
