// The rows of attributes that keep what a folder doesn't.
ghost use Rattle.std.specs.Prelude.{◌≡◌, ◌++◌, [], IfOk, OnOk};
ghost use Rattle.std.specs.List.{cons_option};
ghost use Rattle.rk_tree.specs.Entries.{IsWholeSnapshot};
ghost use Rattle.rk_tree.specs.Node.{File, Dir};
ghost use Rattle.rk_tree.specs.declared.content.Content.TheVariants.{Own};
ghost use Rattle.rk_changes.specs.Attributes.{row_of, attr_row, attrs_of, RowsKeep, PlainHeld, BuiltHeld};

use rk_attrs::{AttrRow, Attrs, DIR_MODE, FILE_MODE};
use rk_base::{NoMemory, Path};
use rk_tree::{Entry, Node, Snapshot};
use std::alloc::Global;

fn file_row(mode: u16) -> Option<AttrRow>
    ensures { result ≡ row_of (File mode (Own [])) }
{
    if mode == FILE_MODE {
        None
    } else {
        Some(AttrRow::FileMode(mode))
    }
}

fn dir_row(mode: u16) -> Option<AttrRow>
    ensures { result ≡ row_of (Dir mode) }
{
    if mode == DIR_MODE {
        None
    } else {
        Some(AttrRow::DirMode(mode))
    }
}

// A mode that isn't the default, or a link.
fn row_of(it: &Node) -> Result<Option<AttrRow>, NoMemory>
    ensures { IfOk result (λ row. row ≡ row_of it.now) }
{
    match it.entry() {
        Entry::File(mode, _) => Ok(file_row(*mode)),
        Entry::Dir(mode) => Ok(dir_row(*mode)),
        Entry::Link(text) => {
            let text = text.copy()?;
            Ok(Some(AttrRow::Link(text)))
        }
    }
}

fn push_row(rows: &mut Vec<(Path, AttrRow)>, path: &Path, it: &Node) -> Result<(), NoMemory>
    ensures { OnOk result (rows.new.items ≡ rows.old.items ++ cons_option (attr_row (path.now, it.now)) []) }
{
    match row_of(it)? {
        None => Ok(()),
        Some(row) => {
            rows.push((path.copy()?, row))?;
            Ok(())
        }
    }
}

fn rows_of(alloc: Global, snapshot: &Snapshot) -> Result<Vec<(Path, AttrRow)>, NoMemory>
    ensures { IfOk result (λ rows. rows.items ≡ attrs_of snapshot.now) }
{
    let mut rows = Vec::new(alloc);
    for (path, it) in snapshot.rows() {
        push_row(&mut rows, path, it)?;
    }
    Ok(rows)
}

/// The rows that keep what a folder doesn't: each link, and each mode that isn't the default.
pub fn attrs_of(alloc: Global, snapshot: &Snapshot) -> Result<Attrs, NoMemory>
    requires { IsWholeSnapshot snapshot.now }
    ensures { IfOk result (λ attrs. attrs ≡ attrs_of snapshot.now) }
{
    let rows = rows_of(alloc, snapshot)?;
    match Attrs::from_vec(rows) {
        Some(attrs) => Ok(attrs),
        None => unreachable!(),
    }
}

/// What a folder keeps of a whole snapshot is, with its rows, the snapshot again, each file with its bytes: what is imported of
/// a folder that holds what a build leaves has, with the rows, the entries that the build left. It does nothing.
pub fn rows_keep()
    ensures keep { RowsKeep }
    ensures plain { PlainHeld }
    ensures built { BuiltHeld }
{}
