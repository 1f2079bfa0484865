// The tree of a folder, with its attributes.
ghost use Rattle.std.specs.Prelude.{◌≡◌, IfOk, OnOk, option_copied, option_map};
ghost use Rattle.std.specs.FinMap.{get};
ghost use Rattle.rk_base.specs.Text.{parent};
ghost use Rattle.rk_tree.specs.Copies as tree;
ghost use Rattle.rk_tree.specs.Entries.{is_dir, node_of, IsWholeSnapshot};
ghost use Rattle.rk_folder.specs.Attributes.{file_with, dir_with, link_in, put_by, with_row, with_rows, RowsApply};

use rk_attrs::{AttrRow, Attrs};
use rk_base::{Bytes, NoMemory, Path};
use rk_tree::{Entry, Node, Snapshot, Tree};
use std::alloc::Global;

// The file with this mode, where one stands.
fn file_with(mode: u16, it: Option<&Node>) -> Result<Option<Entry>, NoMemory>
    ensures { IfOk result (λ e. option_map node_of e ≡ file_with mode (option_copied it.entry)) }
{
    match it {
        None => Ok(None),
        Some(it) => match it.entry() {
            Entry::File(_, content) => {
                let content = content.clone()?;
                Ok(Some(Entry::File(mode, content)))
            }
            Entry::Dir(_) => Ok(None),
            Entry::Link(_) => Ok(None),
        },
    }
}

// The directory with this mode, where one stands.
fn dir_with(mode: u16, it: Option<&Node>) -> Option<Entry>
    ensures { option_map node_of result ≡ dir_with mode (option_copied it.entry) }
{
    match it {
        None => None,
        Some(it) => match it.entry() {
            Entry::File(_, _) => None,
            Entry::Dir(_) => Some(Entry::Dir(mode)),
            Entry::Link(_) => None,
        },
    }
}

// The link, where nothing stands in a directory.
fn link_in(text: &Bytes, in_dir: bool, it: Option<&Node>) -> Result<Option<Entry>, NoMemory>
    ensures { IfOk result (λ e. option_map node_of e ≡ link_in text.now in_dir (option_copied it.entry)) }
{
    match it {
        None => {
            if !in_dir {
                return Ok(None);
            }
            let text = text.copy()?;
            Ok(Some(Entry::Link(text)))
        }
        Some(_) => Ok(None),
    }
}

// What a row puts at its path.
fn put_by(row: &AttrRow, in_dir: bool, it: Option<&Node>) -> Result<Option<Entry>, NoMemory>
    ensures { IfOk result (λ e. option_map node_of e ≡ put_by row.now in_dir (option_copied it.entry)) }
{
    match row {
        AttrRow::FileMode(mode) => file_with(*mode, it),
        AttrRow::DirMode(mode) => Ok(dir_with(*mode, it)),
        AttrRow::Link(text) => link_in(text, in_dir, it),
    }
}

fn is_dir(it: Option<&Node>) -> bool
    ensures { result ≡ is_dir (option_copied it.entry) }
{
    match it {
        None => false,
        Some(it) => it.is_dir(),
    }
}

// Whether a path is in a directory.
fn in_dir(snapshot: &Snapshot, path: &Path) -> Result<bool, NoMemory>
    ensures { IfOk result (λ b. b ≡ is_dir (get snapshot.now (parent path.now))) }
{
    let parent = path.parent()?;
    Ok(is_dir(snapshot.get(&parent)))
}

fn put_row(snapshot: &mut Snapshot, path: &Path, row: &AttrRow) -> Result<(), NoMemory>
    ensures { OnOk result (snapshot.new ≡ with_row snapshot.old (path.now, row.now)) }
{
    let in_dir = in_dir(snapshot, path)?;
    match put_by(row, in_dir, snapshot.get(path))? {
        None => Ok(()),
        Some(it) => {
            snapshot.put(path.copy()?, it)?;
            Ok(())
        }
    }
}

fn put_rows(snapshot: &mut Snapshot, rows: &[(Path, AttrRow)]) -> Result<(), NoMemory>
    ensures { OnOk result (snapshot.new ≡ with_rows snapshot.old rows.now) }
{
    'rows: for (path, row) in rows {
        put_row(snapshot, path, row)?;
    }
    Ok(())
}

// A copy of the entries, which shares their bytes.
fn copy_of(alloc: Global, entries: &Snapshot) -> Result<Snapshot, NoMemory>
    ensures { IfOk result (λ copy. copy ≡ entries.now) }
{
    let mut copy = Snapshot::new(alloc);
    for (path, it) in entries.rows() {
        copy.put(path.copy()?, it.entry().copy()?)?;
    }
    Ok(copy)
}

// The tree of the entries with the rows, which are put on a copy.
fn tree_with(alloc: Global, snapshot: &Snapshot, attrs: &Attrs) -> Result<Tree, NoMemory>
    requires { IsWholeSnapshot snapshot.now }
    ensures tree { IfOk result (λ t. t ≡ tree.tree_of (with_rows snapshot.now attrs.now)) }
    ensures again { IfOk result (λ t. tree.snapshot_of t ≡ with_rows snapshot.now attrs.now) }
{
    let mut entries = copy_of(alloc, snapshot)?;
    put_rows(&mut entries, attrs.as_slice())?;
    let tree = Tree::of_snapshot(alloc, &entries)?;
    Ok(tree)
}

/// The tree of a folder with the rows of its attributes. A mode is applied where a file or directory stands, as its
/// row says, and a link stands where nothing else does, in a directory; any other row is dropped. Where there are no
/// rows, no entry is copied.
pub fn tree_of(alloc: Global, snapshot: &Snapshot, attrs: &Attrs) -> Result<Tree, NoMemory>
    requires { IsWholeSnapshot snapshot.now }
    ensures tree { IfOk result (λ t. t ≡ tree.tree_of (with_rows snapshot.now attrs.now)) }
    // Its snapshot is what the folder holds with the rows, which is whole.
    ensures again { IfOk result (λ t. tree.snapshot_of t ≡ with_rows snapshot.now attrs.now) }
    ensures whole { IsWholeSnapshot (with_rows snapshot.now attrs.now) }
{
    match attrs.as_slice() {
        [] => {
            let tree = Tree::of_snapshot(alloc, snapshot)?;
            Ok(tree)
        }
        [_, ..] => {
            let tree = tree_with(alloc, snapshot, attrs)?;
            Ok(tree)
        }
    }
}

/// Each row alone says what stands at its path. It does nothing.
pub fn rows_apply()
    ensures { RowsApply }
{}
