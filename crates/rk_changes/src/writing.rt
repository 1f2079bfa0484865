// The files that a plan writes.
ghost use Rattle.std.specs.Prelude.{◌≡◌, ◌++◌, [], IfOk, IfSome, OnOk, Some, option_copied};
ghost use Rattle.std.specs.List.{cons_option, filter_map};
ghost use Rattle.std.specs.FinMap.{entries, get};
ghost use Rattle.rk_seal.specs.declared.ops.Op.TheVariants.{Write};
ghost use Rattle.rk_tree.specs.Content as known;
ghost use Rattle.rk_tree.specs.Fetched.{Counted, Steadily};
ghost use Rattle.rk_tree.specs.Full as tree;
ghost use Rattle.rk_tree.specs.Full.{EntriesFrom};
ghost use Rattle.rk_changes.specs.Fetched.{AreWritings, IsFrom, IsWriting, WhereTold, full_writing, is_imported, is_path};
ghost use Rattle.rk_changes.specs.Holdings.{placed};
ghost use Rattle.rk_changes.specs.Planned.{is_file_of, writing, written};

use rk_base::{Bytes, NoMemory, Path};
use rk_seal::Op;
use rk_tree::{Content, Entry, Fetch, FetchErr, Node, Snapshot, SnapshotCursor};
use std::alloc::Global;

// What a file holds, fetched where it isn't known.
fn bytes_of<G: Fetch>(alloc: Global, fetch: &mut G, content: &Content) -> Result<Bytes, FetchErr>
    requires { IfSome (G.told fetch.old) (λ told. tree.From told content.now) }
    ensures bytes { WhereTold (G.told fetch.old) (λ told bytes. bytes ≡ known.bytes_of (tree.full_content told content.now)) result }
    ensures told { G.told fetch.new ≡ G.told fetch.old }
    ensures keeps { G.Keeps fetch.old fetch.new }
    ensures stays { OnOk result (G.Stays fetch.old fetch.new) }
    ensures steady { Steadily (G.steady fetch.old) (G.steady fetch.new) result }
    ensures counted { Counted (G.faults fetch.old) (G.faults fetch.new) result }
{
    match content {
        Content::Own(bytes) => {
            let bytes = bytes.copy()?;
            Ok(bytes)
        }
        Content::Unread(path) => fetch.get(alloc, path),
        Content::Read(_, bytes) => {
            let bytes = bytes.copy()?;
            Ok(bytes)
        }
    }
}

fn is_path(path: &Path, import: Option<&Path>) -> bool
    ensures { result ≡ is_path path.now (option_copied import.entry) }
{
    match import {
        None => false,
        Some(import) => import.text() == path.text(),
    }
}

// Whether a file stands at the import path that it still has.
fn is_imported(path: &Path, it: Option<&Node>) -> bool
    ensures { result ≡ is_imported path.now (option_copied it.entry) }
{
    match it {
        None => false,
        Some(it) => is_path(path, it.import_path()),
    }
}

// Whether a file of these bytes stood there.
fn is_file_of<G: Fetch>(
    alloc: Global,
    fetch: &mut G,
    bytes: &Bytes,
    it: Option<&Node>,
) -> Result<bool, FetchErr>
    requires { IsFrom (G.told fetch.old) (option_copied it) }
    ensures same { WhereTold (G.told fetch.old) (λ told same. same ≡ is_file_of bytes.now (placed (tree.in_full told (option_copied it.entry)))) result }
    ensures told { G.told fetch.new ≡ G.told fetch.old }
    ensures keeps { G.Keeps fetch.old fetch.new }
    ensures stays { OnOk result (G.Stays fetch.old fetch.new) }
    ensures steady { Steadily (G.steady fetch.old) (G.steady fetch.new) result }
    ensures counted { Counted (G.faults fetch.old) (G.faults fetch.new) result }
{
    match it {
        None => Ok(false),
        Some(it) => match it.entry() {
            Entry::File(_, content) => {
                let old = bytes_of(alloc, fetch, content)?;
                Ok(old.same(bytes))
            }
            Entry::Dir(_) => Ok(false),
            Entry::Link(_) => Ok(false),
        },
    }
}

// The call that writes these bytes to a file, where none of them stood before.
fn write_to<G: Fetch>(
    alloc: Global,
    fetch: &mut G,
    path: &Path,
    bytes: Bytes,
    before: Option<&Node>,
) -> Result<Option<Op>, FetchErr>
    requires { IsFrom (G.told fetch.old) (option_copied before) }
    ensures op { WhereTold (G.told fetch.old) (λ told op. op ≡ written path.now bytes (placed (tree.in_full told (option_copied before.entry)))) result }
    ensures at { IfOk result (λ op. IfSome op (λ it. it ≡ Write path.now bytes)) }
    ensures told { G.told fetch.new ≡ G.told fetch.old }
    ensures keeps { G.Keeps fetch.old fetch.new }
    ensures stays { OnOk result (G.Stays fetch.old fetch.new) }
    ensures steady { Steadily (G.steady fetch.old) (G.steady fetch.new) result }
    ensures counted { Counted (G.faults fetch.old) (G.faults fetch.new) result }
{
    let same = is_file_of(alloc, fetch, &bytes, before)?;
    if same {
        return Ok(None);
    }
    let path = path.copy()?;
    Ok(Some(Op::Write(path, bytes)))
}

// The call that writes a file.
fn writing<G: Fetch>(
    alloc: Global,
    fetch: &mut G,
    path: &Path,
    it: &Node,
    before: Option<&Node>,
) -> Result<Option<Op>, FetchErr>
    requires it { IsFrom (G.told fetch.old) (Some it.now) }
    requires before { IsFrom (G.told fetch.old) (option_copied before) }
    ensures op { WhereTold (G.told fetch.old) (λ told op. op ≡ writing path.now (tree.full_node told it.now) (placed (tree.in_full told (option_copied before.entry)))) result }
    ensures at { IfOk result (λ op. IfSome op (λ op. IsWriting path.now it.now op)) }
    ensures told { G.told fetch.new ≡ G.told fetch.old }
    ensures keeps { G.Keeps fetch.old fetch.new }
    ensures stays { OnOk result (G.Stays fetch.old fetch.new) }
    ensures steady { Steadily (G.steady fetch.old) (G.steady fetch.new) result }
    ensures counted { Counted (G.faults fetch.old) (G.faults fetch.new) result }
{
    match it.entry() {
        Entry::File(_, content) => {
            if is_imported(path, Some(it)) && is_imported(path, before) {
                return Ok(None);
            }
            let bytes = bytes_of(alloc, fetch, content)?;
            write_to(alloc, fetch, path, bytes, before)
        }
        Entry::Dir(_) => Ok(None),
        Entry::Link(_) => Ok(None),
    }
}

// Adds a call, where there is one.
fn add(ops: &mut Vec<Op>, op: Option<Op>) -> Result<(), NoMemory>
    ensures { OnOk result (ops.new.items ≡ ops.old.items ++ cons_option op []) }
{
    if let Some(op) = op {
        ops.push(op)?;
    }
    Ok(())
}

/// The calls that write files, ascending by path, where none of their bytes stood before.
pub(crate) fn writings<G: Fetch>(
    alloc: Global,
    fetch: &mut G,
    before: &Snapshot,
    after: &Snapshot,
) -> Result<Vec<Op>, FetchErr>
    requires before { EntriesFrom (G.told fetch.old) before.now }
    requires after { EntriesFrom (G.told fetch.old) after.now }
    ensures ops { WhereTold (G.told fetch.old) (λ told ops. ops.items ≡ filter_map (full_writing told before.now) (entries after.now)) result }
    ensures at { IfOk result (λ ops. AreWritings (entries after.now) ops.items) }
    ensures told { G.told fetch.new ≡ G.told fetch.old }
    ensures keeps { G.Keeps fetch.old fetch.new }
    ensures stays { OnOk result (G.Stays fetch.old fetch.new) }
    ensures steady { Steadily (G.steady fetch.old) (G.steady fetch.new) result }
    ensures counted { Counted (G.faults fetch.old) (G.faults fetch.new) result }
{
    let mut ops = Vec::new(alloc);
    let mut cursor = SnapshotCursor::new(before);
    'files: for (path, it) in after.rows() {
        let op = writing(alloc, fetch, path, it, cursor.get(path))?;
        add(&mut ops, op)?;
    }
    Ok(ops)
}
