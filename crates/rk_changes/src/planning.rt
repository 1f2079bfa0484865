// The plan that leads from what a folder holds to what it is to hold.
ghost use Rattle.std.specs.Prelude.{◌≡◌, [], ◌++◌, IfOk, IsSome, OnOk, reverse, option_copied};
ghost use Rattle.std.specs.List.{filter_map};
ghost use Rattle.std.specs.FinMap.{entries, get};
ghost use Rattle.rk_folder.specs.Told.{is_file, is_dir};
ghost use Rattle.rk_tree.specs.Entries.{IsWholeSnapshot};
ghost use Rattle.rk_changes.specs.Holdings.{placed, Agree};
ghost use Rattle.rk_tree.specs.Fetched.{Counted, Steadily};
ghost use Rattle.rk_tree.specs.Full.{EntriesFrom};
ghost use Rattle.rk_changes.specs.Fetched.{IsFullPlan, WhereTold};
ghost use Rattle.rk_changes.specs.Planned.{removal, making, removal_of, making_of, hidden_making, attrs_calls, db_calls, planned, front_calls, back_calls, is_bytes, state_writing, AreAllowed, LeadTo, AreNeeded};
ghost use Rattle.rk_changes.specs.declared.holding.Holding.{Holding as HoldingValue};

use crate::Holding;
use crate::writing::writings;
use rk_base::{Bytes, NoMemory, Path};
use rk_folder::{attrs_file, db_file, hidden_dir};
use rk_seal::{Op, Plan};
use rk_tree::{Entry, Fetch, FetchErr, Node, Snapshot, SnapshotCursor};
use std::alloc::Global;

fn is_file(it: Option<&Node>) -> bool
    ensures { result ≡ is_file (placed (option_copied it.entry)) }
{
    match it {
        Some(it) => match it.entry() {
            Entry::File(_, _) => true,
            Entry::Dir(_) => false,
            Entry::Link(_) => false,
        },
        None => false,
    }
}

fn is_dir(it: Option<&Node>) -> bool
    ensures { result ≡ is_dir (placed (option_copied it.entry)) }
{
    match it {
        Some(it) => match it.entry() {
            Entry::File(_, _) => false,
            Entry::Dir(_) => true,
            Entry::Link(_) => false,
        },
        None => false,
    }
}

// The call that takes away what stood at a path, where nothing of its kind stands there afterwards.
fn removal(path: &Path, it: &Node, after: Option<&Node>) -> Result<Option<Op>, NoMemory>
    ensures { IfOk result (λ op. op ≡ removal path.now it.now (placed (option_copied after.entry))) }
{
    match it.entry() {
        Entry::File(_, _) => {
            if is_file(after) {
                return Ok(None);
            }
            Ok(Some(Op::RemoveFile(path.copy()?)))
        }
        Entry::Dir(_) => {
            if is_dir(after) {
                return Ok(None);
            }
            Ok(Some(Op::RemoveDir(path.copy()?)))
        }
        Entry::Link(_) => Ok(None),
    }
}

// The call that makes a directory, where none stood before. What stood at its path is looked up for directories alone.
fn making(path: &Path, it: &Node, before: &Snapshot) -> Result<Option<Op>, NoMemory>
    ensures { IfOk result (λ op. op ≡ making path.now it.now (placed (get before.now path.now))) }
{
    match it.entry() {
        Entry::File(_, _) => Ok(None),
        Entry::Dir(_) => {
            if is_dir(before.get(path)) {
                return Ok(None);
            }
            Ok(Some(Op::MakeDir(path.copy()?)))
        }
        Entry::Link(_) => Ok(None),
    }
}

// Removals, descending by path.
fn removals(alloc: Global, before: &Snapshot, after: &Snapshot) -> Result<Vec<Op>, NoMemory>
    ensures { IfOk result (λ ops. ops.items ≡ reverse (filter_map (removal_of after.now) (entries before.now))) }
{
    let mut ops = Vec::new(alloc);
    let mut cursor = SnapshotCursor::new(after);
    for (path, it) in before.rows() {
        if let Some(op) = removal(path, it, cursor.get(path))? {
            ops.push(op)?;
        }
    }
    ops.reverse();
    Ok(ops)
}

// Directories made, ascending by path.
fn add_makings(ops: &mut Vec<Op>, before: &Snapshot, after: &Snapshot) -> Result<(), NoMemory>
    ensures { OnOk result (ops.new.items ≡ ops.old.items ++ filter_map (making_of before.now) (entries after.now)) }
{
    for (path, it) in after.rows() {
        if let Some(op) = making(path, it, before)? {
            ops.push(op)?;
        }
    }
    Ok(())
}

fn is_bytes(bytes: &Bytes, before: &Option<Bytes>) -> bool
    ensures { result ≡ is_bytes bytes.now before.now }
{
    match before {
        Some(old) => old.same(bytes),
        None => false,
    }
}

// The directory `.rkr`, where it doesn't stand.
fn add_hidden_making(
    alloc: Global,
    ops: &mut Vec<Op>,
    before: bool,
    after: bool,
) -> Result<(), NoMemory>
    ensures { OnOk result (ops.new.items ≡ ops.old.items ++ hidden_making before after) }
{
    if after && !before {
        ops.push(Op::MakeDir(hidden_dir(alloc)?))?;
    }
    Ok(())
}

// A state file, where it had other bytes.
fn add_state_writing(
    ops: &mut Vec<Op>,
    path: Path,
    before: &Option<Bytes>,
    bytes: &Bytes,
) -> Result<(), NoMemory>
    ensures { OnOk result (ops.new.items ≡ ops.old.items ++ state_writing path before.now bytes.now) }
{
    if !is_bytes(bytes, before) {
        ops.push(Op::Write(path, bytes.copy()?))?;
    }
    Ok(())
}

// attrs written or removed.
fn add_attrs_calls(
    alloc: Global,
    ops: &mut Vec<Op>,
    before: &Option<Bytes>,
    after: &Option<Bytes>,
) -> Result<(), NoMemory>
    ensures { OnOk result (ops.new.items ≡ ops.old.items ++ attrs_calls before.now after.now) }
{
    let path = attrs_file(alloc)?;
    match (before, after) {
        (_, Some(bytes)) => add_state_writing(ops, path, before, bytes),
        (Some(_), None) => {
            ops.push(Op::RemoveFile(path))?;
            Ok(())
        }
        (None, None) => Ok(()),
    }
}

// db written.
fn add_db_calls(
    alloc: Global,
    ops: &mut Vec<Op>,
    before: &Option<Bytes>,
    after: &Option<Bytes>,
) -> Result<(), NoMemory>
    ensures { OnOk result (ops.new.items ≡ ops.old.items ++ db_calls before.now after.now) }
{
    if let Some(bytes) = after {
        let path = db_file(alloc)?;
        add_state_writing(ops, path, before, bytes)?;
    }
    Ok(())
}

// The calls of the plan but for the writing of files, which stand between the two lists.
fn around(alloc: Global, before: &Holding, after: &Holding) -> Result<(Vec<Op>, Vec<Op>), NoMemory>
    ensures front { IfOk result (λ it. it.0.items ≡ front_calls before.now after.now) }
    ensures back { IfOk result (λ it. it.1.items ≡ back_calls before.now after.now) }
{
    let mut front = removals(alloc, &before.entries, &after.entries)?;
    add_makings(&mut front, &before.entries, &after.entries)?;
    let mut back = Vec::new(alloc);
    add_hidden_making(alloc, &mut back, before.rkr, after.rkr)?;
    add_attrs_calls(alloc, &mut back, &before.state.attrs, &after.state.attrs)?;
    add_db_calls(alloc, &mut back, &before.state.db, &after.state.db)?;
    Ok((front, back))
}

fn join(mut front: Vec<Op>, mut writings: Vec<Op>, mut back: Vec<Op>) -> Result<Vec<Op>, NoMemory>
    ensures { IfOk result (λ ops. ops.items ≡ front.items ++ (writings.items ++ back.items)) }
{
    front.append(&mut writings)?;
    front.append(&mut back)?;
    Ok(front)
}

/// The plan of the calls that lead from what a folder holds to what it is to hold: only what differs, removals first,
/// descending by path, then directories made and files written, ascending, the directory `.rkr`, attrs written
/// or removed, and db written; and whether a list of calls stands that isn't sealed. `None` only where there are calls that
/// no such list may have, as between entries that aren't whole.
///
/// The bytes of files that aren't known are fetched, ascending by path, where they are to be compared or written: those of
/// the start's file where another, a written or an emptied file stands now, and those of a file that stands at a path other
/// than its import path. Where the bytes are told, it is the plan between both in full.
pub fn plan<G: Fetch>(
    alloc: Global,
    fetch: &mut G,
    before: &Holding,
    after: &Holding,
) -> Result<Option<Plan>, FetchErr>
    requires before { EntriesFrom (G.told fetch.old) before.now.entries }
    requires after { EntriesFrom (G.told fetch.old) after.now.entries }
    ensures planned { WhereTold (G.told fetch.old) (λ told plan. IsFullPlan told before.now after.now plan) result }
    // Between whole entries there is one.
    ensures whole { IsWholeSnapshot before.now.entries → IsWholeSnapshot after.now.entries → IfOk result (λ plan. IsSome plan) }
    ensures told { G.told fetch.new ≡ G.told fetch.old }
    ensures keeps { G.Keeps fetch.old fetch.new }
    ensures stays { OnOk result (G.Stays fetch.old fetch.new) }
    ensures steady { Steadily (G.steady fetch.old) (G.steady fetch.new) result }
    ensures counted { Counted (G.faults fetch.old) (G.faults fetch.new) result }
{
    let (front, back) = around(alloc, before, after)?;
    let writings = writings(alloc, fetch, &before.entries, &after.entries)?;
    let ops = join(front, writings, back)?;
    Ok(Plan::new(ops, before.state.fresh_list))
}

/// The calls of a plan between what a folder holds and what a build leaves are allowed, lead from the one to the other, and each
/// is needed; and there are none where both agree. It does nothing.
pub fn planned_leads()
    ensures allowed { (before after : HoldingValue) → AreAllowed (planned before after) before after }
    ensures leads { (before after : HoldingValue) → LeadTo (planned before after) before after }
    ensures needed { (before after : HoldingValue) → AreNeeded (planned before after) before after }
    ensures nothing { (before after : HoldingValue) → Agree before after → planned before after ≡ [] }
{}
