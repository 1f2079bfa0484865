// What the folder is to hold.
ghost use Rattle.std.specs.Prelude.{◌≡◌, ◌≢◌, ◌<◌, ◌≤◌, [], IfOk, IsTrue, OnOk, length};
ghost use Rattle.rk_folder.specs.Told.{longest_file};
ghost use Rattle.rk_tree.specs.Entries.{IsWholeSnapshot};
ghost use Rattle.rk_changes.specs.Attributes.{attrs_of};
ghost use Rattle.tr_kept.specs.KeptSpelling.{kept_spelling, IsKeptSpelling};
ghost use Rattle.tr_record.specs.Generations.{IsPushed, table_at};
ghost use Rattle.rk_build.specs.Fresh.{IsReadable, attrs_bytes, held_after};
ghost use Rattle.rk_build.specs.Kept.{Spells};
ghost use Rattle.rk_build.specs.Stages.{MayFit};

use rk_base::{Bytes, NoMemory};
use rk_changes::{Holding, attrs_of};
use rk_folder::{LONGEST_FILE, State};
use rk_kernel::World;
use rk_tree::Snapshot;
use std::alloc::Global;
use tr_attrs::write_attrs;
use tr_kept::{is_latest, write_kept};
use tr_record::{Kept, Table};

// A state file that no build would read again isn't made.
fn readable(bytes: Bytes) -> Result<Bytes, NoMemory>
    ensures same { IfOk result (λ it. it ≡ bytes) }
    ensures readable { IfOk result (λ it. length it ≤ longest_file) }
{
    if bytes.len() as u64 > LONGEST_FILE {
        return Err(NoMemory);
    }
    Ok(bytes)
}

// attrs as it is to stand beside these entries; nothing where they have no rows.
fn attrs_bytes(alloc: Global, entries: &Snapshot) -> Result<Option<Bytes>, NoMemory>
    requires { IsWholeSnapshot entries.now }
    ensures bytes { IfOk result (λ bytes. bytes ≡ attrs_bytes (attrs_of entries.now)) }
    ensures readable { IfOk result IsReadable }
{
    let attrs = attrs_of(alloc, entries)?;
    match attrs.as_slice() {
        [] => Ok(None),
        [_, ..] => {
            let bytes = readable(write_attrs(alloc, &attrs)?)?;
            Ok(Some(bytes))
        }
    }
}

/// What is kept once a run has ended that left this table: it comes first among the tables that were kept, and where it is as found,
/// it does so already.
pub(crate) fn keep(old: Kept, table: Table, as_found: bool) -> Result<Kept, NoMemory>
    requires some { table ≢ [] }
    requires found { IsTrue as_found → (0 < length old) × (table_at 0 old ≡ table) }
    ensures pushed { IfOk result (λ kept. IsPushed table old kept) }
    ensures same { IfOk result (λ kept. IsTrue as_found → kept ≡ old) }
{
    let mut kept = old;
    if !as_found {
        kept.push(table)?;
    }
    Ok(kept)
}

// The spelling of the tables that are kept, which these bytes spell: the very bytes, where they are of the version that is written.
fn same_bytes(alloc: Global, kept: &Kept, was: &Bytes) -> Result<Bytes, NoMemory>
    requires { IsKeptSpelling was.now kept.now }
    ensures bytes { IfOk result (λ bytes. bytes ≡ kept_spelling kept.now) }
    ensures fits { OnOk result (MayFit kept.now) }
{
    if is_latest(was.as_slice()) {
        return was.copy();
    }
    write_kept(alloc, kept)
}

// db as it is to stand. Where the tables are as found, these bytes spell them.
fn db_bytes(
    alloc: Global,
    kept: &Kept,
    was: &Option<Bytes>,
    as_found: bool,
) -> Result<Bytes, NoMemory>
    requires spells { IsTrue as_found → Spells was.now kept.now }
    ensures bytes { IfOk result (λ bytes. bytes ≡ kept_spelling kept.now) }
    ensures fits { OnOk result (MayFit kept.now) }
    ensures readable { IfOk result (λ bytes. length bytes ≤ longest_file) }
{
    let bytes = match was {
        Some(was) if as_found => same_bytes(alloc, kept, was)?,
        _ => write_kept(alloc, kept)?,
    };
    readable(bytes)
}

/// What the folder is to hold after a run that left this world, where these tables are kept from then on. Where they are as found,
/// these bytes of the database spell them.
pub(crate) fn held_after(
    alloc: Global,
    world: &World,
    kept: Kept,
    was: &Option<Bytes>,
    as_found: bool,
) -> Result<Holding, NoMemory>
    requires spells { IsTrue as_found → Spells was.now kept }
    ensures holding { IfOk result (λ holding. holding ≡ held_after world.now kept) }
    ensures whole { IfOk result (λ holding. IsWholeSnapshot holding.entries) }
    ensures readable { IfOk result (λ holding. IsReadable holding.state.attrs × IsReadable holding.state.db) }
    ensures fits { OnOk result (MayFit kept) }
{
    // The tables, and what the spelling of the database takes, are given back before the entries are made.
    let db = db_bytes(alloc, &kept, was, as_found)?;
    drop(kept);
    let entries = world.snapshot()?;
    let attrs = attrs_bytes(alloc, &entries)?;
    Ok(Holding {
        entries,
        rkr: true,
        state: State {
            db: Some(db),
            attrs,
            install: None,
            fresh_list: false,
        },
    })
}
