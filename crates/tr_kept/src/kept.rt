// Tables that were read, of which some are kept.
ghost use Rattle.std.specs.Prelude.{◌≡◌, [], IfOk};
ghost use Rattle.std.specs.List.{flat_map};
ghost use Rattle.tr_record.specs.Contents.{AreContents};
ghost use Rattle.tr_record.specs.Generations.{records};
ghost use Rattle.tr_record.specs.Known.{AreKnown};
ghost use Rattle.tr_kept.specs.Generations.{heads_in, AreAllHeads};
ghost use Rattle.tr_kept.specs.KeptSpelling.{one_of};
ghost use Rattle.tr_codec.specs.NodesRead.{AreTold};

use crate::generations::ReadTables;
use rk_base::NoMemory;
use rk_content::Contents;
use std::alloc::Global;
use std::marker::Model;
use std::rc::Rc;
use tr_codec::{ReadTable, texts_of};
use tr_record::{Kept, KnownHeads, RecordedContents, StepPool, Table};

/// The tables that were read, and the contents that their answers are, by the numbers of their blobs. Contracts see the records,
/// table by table.
#[derive(Debug, Drop)]
pub struct ReadKept {
    kept: Kept,
    contents: RecordedContents,
}

impl Model for ReadKept {
    ghost use Rattle.std.specs.Prelude.{List};
    ghost use Rattle.tr_record.specs.Contents.{AreContents};
    ghost use Rattle.tr_record.specs.Generations.{records};
    ghost use Rattle.tr_record.specs.declared.records.Record.{Record};

    ghost Value = { List (List Record) };

    ghost view = { λ r. r.kept };

    ghost invariant = { λ r. AreContents r.contents (records r.kept) };
}

// The one table, where it has records.
fn kept_one(alloc: Global, table: Table, known: KnownHeads) -> Result<Kept, NoMemory>
    requires { AreKnown known table }
    ensures { IfOk result (λ kept. kept ≡ one_of table) }
{
    let mut kept = Kept::new(alloc);
    if table.len() == 0 {
        return Ok(kept);
    }
    kept.push_known(table, known)?;
    Ok(kept)
}

impl ReadKept {
    fn new(kept: Kept, contents: RecordedContents) -> ReadKept
        requires { AreContents contents (records kept) }
        ensures { result ≡ kept }
    {
        ReadKept { kept, contents }
    }

    /// No tables.
    pub fn none(alloc: Global) -> Result<ReadKept, NoMemory>
        ensures { IfOk result (λ it. it ≡ []) }
    {
        let contents = RecordedContents::none(alloc)?;
        Ok(ReadKept::new(Kept::new(alloc), contents))
    }

    /// The one table, where it has records.
    pub(crate) fn one(alloc: Global, table: ReadTable) -> Result<ReadKept, NoMemory>
        ensures { IfOk result (λ it. it ≡ one_of table) }
    {
        let (table, contents) = table.into_parts();
        let known = contents.known(alloc)?;
        let kept = kept_one(alloc, table, known)?;
        Ok(ReadKept::new(kept, contents))
    }

    /// The tables.
    pub fn into_kept(self) -> Kept
        ensures { result ≡ self }
    {
        let ReadKept { kept, .. } = self;
        kept
    }

    /// The tables, and which contents their answers are.
    pub fn into_parts(self) -> (Kept, RecordedContents)
        ensures kept { result.0 ≡ self }
        ensures contents { AreContents result.1 (records result.0) }
    {
        let ReadKept { kept, contents } = self;
        (kept, contents)
    }
}

// The numbers of all tables, one after the other.
fn joined(alloc: Global, heads: &[Vec<usize>]) -> Result<Vec<usize>, NoMemory>
    ensures { IfOk result (λ all. all.items ≡ flat_map (λ h. h.items) heads.now) }
{
    let mut all = Vec::new(alloc);
    'tables: for more in heads {
        all.extend_from_slice(more.as_slice())?;
    }
    Ok(all)
}

/// What is kept of tables whose records' steps have these numbers, and which contents its answers are.
pub(crate) fn with_kept(
    alloc: Global,
    tables: ReadTables,
    pool: Rc<StepPool>,
    blobs: &Contents,
) -> Result<ReadKept, NoMemory>
    requires heads { AreAllHeads pool.value.nodes (heads_in tables) tables.kept }
    requires told { AreTold blobs.now pool.value }
    ensures { IfOk result (λ it. it ≡ tables.kept) }
{
    let texts = texts_of(alloc, blobs)?;
    let ReadTables { kept, heads } = tables;
    let heads = joined(alloc, heads.as_slice())?;
    let contents = RecordedContents::new(pool, texts, heads);
    Ok(ReadKept::new(kept, contents))
}
