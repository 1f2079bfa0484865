// Tables that are kept, as they are read: none is empty, and no two are equal.
ghost use Rattle.std.specs.Prelude.{◌≡◌, ◌↔◌, ◌++◌, ◌∷◌, ◌<◌, ◌≤◌, ℕ, Option, List, [], Some, true, map, length, IsTrue, IfOk, IfErr, OnOk};
ghost use Rattle.tr_nodes.specs.Nodes.{Node};
ghost use Rattle.tr_nodes.specs.Tails.{AreNodes, tails_of};
ghost use Rattle.tr_parts.specs.Reads.{Gives, Fails};
ghost use Rattle.tr_record.specs.declared.steps.Step.{Step};
ghost use Rattle.tr_kept.specs.Generations.{ends_of, heads_in, AreAllHeads, TablesRead, GenerationRead};
ghost use Rattle.tr_kept.specs.KeptReading.{has_table, is_generation, generation_at, generations_at, kept_at};
ghost use Rattle.tr_codec.specs.Reading.{many_at};
ghost use Rattle.tr_codec.specs.Rows.{AreHeads};
ghost use Rattle.tr_codec.specs.Used.{nodes_used};

use crate::kept::{ReadKept, with_kept};
use rk_base::NoMemory;
use rk_content::Contents;
use std::alloc::Global;
use std::rc::Rc;
use tr_codec::{ReadRecords, Recent, Used, fresh_blobs, is_whole, nodes_of, so_many_records};
use tr_parts::{PartErr, count_of};
use tr_record::{Kept, KnownHeads, Record, StepPool, Table};

/// The tables that were read so far, and for each the numbers of its records' steps.
#[derive(Drop)]
pub(crate) struct ReadTables {
    pub(crate) kept: Kept,
    pub(crate) heads: Vec<Vec<usize>>,
}

// Whether both are alike but for their ordinals and their steps.
fn same_ends(a: &Record, b: &Record) -> bool
    ensures { IsTrue result ↔ (ends_of a.now ≡ ends_of b.now) }
{
    a.exit == b.exit && a.exit_cost == b.exit_cost && a.key.same(&b.key)
}

// Whether records are alike but for their ordinals and their steps.
fn all_same_ends(a: &[Record], b: &[Record]) -> bool
    ensures { IsTrue result ↔ (map ends_of a.now ≡ map ends_of b.now) }
{
    if a.len() != b.len() {
        return false;
    }
    'records: for i in 0..a.len() {
        if !same_ends(&a[i], &b[i]) {
            return false;
        }
    }
    true
}

// Whether both tables are the same, told by the numbers of their steps: no two nodes are equal.
fn same_table(a: &Table, heads: &[usize], b: &ReadRecords) -> bool
    ensures { (nodes : List (Node Step)) → AreNodes nodes → AreHeads nodes heads.now a.now →
        AreHeads nodes b.now.heads.items b.now.table → (IsTrue result ↔ (a.now ≡ b.now.table)) }
{
    heads == b.heads.as_slice() && all_same_ends(a.as_slice(), b.table.as_slice())
}

impl ReadTables {
    fn new(alloc: Global) -> ReadTables
        ensures kept { result.kept ≡ [] }
        ensures heads { heads_in result ≡ [] }
    {
        ReadTables {
            kept: Kept::new(alloc),
            heads: Vec::new(alloc),
        }
    }

    // Whether a table is one of these.
    fn has(&self, records: &ReadRecords) -> bool
        ensures { (nodes : List (Node Step)) → AreNodes nodes → AreAllHeads nodes (heads_in self.now) self.now.kept →
            AreHeads nodes records.now.heads.items records.now.table → result ≡ has_table self.now.kept records.now.table }
    {
        'tables: for k in 0..self.heads.len() {
            let heads = &self.heads[k];
            let Some(table) = self.kept.table(k) else {
                return false;
            };
            if same_table(table, heads.as_slice(), records) {
                return true;
            }
        }
        false
    }

    // Whether it has a record and is none of these.
    fn is_generation(&self, records: &ReadRecords) -> bool
        ensures { (nodes : List (Node Step)) → AreNodes nodes → AreAllHeads nodes (heads_in self.now) self.now.kept →
            AreHeads nodes records.now.heads.items records.now.table → result ≡ is_generation self.now.kept records.now.table }
    {
        records.table.len() != 0 && !self.has(records)
    }

    // One table more, where there are fewer than eight.
    fn push(
        &mut self,
        alloc: Global,
        pool: &Rc<StepPool>,
        records: ReadRecords,
    ) -> Result<(), NoMemory>
        requires few { length self.old.kept < 8 }
        requires generation { is_generation self.old.kept records.table ≡ true }
        requires heads { AreHeads pool.now.value.nodes records.heads.items records.table }
        ensures kept { OnOk result (self.new.kept ≡ self.old.kept ++ records.table ∷ []) }
        ensures heads { OnOk result (heads_in self.new ≡ heads_in self.old ++ records.heads.items ∷ []) }
    {
        let ReadRecords { table, heads } = records;
        let known = KnownHeads::all(alloc, pool, heads.as_slice())?;
        // What is there may be kept, it says.
        let _ = self.kept.len();
        self.kept.add(table, known)?;
        self.heads.push(heads)?;
        Ok(())
    }

    // One table more, where it has a record and is none of these.
    #[tactic(auto, unfolding(crate::specs::KeptReading::generation_at))]
    fn generation_of<'a>(
        &mut self,
        alloc: Global,
        blobs: &Contents,
        pool: &Rc<StepPool>,
        used: &mut Used,
        recent: &mut Recent,
        bytes: &'a [u8],
    ) -> Result<&'a [u8], PartErr>
        requires nodes { AreNodes pool.now.value.nodes }
        requires heads { AreAllHeads pool.now.value.nodes (heads_in self.old) self.old.kept }
        requires few { length self.old.kept < 8 }
        ensures read { IfOk result (λ rest. GenerationRead blobs.now pool.now.value.nodes self.old self.new bytes.now rest.now) }
        ensures are { OnOk result ((first : Option ℕ) → TablesRead blobs.now pool.now.value.nodes self.old first used.old →
            TablesRead blobs.now pool.now.value.nodes self.new first used.new) }
        ensures fails { IfErr result (λ e. Fails e (generation_at blobs.now (tails_of pool.now.value.nodes) self.old.kept bytes.now)) }
    {
        let (count, rest) = count_of(bytes)?;
        let (records, rest) = so_many_records(alloc, blobs, pool, used, recent, count, rest)?;
        if !self.is_generation(&records) {
            return Err(PartErr::Form);
        }
        self.push(alloc, pool, records)?;
        Ok(rest)
    }
}

fn so_many_generations<'a>(
    alloc: Global,
    blobs: &Contents,
    pool: &Rc<StepPool>,
    used: &mut Used,
    recent: &mut Recent,
    count: u64,
    bytes: &'a [u8],
) -> Result<(ReadTables, &'a [u8]), PartErr>
    requires nodes { AreNodes pool.now.value.nodes }
    requires none { used.old.nodes ≡ Some 0 }
    requires few { count ≤ 8 }
    ensures gives { Gives (λ x. (x.0.kept, x.1.now)) result (many_at (generation_at blobs.now (tails_of pool.now.value.nodes)) count [] bytes.now) }
    ensures are { IfOk result (λ x. TablesRead blobs.now pool.now.value.nodes x.0 used.old.blobs used.new) }
    ensures many { IfOk result (λ x. length x.0.kept ≡ count) }
{
    let mut tables = ReadTables::new(alloc);
    let mut rest = bytes;
    'generations: for _ in 0..count {
        rest = tables.generation_of(alloc, blobs, pool, used, recent, rest)?;
    }
    Ok((tables, rest))
}

// At most eight tables with these blobs and nodes, which use all of them in order, and behind which nothing stands.
fn generations_of(
    alloc: Global,
    blobs: &Contents,
    pool: &Rc<StepPool>,
    used: &mut Used,
    recent: &mut Recent,
    bytes: &[u8],
) -> Result<ReadTables, PartErr>
    requires nodes { AreNodes pool.now.value.nodes }
    requires none { used.old.nodes ≡ Some 0 }
    requires used { used.old.blobs ≡ nodes_used blobs.now (Some 0) (tails_of pool.now.value.nodes) }
    ensures gives { Gives (λ x. x.kept) result (generations_at blobs.now (tails_of pool.now.value.nodes) bytes.now) }
    ensures heads { IfOk result (λ x. AreAllHeads pool.now.value.nodes (heads_in x) x.kept) }
{
    let (count, rest) = count_of(bytes)?;
    if 8 < count {
        return Err(PartErr::Form);
    }
    let (tables, rest) = so_many_generations(alloc, blobs, pool, used, recent, count, rest)?;
    let nodes = pool.as_ref().len();
    if !is_whole(used, nodes, blobs.as_slice().len(), rest) {
        return Err(PartErr::Form);
    }
    Ok(tables)
}

/// The tables that are spelt after the magic.
#[tactic(auto, unfolding(crate::specs::KeptReading::kept_at))]
pub(crate) fn kept_of(alloc: Global, bytes: &[u8]) -> Result<ReadKept, PartErr>
    ensures { Gives (λ x. x) result (kept_at bytes.now) }
{
    let (count, rest) = count_of(bytes)?;
    let (blobs, rest) = fresh_blobs(alloc, count, rest)?;
    let mut in_use = Some(0);
    let mut recent = Recent::new(alloc);
    let (nodes, rest) = nodes_of(alloc, &blobs, &mut in_use, &mut recent, rest)?;
    let pool = Rc::new(alloc, nodes.into_pool())?;
    let mut used = Used {
        blobs: in_use,
        nodes: Some(0),
    };
    let tables = generations_of(alloc, &blobs, &pool, &mut used, &mut recent, rest)?;
    let kept = with_kept(alloc, tables, pool, &blobs)?;
    Ok(kept)
}
