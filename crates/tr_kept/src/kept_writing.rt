// The spelling of what is kept.
ghost use Rattle.std.specs.Prelude.{◌≡◌, ◌<◌, ◌^◌, ◌++◌, List, length, map, IfOk, OnOk};
ghost use Rattle.std.specs.List.{AllByRecursion};
ghost use Rattle.tr_nodes.specs.Tails.{Tail, head_in};
ghost use Rattle.tr_parts.specs.Piece.{counted};
ghost use Rattle.tr_record.specs.Generations.{records, AreGenerations};
ghost use Rattle.tr_record.specs.Known.{AreKnown};
ghost use Rattle.tr_record.specs.Rec.{AreNumbered};
ghost use Rattle.tr_record.specs.declared.records.Record.{Record as Rec};
ghost use Rattle.tr_record.specs.declared.steps.Step.{Step};
ghost use Rattle.tr_kept.specs.KeptSpelling.{magic, kept_piece, kept_spelling};
ghost use Rattle.tr_kept.specs.KnownPut.{RecordsPut};
ghost use Rattle.tr_codec.specs.Fits.{Fits};
ghost use Rattle.tr_codec.specs.Puts.{Puts};
ghost use Rattle.tr_codec.specs.Same.{same_step};
ghost use Rattle.tr_codec.specs.Sound.{IsSound, TypedEnds};
ghost use Rattle.tr_codec.specs.Spelling.{body, record_piece, talks};

use crate::known_pieces::put_steps;
use rk_base::{Bytes, NoMemory};
use std::alloc::Global;
use tr_codec::{NodeWriter, Writer, put_records};
use tr_parts::seal;
use tr_record::{Kept, KnownHeads, Record};

// The nodes of a table's records, behind those of other records, and the numbers of their steps.
fn put_table_nodes(
    alloc: Global,
    nodes: &mut NodeWriter,
    records: &[Record],
    known: &KnownHeads,
    heads: &mut Vec<usize>,
) -> Result<(), NoMemory>
    requires { AreKnown known.now records.now }
    ensures { OnOk result ((before : List Rec) → RecordsPut before heads.old.items nodes.old → RecordsPut (before ++ records.now) heads.new.items nodes.new) }
{
    let pool = known.pool();
    let mut numbers = vec![in alloc; 0; pool.len()]?;
    'records: for (i, rec) in records.iter().enumerate() {
        let head = put_steps(alloc, nodes, rec, pool, known.head(i), &mut numbers)?;
        heads.push(head)?;
    }
    Ok(())
}

// How many nodes there may be: as many as those of the newest table's pool, and some more that a build added.
fn expected(kept: &Kept) -> usize {
    if kept.len() == 0 {
        return 0;
    }
    let nodes = kept.known(0).pool().len();
    nodes.saturating_add(nodes / 8)
}

// The nodes that the records of all tables need, and the numbers of their steps.
fn put_all_nodes(alloc: Global, kept: &Kept) -> Result<(NodeWriter, Vec<usize>), NoMemory>
    ensures { IfOk result (λ x. RecordsPut (records kept.now) x.1.items x.0) }
{
    let mut nodes = NodeWriter::with_room(alloc, expected(kept))?;
    let mut heads = Vec::new(alloc);
    'tables: for k in 0..kept.len() {
        let Some(table) = kept.table(k) else {
            unreachable!()
        };
        let records = table.as_slice();
        put_table_nodes(alloc, &mut nodes, records, kept.known(k), &mut heads)?;
    }
    Ok((nodes, heads))
}

// The records of each table, whose steps have these numbers.
fn put_tables(w: &mut Writer, kept: &Kept, heads: &[usize]) -> Result<(), NoMemory>
    requires { length heads.now ≡ length (records kept.now) }
    ensures puts { OnOk result ((tails : List (Tail Step)) → heads.now ≡ map (head_in same_step tails) (talks (records kept.now)) →
        Puts (counted (counted (record_piece tails)) kept.now) w.old w.new) }
    ensures typed { OnOk result (AllByRecursion (AllByRecursion TypedEnds) kept.now) }
    ensures numbered { OnOk result (AllByRecursion AreNumbered kept.now) }
    ensures are { AreGenerations kept.now }
{
    w.put_number(kept.len() as u64)?;
    let mut left = heads;
    'tables: for k in 0..kept.len() {
        let Some(table) = kept.table(k) else {
            unreachable!()
        };
        let records = table.as_slice();
        let (mine, others) = left.split_at(records.len());
        put_records(w, records, mine)?;
        left = others;
    }
    Ok(())
}

// All but the digest.
fn kept_body_of(alloc: Global, kept: &Kept) -> Result<Vec<u8>, NoMemory>
    ensures body { IfOk result (λ out. out.items ≡ body magic (kept_piece kept.now)) }
    ensures fits { OnOk result (AllByRecursion (λ table. AllByRecursion IsSound table → Fits table) kept.now) }
    ensures are { OnOk result (AreGenerations kept.now) }
{
    let (nodes, heads) = put_all_nodes(alloc, kept)?;
    let NodeWriter { mut writer, nodes } = nodes;
    put_tables(&mut writer, kept, heads.as_slice())?;
    writer.body(b"RKR3", nodes.as_slice())
}

/// The one spelling of what is kept. A table in which each recorded answer fits its call, a mode in a call is at most 0777, and no
/// record paid 2^64 turns or more is one that is read back.
pub fn write_kept(alloc: Global, kept: &Kept) -> Result<Bytes, NoMemory>
    ensures bytes { IfOk result (λ bytes. bytes ≡ kept_spelling kept.now) }
    ensures fits { OnOk result (AllByRecursion (λ table. AllByRecursion IsSound table → Fits table) kept.now) }
    ensures are { OnOk result (AreGenerations kept.now) }
    ensures memory { IfOk result (λ bytes. length bytes < 2 ^ 64) }
{
    let out = kept_body_of(alloc, kept)?;
    seal(out)
}
