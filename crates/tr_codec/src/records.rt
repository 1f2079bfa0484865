// Records and tables that are read.
ghost use Rattle.std.specs.Prelude.{◌≡◌, ◌==◌, ◌≤◌, ◌^◌, ◌&&◌, ◌++◌, ℕ, List, [], Some, nat_le, nat_lt, length, IfOk};
ghost use Rattle.tr_nodes.specs.Tails.{AreNodes, steps_at, tails_of};
ghost use Rattle.tr_parts.specs.Reads.{Gives};
ghost use Rattle.tr_codec.specs.Fits.{paid};
ghost use Rattle.tr_codec.specs.Reading.{row_at, record_at, records_at, table_at, many_at};
ghost use Rattle.tr_codec.specs.Rows.{row_under, InUse, AreHeads};
ghost use Rattle.tr_codec.specs.Used.{key_used, keys_used, nodes_used, all_used};

use crate::keys::key_of;
use crate::linked::in_use_after;
use crate::nodes::nodes_of;
use crate::parts::{all_read, all_used, fresh_blobs};
use crate::read_table::{ReadTable, with_contents};
use crate::recent::Recent;
use crate::rows::{HeadedRow, push_row};
use rk_content::Contents;
use std::alloc::Global;
use std::rc::Rc;
use tr_parts::{PartErr, byte_of, count_of, number_of};
use tr_record::{StepPool, Table};

/// The records of a table, and the numbers of their steps.
#[derive(Drop)]
pub struct ReadRecords {
    pub table: Table,
    pub heads: Vec<usize>,
}

/// How many of the blobs and of the nodes are in use so far, unless others were skipped.
#[derive(Drop)]
pub struct Used {
    pub blobs: Option<usize>,
    pub nodes: Option<usize>,
}

// Whether there is such a number, and its steps cost less than 2^64 turns with an exit at this cost.
fn is_payable(pool: &StepPool, head: usize, exit_cost: u64) -> bool
    ensures { result ≡ (nat_le head (length (tails_of pool.now.nodes)) && nat_lt (paid (steps_at (tails_of pool.now.nodes) head) exit_cost) (2 ^ 64)) }
{
    if pool.len() < head {
        return false;
    }
    pool.paid(head).checked_add(exit_cost).is_some()
}

#[tactic(auto, unfolding(crate::specs::Reading::row_at))]
fn row_of<'a>(
    alloc: Global,
    blobs: &Contents,
    used: &mut Option<usize>,
    recent: &mut Recent,
    pool: &StepPool,
    bytes: &'a [u8],
) -> Result<(HeadedRow, &'a [u8]), PartErr>
    ensures gives { Gives (λ x. (row_under pool.now.nodes x.0, x.1.now)) result (row_at blobs.now (tails_of pool.now.nodes) bytes.now) }
    ensures head { IfOk result (λ x. x.0.head ≤ length pool.now.nodes) }
    ensures used { IfOk result (λ x. used.new ≡ key_used blobs.now used.old x.0.key) }
{
    let (key, rest) = key_of(alloc, blobs, used, recent, bytes)?;
    let (head, rest) = number_of(rest)?;
    let (exit, rest) = byte_of(rest)?;
    let (exit_cost, rest) = number_of(rest)?;
    let head = head as usize;
    if !is_payable(pool, head, exit_cost) {
        return Err(PartErr::Form);
    }
    let row = HeadedRow {
        key,
        head,
        exit,
        exit_cost,
    };
    Ok((row, rest))
}

/// So many records with these blobs and nodes.
pub fn so_many_records<'a>(
    alloc: Global,
    blobs: &Contents,
    pool: &Rc<StepPool>,
    used: &mut Used,
    recent: &mut Recent,
    count: u64,
    bytes: &'a [u8],
) -> Result<(ReadRecords, &'a [u8]), PartErr>
    ensures gives { Gives (λ x. (x.0.table, x.1.now)) result (many_at (record_at blobs.now (tails_of pool.now.value.nodes)) count [] bytes.now) }
    ensures heads { IfOk result (λ x. AreHeads pool.now.value.nodes x.0.heads.items x.0.table) }
    ensures nodes { IfOk result (λ x. (earlier : List ℕ) → InUse pool.now.value.nodes earlier used.old.nodes → InUse pool.now.value.nodes (earlier ++ x.0.heads.items) used.new.nodes) }
    ensures blobs { IfOk result (λ x. used.new.blobs ≡ keys_used blobs.now used.old.blobs x.0.table) }
{
    let mut table = Table::new(alloc);
    let mut heads = Vec::new(alloc);
    let mut rest = bytes;
    'records: for _ in 0..count {
        let (row, after) = row_of(alloc, blobs, &mut used.blobs, recent, pool.as_ref(), rest)?;
        used.nodes = in_use_after(pool.as_ref(), used.nodes, row.head);
        push_row(&mut table, &mut heads, pool, row)?;
        rest = after;
    }
    Ok((ReadRecords { table, heads }, rest))
}

/// Whether so many nodes and so many blobs are all in use, and nothing stands behind them.
pub fn is_whole(used: &Used, nodes: usize, blobs: usize, rest: &[u8]) -> bool
    ensures { result ≡ (all_used used.now.nodes nodes && (all_used used.now.blobs blobs && (length rest.now == 0))) }
{
    all_used(used.nodes, nodes) && all_read(used.blobs, blobs, rest)
}

// The records of a table with these blobs and nodes, which use all of them in order, and behind which nothing stands.
fn records_of(
    alloc: Global,
    blobs: &Contents,
    pool: &Rc<StepPool>,
    used: &mut Used,
    recent: &mut Recent,
    bytes: &[u8],
) -> Result<ReadRecords, PartErr>
    requires nodes { AreNodes pool.now.value.nodes }
    requires none { used.old.nodes ≡ Some 0 }
    requires used { used.old.blobs ≡ nodes_used blobs.now (Some 0) (tails_of pool.now.value.nodes) }
    ensures gives { Gives (λ x. x.table) result (records_at blobs.now (tails_of pool.now.value.nodes) bytes.now) }
    ensures heads { IfOk result (λ x. AreHeads pool.now.value.nodes x.heads.items x.table) }
{
    let (count, rest) = count_of(bytes)?;
    let (records, rest) = so_many_records(alloc, blobs, pool, used, recent, count, rest)?;
    let nodes = pool.as_ref().len();
    if !is_whole(used, nodes, blobs.as_slice().len(), rest) {
        return Err(PartErr::Form);
    }
    Ok(records)
}

/// The table that is spelt after the magic.
#[tactic(auto, unfolding(crate::specs::Reading::table_at))]
pub(crate) fn table_of(alloc: Global, bytes: &[u8]) -> Result<ReadTable, PartErr>
    ensures { Gives (λ x. x) result (table_at bytes.now) }
{
    let (count, rest) = count_of(bytes)?;
    let (blobs, rest) = fresh_blobs(alloc, count, rest)?;
    let mut in_use = Some(0);
    let mut recent = Recent::new(alloc);
    let (nodes, rest) = nodes_of(alloc, &blobs, &mut in_use, &mut recent, rest)?;
    let pool = Rc::new(alloc, nodes.into_pool())?;
    let mut used = Used {
        blobs: in_use,
        nodes: Some(0),
    };
    let ReadRecords { table, heads } = records_of(
        alloc,
        &blobs,
        &pool,
        &mut used,
        &mut recent,
        rest,
    )?;
    let table = with_contents(alloc, table, heads, pool, &blobs)?;
    Ok(table)
}
