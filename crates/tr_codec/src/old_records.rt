// Records and tables of the first version that are read: each record has its own steps, which are put into nodes.
ghost use Rattle.std.specs.Prelude.{◌≡◌, ◌≤◌, ◌<◌, ◌^◌, List, [], Some, fold, map, length, is_some, nat_lt, IfOk, IfErr, IfSome, IfNone, OnOk};
ghost use Rattle.std.specs.List.{AllByRecursion};
ghost use Rattle.rk_base.specs.Text.{Text};
ghost use Rattle.tr_parts.specs.Reads.{Gives};
ghost use Rattle.tr_record.specs.Costs.{steps_cost};
ghost use Rattle.tr_record.specs.Pool.{steps_under};
ghost use Rattle.tr_codec.specs.Fits.{paid};
ghost use Rattle.tr_codec.specs.NodesRead.{AreTold};
ghost use Rattle.tr_codec.specs.OldReading.{step_at, row_at, records_at, table_at};
ghost use Rattle.tr_codec.specs.OldRows.{IsTold, Keeps, IsWithin, records_from, rows_used, step_in};
ghost use Rattle.tr_codec.specs.Reading.{many_at, counted_at};
ghost use Rattle.tr_codec.specs.Rows.{row_under, AreHeads};
ghost use Rattle.tr_codec.specs.Used.{step_used, row_used};
ghost use Rattle.tr_parts.specs.declared.fault.PartErr.TheVariants as err;

use crate::keys::key_of;
use crate::parts::{all_read, fresh_blobs};
use crate::read_table::{ReadTable, with_contents};
use crate::recent::Recent;
use crate::rows::{HeadedRow, push_row};
use crate::steps::old_step_of;
use rk_base::NoMemory;
use rk_content::Contents;
use std::alloc::Global;
use std::collections::VecDeque;
use std::rc::Rc;
use tr_parts::{PartErr, byte_of, cost_of, count_of};
use tr_record::{Step, StepPool, Table};

// Each step has the number of the content that its answer is, where it has one.
fn so_many_steps<'a>(
    alloc: Global,
    blobs: &Contents,
    used: &mut Option<usize>,
    recent: &mut Recent,
    count: u64,
    bytes: &'a [u8],
) -> Result<(Vec<(Step, Option<usize>)>, &'a [u8]), PartErr>
    ensures gives { Gives (λ x. (map step_in x.0.items, x.1.now)) result (many_at (λ before. step_at blobs.now) count [] bytes.now) }
    ensures told { IfOk result (λ x. AllByRecursion (IsTold blobs.now) x.0.items) }
    ensures used { IfOk result (λ x. used.new ≡ fold (step_used blobs.now) used.old (map step_in x.0.items)) }
{
    let mut steps = Vec::new(alloc);
    let mut rest = bytes;
    'steps: for _ in 0..count {
        let (step, number, after) = old_step_of(alloc, blobs, used, recent, rest)?;
        steps.push((step, number))?;
        rest = after;
    }
    Ok((steps, rest))
}

fn steps_of<'a>(
    alloc: Global,
    blobs: &Contents,
    used: &mut Option<usize>,
    recent: &mut Recent,
    bytes: &'a [u8],
) -> Result<(Vec<(Step, Option<usize>)>, &'a [u8]), PartErr>
    ensures gives { Gives (λ x. (map step_in x.0.items, x.1.now)) result (counted_at (λ before. step_at blobs.now) bytes.now) }
    ensures told { IfOk result (λ x. AllByRecursion (IsTold blobs.now) x.0.items) }
    ensures used { IfOk result (λ x. used.new ≡ fold (step_used blobs.now) used.old (map step_in x.0.items)) }
{
    let (count, rest) = count_of(bytes)?;
    let (steps, rest) = so_many_steps(alloc, blobs, used, recent, count, rest)?;
    Ok((steps, rest))
}

// The steps are put into nodes, from the last to the first. It tells their number; `None` where they cost 2^64 turns or more.
fn chained(
    pool: &mut StepPool,
    steps: Vec<(Step, Option<usize>)>,
) -> Result<Option<usize>, NoMemory>
    ensures some { IfOk result (λ it. IfSome it (λ head. (head ≤ length pool.new.nodes) × (steps_under pool.new.nodes head ≡ map step_in steps.items))) }
    ensures none { IfOk result (λ it. IfNone it (2 ^ 64 ≤ steps_cost (map step_in steps.items))) }
    ensures keeps { OnOk result (Keeps pool.old pool.new) }
    ensures told { OnOk result ((texts : List Text) → AllByRecursion (IsTold texts) steps.items → AreTold texts pool.old → AreTold texts pool.new) }
{
    let mut left = steps;
    let mut head = 0;
    'steps: while let Some((step, number)) = left.pop() {
        match pool.push(head, step, number)? {
            None => return Ok(None),
            Some(now) => head = now,
        }
    }
    Ok(Some(head))
}

// The number of the last node that this chain of steps makes, where they cost less than 2^64 turns with an exit at this cost.
fn chained_within(
    pool: &mut StepPool,
    steps: Vec<(Step, Option<usize>)>,
    exit_cost: u64,
) -> Result<Option<usize>, NoMemory>
    ensures some { IfOk result (λ it. IfSome it (λ head. (head ≤ length pool.new.nodes) × (steps_under pool.new.nodes head ≡ map step_in steps.items))) }
    ensures whether { IfOk result (λ it. is_some it ≡ nat_lt (paid (map step_in steps.items) exit_cost) (2 ^ 64)) }
    ensures keeps { OnOk result (Keeps pool.old pool.new) }
    ensures told { OnOk result ((texts : List Text) → AllByRecursion (IsTold texts) steps.items → AreTold texts pool.old → AreTold texts pool.new) }
{
    let Some(head) = chained(pool, steps)? else {
        return Ok(None);
    };
    if pool.paid(head).checked_add(exit_cost).is_none() {
        return Ok(None);
    }
    Ok(Some(head))
}

#[tactic(auto, unfolding(crate::specs::OldReading::row_at))]
fn row_of<'a>(
    alloc: Global,
    blobs: &Contents,
    used: &mut Option<usize>,
    recent: &mut Recent,
    pool: &mut StepPool,
    bytes: &'a [u8],
) -> Result<(HeadedRow, &'a [u8]), PartErr>
    ensures gives { Gives (λ x. (row_under pool.new.nodes x.0, x.1.now)) result (row_at blobs.now bytes.now) }
    ensures within { IfOk result (λ x. x.0.head ≤ length pool.new.nodes) }
    ensures keeps { OnOk result (Keeps pool.old pool.new) }
    ensures told { OnOk result (AreTold blobs.now pool.old → AreTold blobs.now pool.new) }
    ensures used { IfOk result (λ x. used.new ≡ row_used blobs.now used.old x.0.key (steps_under pool.new.nodes x.0.head)) }
{
    let (key, rest) = key_of(alloc, blobs, used, recent, bytes)?;
    let (steps, rest) = steps_of(alloc, blobs, used, recent, rest)?;
    let (exit, rest) = byte_of(rest)?;
    let (exit_cost, rest) = cost_of(rest)?;
    let exit_cost = u64::from(exit_cost);
    let Some(head) = chained_within(pool, steps, exit_cost)? else {
        return Err(PartErr::Form);
    };
    let row = HeadedRow {
        key,
        head,
        exit,
        exit_cost,
    };
    Ok((row, rest))
}

fn so_many_rows<'a>(
    alloc: Global,
    blobs: &Contents,
    used: &mut Option<usize>,
    recent: &mut Recent,
    pool: &mut StepPool,
    count: u64,
    bytes: &'a [u8],
) -> Result<(VecDeque<HeadedRow>, &'a [u8]), PartErr>
    ensures gives { Gives (λ x. (map (row_under pool.new.nodes) x.0.items, x.1.now)) result (many_at (λ before. row_at blobs.now) count [] bytes.now) }
    ensures within { IfOk result (λ x. AllByRecursion (IsWithin pool.new.nodes) x.0.items) }
    ensures told { OnOk result (AreTold blobs.now pool.old → AreTold blobs.now pool.new) }
    ensures used { IfOk result (λ x. used.new ≡ rows_used blobs.now used.old (map (row_under pool.new.nodes) x.0.items)) }
{
    let mut rows = VecDeque::new(alloc);
    let mut rest = bytes;
    'rows: for _ in 0..count {
        let (row, after) = row_of(alloc, blobs, used, recent, pool, rest)?;
        rows.push_back(row)?;
        rest = after;
    }
    Ok((rows, rest))
}

// The records of rows, in their order, and the numbers of their steps.
fn table_from(
    alloc: Global,
    pool: &Rc<StepPool>,
    rows: VecDeque<HeadedRow>,
) -> Result<(Table, Vec<usize>), PartErr>
    requires { AllByRecursion (IsWithin pool.now.value.nodes) rows.items }
    ensures table { IfOk result (λ x. x.0 ≡ records_from [] (map (row_under pool.now.value.nodes) rows.items)) }
    ensures heads { IfOk result (λ x. AreHeads pool.now.value.nodes x.1.items x.0) }
    ensures memory { IfErr result (λ e. e ≡ err.NoMemory) }
{
    let mut left = rows;
    let mut table = Table::new(alloc);
    let mut heads = Vec::new(alloc);
    'rows: while let Some(row) = left.pop_front() {
        push_row(&mut table, &mut heads, pool, row)?;
    }
    Ok((table, heads))
}

// So many rows with these blobs, which use all of them in order, and behind which nothing stands.
fn rows_of(
    alloc: Global,
    blobs: &Contents,
    pool: &mut StepPool,
    bytes: &[u8],
) -> Result<VecDeque<HeadedRow>, PartErr>
    ensures gives { Gives (λ x. records_from [] (map (row_under pool.new.nodes) x.items)) result (records_at blobs.now bytes.now) }
    ensures within { IfOk result (λ x. AllByRecursion (IsWithin pool.new.nodes) x.items) }
    ensures told { OnOk result (AreTold blobs.now pool.old → AreTold blobs.now pool.new) }
{
    let (count, rest) = count_of(bytes)?;
    let mut used = Some(0);
    let mut recent = Recent::new(alloc);
    let (rows, rest) = so_many_rows(alloc, blobs, &mut used, &mut recent, pool, count, rest)?;
    if !all_read(used, blobs.as_slice().len(), rest) {
        return Err(PartErr::Form);
    }
    Ok(rows)
}

/// The table that is spelt after the first version's magic.
#[tactic(auto, unfolding(crate::specs::OldReading::table_at))]
pub(crate) fn old_table_of(alloc: Global, bytes: &[u8]) -> Result<ReadTable, PartErr>
    ensures { Gives (λ x. x) result (table_at bytes.now) }
{
    let (count, rest) = count_of(bytes)?;
    let (blobs, rest) = fresh_blobs(alloc, count, rest)?;
    let mut pool = StepPool::new(alloc);
    let rows = rows_of(alloc, &blobs, &mut pool, rest)?;
    let pool = Rc::new(alloc, pool)?;
    let (table, heads) = table_from(alloc, &pool, rows)?;
    let table = with_contents(alloc, table, heads, pool, &blobs)?;
    Ok(table)
}
