// Rows that are read: records whose steps are told by a number.
ghost use Rattle.std.specs.Prelude.{◌≡◌, ◌++◌, ◌∷◌, ◌≤◌, [], length, IfErr, OnOk};
ghost use Rattle.tr_record.specs.Pool.{steps_under};
ghost use Rattle.tr_parts.specs.declared.fault.PartErr.TheVariants as err;
ghost use Rattle.tr_codec.specs.Reading.{next_rec};
ghost use Rattle.tr_codec.specs.Rows.{row_under};

use rk_calls::Key;
use std::rc::Rc;
use tr_parts::PartErr;
use tr_record::{StepList, StepPool, Table};

/// A record but for its ordinal, with the number of its steps among nodes.
#[derive(Drop)]
pub(crate) struct HeadedRow {
    pub(crate) key: Key,
    pub(crate) head: usize,
    pub(crate) exit: u8,
    pub(crate) exit_cost: u64,
}

/// The record of a row is put at the end of a table, and its number behind those of the others.
pub(crate) fn push_row(
    table: &mut Table,
    heads: &mut Vec<usize>,
    pool: &Rc<StepPool>,
    row: HeadedRow,
) -> Result<(), PartErr>
    requires { row.head ≤ length pool.now.value.nodes }
    ensures table { OnOk result (table.new ≡ table.old ++ next_rec table.old (row_under pool.now.value.nodes row) ∷ []) }
    ensures heads { OnOk result (heads.new.items ≡ heads.old.items ++ row.head ∷ []) }
    ensures memory { IfErr result (λ e. e ≡ err.NoMemory) }
{
    let HeadedRow {
        key,
        head,
        exit,
        exit_cost,
    } = row;
    let steps = StepList::shared(pool, head)?;
    table.push(key, steps, exit, exit_cost)?;
    heads.push(head)?;
    Ok(())
}
