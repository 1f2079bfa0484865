// Why commands ran, noted as it shows.
ghost use Rattle.std.specs.Prelude.{◌≡◌, ◌<◌, ◌++◌, ◌∷◌, [], List, Some, length, slice_set, IfOk, OnOk};
ghost use Rattle.std.specs.List.{cons_option};
ghost use Rattle.tr_record.specs.declared.records.Record.{Record as Rec};
ghost use Rattle.rk_replay.specs.Causes.{AreCauses, cause_at};
ghost use Rattle.rk_replay.specs.Ran.{ran_for, ran_of};

use crate::ran::{Ran, RanList};
use rk_base::NoMemory;
use std::alloc::Global;
use std::marker::Model;
use tr_matching::Cause;
use tr_record::{Record, Table};

/// Why each command that was launched ran, if it did, in launch order.
#[derive(Drop)]
pub(crate) struct CauseList {
    items: Vec<Option<Cause>>,
}

impl Model for CauseList {
    ghost use Rattle.std.specs.Prelude.{List, Option};
    ghost use Rattle.tr_matching.specs.declared.cause.Cause.{Cause};

    ghost Value = { List (Option Cause) };

    ghost view = { λ c. c.items.items };
}

impl CauseList {
    /// No command was launched.
    pub(crate) fn new(alloc: Global) -> CauseList
        ensures { result ≡ [] }
    {
        CauseList {
            items: Vec::new(alloc),
        }
    }

    /// One more command was launched.
    pub(crate) fn push(&mut self, cause: Option<Cause>) -> Result<(), NoMemory>
        ensures { OnOk result (self.new ≡ self.old ++ cause ∷ []) }
    {
        self.items.push(cause)?;
        Ok(())
    }

    /// The command of this number runs from here on.
    pub(crate) fn note(&mut self, i: usize, cause: Cause)
        requires { i < length self.old }
        ensures { self.new ≡ slice_set self.old i (Some cause) }
    {
        self.items[i] = Some(cause);
    }

    /// Why the command of this number ran, if it did.
    fn at(&self, i: usize) -> &Option<Cause>
        requires { i < length self.now }
        ensures { result.now ≡ cause_at i self.now }
    {
        &self.items[i]
    }
}

fn add_ran(ran: &mut RanList, rec: &Record, cause: &Option<Cause>) -> Result<(), NoMemory>
    ensures { OnOk result (ran.new ≡ ran.old ++ cons_option (ran_for rec.now cause.now) []) }
{
    match cause {
        None => Ok(()),
        Some(cause) => {
            let cause = cause.copy()?;
            let key = rec.key.copy()?;
            ran.push(Ran {
                key,
                ordinal: rec.ordinal,
                cause,
            })
        }
    }
}

/// The commands of a table that ran, each with its cause.
pub(crate) fn ran_of(alloc: Global, table: &Table, causes: &CauseList) -> Result<RanList, NoMemory>
    requires { length causes.now ≡ length table.now }
    ensures { IfOk result (λ r. (old : List Rec) → AreCauses old table.now causes.now → r ≡ ran_of old table.now) }
{
    let mut ran = RanList::new(alloc);
    let records = table.as_slice();
    'records: for i in 0..records.len() {
        add_ran(&mut ran, &records[i], causes.at(i))?;
    }
    Ok(ran)
}
