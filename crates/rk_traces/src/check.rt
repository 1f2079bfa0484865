// Whether records are what their commands say.
ghost use Rattle.std.specs.Prelude.{◌≡◌, ◌↔◌, ℕ, length, IfOk, IfErr, IsTrue};
ghost use Rattle.rk_calls.specs.Saying.{speaks};
ghost use Rattle.rk_traces.specs.Spoken.{IsSpoken, AreSpoken};
ghost use Rattle.rk_traces.specs.Checked.{IsWrong, IsFirstWrong, IsTold, at_record, TellsForged};
ghost use Rattle.rk_traces.specs.Over.{IsRunOver};
ghost use Rattle.rk_traces.specs.Started.{StartsOne, StartsEach};

use crate::feeding::{Fed, FeedErr, feed};
use rk_base::NoMemory;
use rk_calls::{Answer, Machine, Maker, Spoke, advance};
use tr_record::{Record, Table};

/// Why a table wasn't found to be spoken.
#[derive(Debug, Drop)]
pub enum CheckErr {
    /// The record with this number, from 0 on, isn't what its command says: the step with this number, from 1
    /// on, is the first that it doesn't take; one past the last step is the exit.
    Forged { rec: u64, step: u64 },
    NoMemory,
}

impl From<NoMemory> for CheckErr {
    ghost use Rattle.std.specs.Prelude.{◌≡◌};
    ghost use Rattle.rk_traces.specs.declared.check.CheckErr.{CheckErr};

    ghost from_gives = { λ _ e. e ≡ CheckErr.NoMemory };

    fn from(_: NoMemory) -> CheckErr {
        CheckErr::NoMemory
    }
}

impl FeedErr {
    /// What is told of a record, as told of the table in which it has this number.
    pub fn of_record(self, rec: u64) -> CheckErr
        ensures { result ≡ at_record rec self }
    {
        match self {
            FeedErr::Forged { step } => CheckErr::Forged { rec, step },
            FeedErr::NoMemory => CheckErr::NoMemory,
        }
    }
}

/// Whether a command, given an answer, exits as the record says, at just its cost.
fn exits_so<M: Machine>(machine: &mut M, answer: Answer, rec: &Record) -> Result<bool, NoMemory>
    ensures { IfOk result (λ b. IsTrue b ↔ (speaks rec.now.exit_cost (M.talk machine.old answer) ≡ Spoke.Exit rec.now.exit rec.now.exit_cost)) }
{
    let limit = rec.exit_cost;
    match advance(machine, answer, limit)? {
        Spoke::Exit(status, cost) => Ok(status == rec.exit && cost == limit),
        Spoke::Call(_, _) => Ok(false),
        Spoke::Short => Ok(false),
    }
}

/// Whether a record is what its command says: given the recorded answers, it asks just the recorded calls at
/// the recorded costs and exits so, and each answer fits its call.
///
/// Errors: the first step that the command doesn't take, one past the last being the exit; and want of memory.
pub fn check_record<K: Maker>(maker: &mut K, rec: &Record) -> Result<(), FeedErr>
    ensures spoken { IfOk result (λ _. IsSpoken K.first rec.now) }
    ensures forged { IfErr result (IsWrong K.first rec.now) }

    // That is, what its command says over the recorded answers, with what the record paid as its purse.
    ensures run { IsSpoken K.first rec.now ↔ IsRunOver K.first rec.now }

    ensures starts { StartsOne (K.starts maker.old) (K.starts maker.new) result }
{
    let count = rec.steps.len();
    let Fed {
        mut machine,
        answer,
    } = feed(maker, rec, count)?;
    if exits_so(&mut machine, answer, rec)? {
        return Ok(());
    }
    Err(FeedErr::Forged {
        step: count as u64 + 1,
    })
}

/// Whether each record of a table is what its command says.
///
/// Errors: the first record that isn't, with its first step that the command doesn't take; and want of memory.
pub fn check_with<K: Maker>(maker: &mut K, table: &Table) -> Result<(), CheckErr>
    ensures spoken { IfOk result (λ _. AreSpoken K.first table.now) }
    ensures first { IfErr result (IsTold K.first table.now) }

    // Nothing but memory keeps it from finding a spoken table to be spoken, and a first wrong record wrong.
    ensures complete { AreSpoken K.first table.now → IfErr result (λ e. e ≡ CheckErr.NoMemory) }
    ensures forged { (rec step : ℕ) → IsFirstWrong K.first table.now rec step → TellsForged rec step result }

    // Each record that is looked at is started once.
    ensures starts { StartsEach (length table.now) (K.starts maker.old) (K.starts maker.new) result }
{
    'records: for i in 0..table.len() {
        match check_record(maker, table.at(i)) {
            Ok(()) => {}
            Err(e) => return Err(e.of_record(i as u64)),
        }
    }
    Ok(())
}
