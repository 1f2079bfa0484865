// Whether the kept records are what their commands say.
ghost use Rattle.std.specs.Prelude.{◌≡◌, ℕ, length, IfOk, IfErr};
ghost use Rattle.tr_record.specs.Generations.{records};
ghost use Rattle.rk_traces.specs.Spoken.{AreSpoken};
ghost use Rattle.rk_traces.specs.Checked.{IsFirstWrong, IsTold, TellsForged};
ghost use Rattle.rk_traces.specs.Started.{StartsEach};

use rk_base::NoMemory;
use rk_calls::Maker;
use rk_traces::{CheckErr, check_record};
use tr_record::Kept;

/// How many records are kept in all tables; `NoMemory` where no number of 64 bits says so.
pub fn record_count(kept: &Kept) -> Result<usize, NoMemory>
    ensures { IfOk result (λ n. n ≡ length (records kept.now)) }
{
    let mut all: usize = 0;
    'tables: for k in 0..kept.len() {
        let Some(table) = kept.table(k) else {
            unreachable!()
        };
        match all.checked_add(table.len()) {
            Some(more) => {
                all = more;
            }
            None => return Err(NoMemory),
        }
    }
    Ok(all)
}

/// Whether each kept record is what its command says, in the order of their numbers.
///
/// Errors: the first record that isn't, with its first step that the command doesn't take; and want of memory, which is told as well
/// where there are more records than numbers of 64 bits.
pub fn check_with<K: Maker>(maker: &mut K, kept: &Kept) -> Result<(), CheckErr>
    ensures spoken { IfOk result (λ _. AreSpoken K.first (records kept.now)) }
    ensures first { IfErr result (IsTold K.first (records kept.now)) }

    // Nothing but memory keeps it from finding spoken records to be spoken, and a first wrong record wrong.
    ensures complete { AreSpoken K.first (records kept.now) → IfErr result (λ e. e ≡ CheckErr.NoMemory) }
    ensures forged { (rec step : ℕ) → IsFirstWrong K.first (records kept.now) rec step → TellsForged rec step result }

    // Each record that is looked at is started once.
    ensures starts { StartsEach (length (records kept.now)) (K.starts maker.old) (K.starts maker.new) result }
{
    let many = record_count(kept)?;
    'records: for i in 0..many {
        match check_record(maker, kept.at(i)) {
            Ok(()) => {}
            Err(e) => return Err(e.of_record(i as u64)),
        }
    }
    Ok(())
}
