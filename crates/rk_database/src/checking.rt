// The records, checked.
ghost use Rattle.std.specs.Prelude.{◌≡◌, ◌++◌, true, IfErr, IfOk};
ghost use Rattle.rk_database.specs.Answers.{Checks, IsNoFault, ReadsCounted, Shows, WritesCounted};
ghost use Rattle.rk_database.specs.Texts.{IsChecked, NoCheck, StartsRecords};
ghost use Rattle.rk_folder.specs.Hidden.{db_file};
ghost use Rattle.rk_folder.specs.Looks.{reads, state_listings};
ghost use Rattle.rk_folder.specs.Schedule.{MakesCalls};

use crate::database::{database, kept_of};
use crate::output::{put, say_none};
use crate::stop::{QueryErr, Said};
use rk_base::Bytes;
use rk_calls::Maker;
use rk_folder::{Folder, Sink};
use rk_replay::{check_with, record_count};
use rk_show::records_text;
use rk_traces::CheckErr;
use std::alloc::Global;

// How many records a database's bytes spell, where each of them is spoken.
fn text_of<M: Maker>(alloc: Global, maker: &mut M, db: &[u8]) -> Result<Bytes, QueryErr>
    ensures checked { IfOk result (λ text. IsChecked M.first db.now text) }
    ensures refused { IfErr result (NoCheck M.first db.now) }
    ensures starts { StartsRecords db.now (M.starts maker.old) (M.starts maker.new) result }
{
    let kept = kept_of(alloc, db)?;
    match check_with(maker, &kept) {
        Ok(()) => Ok(records_text(alloc, record_count(&kept)? as u64)?),
        Err(CheckErr::Forged { rec, step }) => Err(QueryErr::Forged { rec, step }),
        Err(CheckErr::NoMemory) => Err(QueryErr::NoMemory),
    }
}

/// Checks every record that the folder's database keeps, those of its newest table first, by the machines of a maker, and puts `records R` on the output where each is
/// spoken; or `no trace` where there is no database.
///
/// The folder stays as it is. `.rkr` and its state files are looked at by the listings, and the database alone is read.
pub fn check<M: Maker, F: Folder, O: Sink>(
    alloc: Global,
    maker: &mut M,
    folder: &mut F,
    out: &mut O,
) -> Result<Said, QueryErr>
    ensures shows { Shows (IsChecked M.first) (NoCheck M.first) (F.told folder.old) (O.so_far out.old) (O.so_far out.new) result }
    ensures held { F.told folder.new ≡ F.told folder.old }
    ensures starts { Checks (F.told folder.old) (M.starts maker.old) (M.starts maker.new) result }
    ensures reads { ReadsCounted (F.read_faults folder.old) (F.read_faults folder.new) result }
    ensures writes { F.write_faults folder.new ≡ F.write_faults folder.old }
    ensures puts { WritesCounted (O.faults out.old) (O.faults out.new) result }
    ensures steady { F.steady folder.old ≡ true → O.steady out.old ≡ true → IsNoFault result }

    // The root and `.rkr` are listed, and then the database is read; nothing else is asked.
    ensures calls { MakesCalls (state_listings ++ reads db_file) (F.schedule folder.old) (F.schedule folder.new) }
{
    match database(alloc, folder)? {
        None => say_none(out),
        Some(db) => {
            let text = text_of(alloc, maker, db.as_slice())?;
            put(out, &text)?;
            Ok(Said::Done)
        }
    }
}
