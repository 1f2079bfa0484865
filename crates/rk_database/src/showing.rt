// The records, shown.
ghost use Rattle.std.specs.Prelude.{◌≡◌, ◌++◌, true, IfErr, IfOk};
ghost use Rattle.std.specs.List.{AllByRecursion};
ghost use Rattle.rk_show.specs.Traces.{IsCounted};
ghost use Rattle.rk_database.specs.Answers.{IsNoFault, ReadsCounted, Shows, WritesCounted};
ghost use Rattle.rk_database.specs.Texts.{IsTrace, NoTrace, shown_text};
ghost use Rattle.rk_folder.specs.Hidden.{db_file};
ghost use Rattle.rk_folder.specs.Looks.{reads, state_listings};
ghost use Rattle.rk_folder.specs.Schedule.{MakesCalls};
ghost use Rattle.tr_record.specs.Generations.{table_at};

use crate::database::{database, kept_of};
use crate::output::{put, say_none};
use crate::stop::{QueryErr, Said};
use rk_base::{Bytes, NoMemory};
use rk_folder::{Folder, Sink};
use rk_show::{trace_json, trace_text};
use std::alloc::Global;
use tr_record::{Kept, Record};

// The records of the newest table; none where no table is kept.
fn newest(kept: &Kept) -> &[Record]
    ensures { result.now ≡ table_at 0 kept.now }
{
    match kept.table(0) {
        Some(table) => table.as_slice(),
        None => &[],
    }
}

// Records, as JSON or as lines.
fn shown(alloc: Global, table: &[Record], db: &[u8], json: bool) -> Result<Bytes, NoMemory>
    requires { AllByRecursion IsCounted table.now }
    ensures { IfOk result (λ text. text ≡ shown_text json table.now db.now) }
{
    if json {
        trace_json(alloc, table)
    } else {
        trace_text(alloc, table, db)
    }
}

// The text that shows the newest of the tables which a database's bytes spell.
fn text_of(alloc: Global, db: &[u8], json: bool) -> Result<Bytes, QueryErr>
    ensures shown { IfOk result (λ text. IsTrace json db.now text) }
    ensures refused { IfErr result (NoTrace db.now) }
{
    let kept = kept_of(alloc, db)?;
    let text = shown(alloc, newest(&kept), db, json)?;
    Ok(text)
}

/// Puts the newest table of the folder's database on the output, as lines or as JSON; or `no trace` where there is no database.
///
/// The folder stays as it is. `.rkr` and its state files are looked at by the listings, and the database alone is read.
pub fn trace<F: Folder, O: Sink>(
    alloc: Global,
    folder: &mut F,
    out: &mut O,
    json: bool,
) -> Result<Said, QueryErr>
    ensures shows { Shows (IsTrace json) NoTrace (F.told folder.old) (O.so_far out.old) (O.so_far out.new) result }
    ensures held { F.told folder.new ≡ F.told folder.old }
    ensures reads { ReadsCounted (F.read_faults folder.old) (F.read_faults folder.new) result }
    ensures writes { F.write_faults folder.new ≡ F.write_faults folder.old }
    ensures puts { WritesCounted (O.faults out.old) (O.faults out.new) result }
    ensures steady { F.steady folder.old ≡ true → O.steady out.old ≡ true → IsNoFault result }

    // The root and `.rkr` are listed, and then the database is read; nothing else is asked.
    ensures calls { MakesCalls (state_listings ++ reads db_file) (F.schedule folder.old) (F.schedule folder.new) }
{
    match database(alloc, folder)? {
        None => say_none(out),
        Some(db) => {
            let text = text_of(alloc, db.as_slice(), json)?;
            put(out, &text)?;
            Ok(Said::Done)
        }
    }
}
