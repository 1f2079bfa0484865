// What was paid by the commands that ran.
ghost use Rattle.std.specs.Prelude.{◌≡◌, ◌<◌, ◌^◌, is_some, IsTrue, IsFalse};
ghost use Rattle.tr_record.specs.Generations.{records};
ghost use Rattle.rk_replay.specs.Paying.{AllDiffer, OneIsAlike};
ghost use Rattle.rk_replay.specs.Ran.{cause_of, own_for, ran_total};

use rk_traces::{first_difference, own};
use tr_record::{Kept, Record, Table};

// Whether each record of a key in a table has another answer than a command's record.
fn all_differ(was: &Table, rec: &Record) -> bool
    ensures differ { IsTrue result → AllDiffer was.now rec.now }
    ensures alike { IsFalse result → OneIsAlike was.now rec.now }
{
    let _numbered = was.as_slice();
    'ordinals: for ordinal in 0..was.count(&rec.key) {
        let Some(i) = was.place(&rec.key, ordinal as u64) else {
            unreachable!()
        };
        match first_difference(was.at(i), rec) {
            Some(_) => {}
            None => return false,
        }
    }
    true
}

// Whether the command of a record ran.
fn ran(kept: &Kept, rec: &Record) -> bool
    ensures { result ≡ is_some (cause_of (records kept.now) rec.now) }
{
    'tables: for k in 0..kept.len() {
        let Some(table) = kept.table(k) else {
            unreachable!()
        };
        if !all_differ(table, rec) {
            return false;
        }
    }
    true
}

// What it paid, where it ran.
fn own_for(kept: &Kept, rec: &Record) -> u64
    requires { own_for rec.now (cause_of (records kept.now) rec.now) < 2 ^ 64 }
    ensures { result ≡ own_for rec.now (cause_of (records kept.now) rec.now) }
{
    if ran(kept, rec) { own(rec) } else { 0 }
}

/// How many turns were paid by the commands that ran, by the records that were kept before, and those of the build that they ran in.
/// Each record is compared with all kept ones of its key.
pub fn paid(kept: &Kept, table: &Table) -> u64
    requires { ran_total (records kept.now) table.now < 2 ^ 64 }
    ensures { result ≡ ran_total (records kept.now) table.now }
{
    let records = table.as_slice();
    let mut total: u64 = 0;
    for rec in records {
        total += own_for(kept, rec);
    }
    total
}
