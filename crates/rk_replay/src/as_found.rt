// Whether a build left the tables that it found.
ghost use Rattle.std.specs.Prelude.{◌≡◌, ◌<◌, IsTrue, length};
ghost use Rattle.tr_record.specs.Generations.{records, table_at};
ghost use Rattle.rk_replay.specs.Ran.{AreStill};

use tr_record::{Kept, Table};

/// Whether a build left the newest table that it found, where it is told whether each of its records is the kept one of its number.
/// No answers are compared. Where that is told, it says so exactly where a newest table was kept and is this one.
pub fn is_as_found(kept: &Kept, table: &Table, still: bool) -> bool
    requires { IsTrue still → AreStill (records kept.now) table.now }
    ensures found { IsTrue result → (0 < length kept.now) × (table_at 0 kept.now ≡ table.now) }
    ensures told { IsTrue still → 0 < length kept.now → table_at 0 kept.now ≡ table.now → IsTrue result }
{
    if !still {
        return false;
    }
    match kept.table(0) {
        Some(newest) => newest.len() == table.len(),
        None => false,
    }
}
