// Reading a table from its one spelling, but for the digest.
ghost use Rattle.std.specs.Prelude.{◌≤◌, length};
ghost use Rattle.tr_codec.specs.OldReading.{either_at};
ghost use Rattle.tr_parts.specs.Reads.{Gives};

use crate::old_records::old_table_of;
use crate::read_table::ReadTable;
use crate::records::table_of;
use std::alloc::Global;
use tr_parts::{PartErr, is_same};

/// The table that is spelt behind the magic, by the version that the magic names.
#[tactic(auto, unfolding(crate::specs::Reading::body_at, crate::specs::OldReading::body_at))]
pub fn table_in(alloc: Global, front: &[u8]) -> Result<ReadTable, PartErr>
    requires { 4 ≤ length front.now }
    ensures { Gives (λ x. x) result (either_at front.now) }
{
    let (magic, rest) = front.split_at(4);
    if is_same(magic, b"RKR2") {
        table_of(alloc, rest)
    } else if is_same(magic, b"RKR1") {
        old_table_of(alloc, rest)
    } else {
        Err(PartErr::Form)
    }
}
