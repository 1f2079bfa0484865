// Whether a command's record is the kept one of its number.
ghost use Rattle.std.specs.Prelude.{◌≡◌, ◌<◌, length, IsTrue};
ghost use Rattle.tr_record.specs.Contents.{AreContents};
ghost use Rattle.tr_record.specs.Rec.{rec_at, with_exit};
ghost use Rattle.rk_replay.specs.Links.{IsAsKept};
ghost use Rattle.rk_replay.specs.Ran.{HaveOneNumber};

use tr_matching::Earlier;
use tr_record::Record;

// Whether a kept record has this number, and its steps are those of another one. Where records with the same steps have two numbers
// of steps, they are told apart.
fn has_steps_of(earlier: &Earlier, place: usize, rec: usize) -> bool
    requires contents { AreContents earlier.now.contents earlier.now.records }
    requires in_old { rec < length earlier.now.records }
    ensures here { IsTrue result → place < length earlier.now.records }
    ensures steps { IsTrue result → (rec_at place earlier.now.records).steps ≡ (rec_at rec earlier.now.records).steps }
    ensures told { HaveOneNumber earlier.now.contents earlier.now.records → place < length earlier.now.records →
        (rec_at place earlier.now.records).steps ≡ (rec_at rec earlier.now.records).steps → IsTrue result }
{
    match earlier.contents().head(place) {
        Some(head) => head == earlier.head(rec),
        None => false,
    }
}

/// Whether the record of a command that exits so, with the steps of a kept one, is the kept one of this number.
pub(crate) fn is_kept_at(
    earlier: &Earlier,
    exited: &Record,
    rec: usize,
    place: usize,
    status: u8,
    cost: u64,
) -> bool
    requires contents { AreContents earlier.now.contents earlier.now.records }
    requires in_old { rec < length earlier.now.records }
    requires steps { exited.now.steps ≡ (rec_at rec earlier.now.records).steps }
    ensures here { IsTrue result → place < length earlier.now.records }
    ensures same { IsTrue result → with_exit exited.now status cost ≡ rec_at place earlier.now.records }
    ensures told { HaveOneNumber earlier.now.contents earlier.now.records →
        IsAsKept earlier.now.records place (with_exit exited.now status cost) → IsTrue result }
{
    if !has_steps_of(earlier, place, rec) {
        return false;
    }
    let was = earlier.at(place);
    was.ordinal == exited.ordinal
        && was.exit == status
        && was.exit_cost == cost
        && was.key.same(&exited.key)
}
