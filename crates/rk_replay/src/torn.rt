// Records that have no one next.
ghost use Rattle.std.specs.Prelude.{◌≡◌, ◌≤◌, ◌<◌, ℕ, length, take, IfOk, IfErr};
ghost use Rattle.std.specs.List.{AllByRecursion as Each};
ghost use Rattle.rk_traces.specs.Checked.{IsWrong};
ghost use Rattle.rk_traces.specs.Started.{StartsOne};
ghost use Rattle.tr_matching.specs.Groups.{numbers_in};
ghost use Rattle.rk_replay.specs.Starts.{StartsTold};
ghost use Rattle.rk_replay.specs.Stops.{IsForged};
ghost use Rattle.rk_replay.specs.Taking.{AreTornLeft, IsFirstForged, IsSpokenAt};

use rk_calls::Maker;
use rk_traces::{CheckErr, FeedErr, check_record, feed};
use tr_matching::{Earlier, Member};
use tr_record::Record;

// Whether a record is what its command says in so many steps, and in what it has next behind them.
fn check_at<K: Maker>(maker: &mut K, rec: &Record, at: usize) -> Result<(), FeedErr>
    requires { at ≤ length rec.now.steps }
    ensures so { IfOk result (λ _. IsSpokenAt K.first at rec.now) }
    ensures forged { IfErr result (IsWrong K.first rec.now) }
    ensures starts { StartsOne (K.starts maker.old) (K.starts maker.new) result }
{
    if at < rec.steps.len() {
        let _fed = feed(maker, rec, at + 1)?;
        return Ok(());
    }
    check_record(maker, rec)
}

/// Of records that have so many first steps in common and no one next behind them, the first is told that isn't what its command
/// says.
pub(crate) fn torn<K: Maker>(
    maker: &mut K,
    earlier: &Earlier,
    members: &[Member],
    at: usize,
) -> CheckErr
    requires { AreTornLeft earlier.now.records at (numbers_in members.now) }
    ensures started { StartsTold earlier.now.records (K.starts maker.old) (K.starts maker.new) result }
    ensures forged { IsForged K.first earlier.now.records result }
    ensures first { IsFirstForged K.first earlier.now.records at (numbers_in members.now) result }
{
    'members: for k in 0..members.len() {
        let number = members[k].number;
        match check_at(maker, earlier.at(number), at) {
            Ok(()) => {}
            Err(err) => return err.of_record(number as u64),
        }
    }
    unreachable!()
}
