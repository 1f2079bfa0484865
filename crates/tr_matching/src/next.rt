// What records have next.
ghost use Rattle.std.specs.Prelude.{◌≤◌, ◌<◌, length, IfOk};
ghost use Rattle.tr_record.specs.Rec.{rec_at};
ghost use Rattle.tr_matching.specs.Earlier.{IsRest};
ghost use Rattle.tr_matching.specs.Places.{IsNextOf};

use crate::Earlier;
use rk_base::NoMemory;
use rk_calls::Call;

/// What the records that are left have next.
#[derive(Debug, Drop)]
pub enum Next {
    /// They ask this call at this cost, which isn't 0.
    Asks(Call, u64),
    /// They exit with this status at this cost.
    Ends(u8, u64),
    /// They disagree, or ask at no cost.
    Torn,
}

/// What a record has next behind so many steps, of which its rest has this number.
#[tactic(auto, using(crate::proofs::NextLemmas::next_step, crate::proofs::NextLemmas::next_end))]
pub(crate) fn next_of(
    earlier: &Earlier,
    rec: usize,
    at: usize,
    rest: usize,
) -> Result<Next, NoMemory>
    requires in_old { rec < length earlier.now.records }
    requires rest { IsRest earlier.now rec at rest }
    ensures { IfOk result (IsNextOf at (rec_at rec earlier.now.records)) }
{
    let Some((step, _)) = earlier.step(rec, at, rest) else {
        let last = earlier.at(rec);
        return Ok(Next::Ends(last.exit, last.exit_cost));
    };
    if step.cost == 0 {
        return Ok(Next::Torn);
    }
    let call = step.call.copy()?;
    Ok(Next::Asks(call, step.cost))
}
