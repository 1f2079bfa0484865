// What commands say that run or are replayed.
ghost use Rattle.std.specs.Prelude.{◌≡◌, take, IfOk, IfErr, OnOk};
ghost use Rattle.rk_calls.specs.Saying.{goes_on, speaks};
ghost use Rattle.rk_calls.specs.Heard.{IsPaid, Goes};
ghost use Rattle.tr_record.specs.Rec.{rec_at};
ghost use Rattle.tr_matching.specs.Groups.{Grows, IsKnown, group_at};
ghost use Rattle.rk_traces.specs.Spoken.{AreSpoken, follow, step_at};
ghost use Rattle.rk_replay.specs.Activities.{stands, waits, IsNext, IsSeated, KnowsNext, Speaks_on};
ghost use Rattle.rk_replay.specs.Seats.{AreTalks, IsSeat, left_with};
ghost use Rattle.rk_replay.specs.Starts.{StartsTold};
ghost use Rattle.rk_replay.specs.Stops.{IsForged};
ghost use Rattle.rk_replay.specs.Taking.{IsFirstForged, TellsFirst};

use crate::activity::Activity;
use crate::talks::{Seat, Talks};
use crate::torn::torn;
use rk_calls::{Answer, Machine, Maker, Spoke, advance};
use rk_traces::CheckErr;
use tr_matching::{Earlier, Next, next_from};

// What the records that are left have next, a call or the exit, where the purse meets it. Where they have no one next, the first of them
// is told that isn't what its command says.
fn hear_records<K: Maker>(
    maker: &mut K,
    earlier: &Earlier,
    talks: &mut Talks,
    seat: Seat,
    purse: u64,
) -> Result<Spoke, CheckErr>
    requires talks { AreTalks earlier.now talks.old }
    requires seat { IsSeat earlier.now talks.old.groups.items seat }
    ensures paid { IfOk result (λ x. IsPaid purse x) }
    ensures next { IfOk result (λ x. IsNext earlier.now.records seat.rec seat.place.at x) }
    ensures spoke { IfOk result (λ x. AreSpoken K.first earlier.now.records →
        x ≡ speaks purse (follow (K.first (rec_at seat.rec earlier.now.records).key) (take seat.place.at (rec_at seat.rec earlier.now.records).steps))) }
    ensures goes { IfOk result (λ x. Goes x
        (follow (K.first (rec_at seat.rec earlier.now.records).key) (take seat.place.at (rec_at seat.rec earlier.now.records).steps))
        (goes_on (step_at seat.place.at (rec_at seat.rec earlier.now.records).steps).cost
        (follow (K.first (rec_at seat.rec earlier.now.records).key) (take seat.place.at (rec_at seat.rec earlier.now.records).steps)))) }
    ensures known { OnOk result (IsKnown seat.place.at (group_at seat.place.group talks.new.groups.items)) }
    ensures talks { OnOk result (AreTalks earlier.now talks.new) }
    ensures grows { OnOk result (Grows talks.old.groups.items talks.new.groups.items) }
    ensures starts { IfOk result (λ _. K.starts maker.new ≡ K.starts maker.old) }
    ensures started { IfErr result (StartsTold earlier.now.records (K.starts maker.old) (K.starts maker.new)) }
    ensures forged { IfErr result (IsForged K.first earlier.now.records) }
    ensures first { IfErr result (IsFirstForged K.first earlier.now.records seat.place.at (left_with earlier.now.records seat.rec seat.place.at)) }
{
    match next_from(earlier, &mut talks.groups, seat.place)? {
        Next::Asks(call, cost) => {
            if cost > purse {
                return Ok(Spoke::Short);
            }
            Ok(Spoke::Call(call, cost))
        }
        Next::Ends(status, cost) => {
            if cost > purse {
                return Ok(Spoke::Short);
            }
            Ok(Spoke::Exit(status, cost))
        }
        Next::Torn => {
            let members = talks.members(seat.place.group);
            Err(torn(maker, earlier, members, seat.place.at))
        }
    }
}

impl<M: Machine> Activity<M> {
    /// Resumes the command until it asks or exits. The records that are left are asked for what they have next, and answer at
    /// once. Where they have no one next, the first of them is told that isn't what its command says.
    pub(crate) fn hear<K: Maker<Made = M>>(
        &mut self,
        maker: &mut K,
        earlier: &Earlier,
        talks: &mut Talks,
        answer: Answer,
        purse: u64,
    ) -> Result<Spoke, CheckErr>
        requires talks { AreTalks earlier.now talks.old }
        requires seated { IsSeated earlier.now talks.old.groups.items self.old }
        ensures paid { IfOk result (λ x. IsPaid purse x) }
        ensures spoke { IfOk result (λ x. AreSpoken K.first earlier.now.records →
            x ≡ speaks purse (stands M.talk K.first earlier.now.records self.old answer)) }
        ensures goes { IfOk result (λ x. Goes x
            (stands M.talk K.first earlier.now.records self.old answer) (waits M.talk K.first earlier.now.records self.new)) }
        ensures on { IfOk result (λ x. Speaks_on earlier.now.records self.old self.new x) }
        ensures knows { IfOk result (λ _. KnowsNext earlier.now talks.new.groups.items self.new) }
        ensures talks { OnOk result (AreTalks earlier.now talks.new) }
        ensures grows { OnOk result (Grows talks.old.groups.items talks.new.groups.items) }
        ensures starts { IfOk result (λ _. K.starts maker.new ≡ K.starts maker.old) }
        ensures started { IfErr result (StartsTold earlier.now.records (K.starts maker.old) (K.starts maker.new)) }
        ensures forged { IfErr result (IsForged K.first earlier.now.records) }
        ensures first { IfErr result (TellsFirst K.first earlier.now.records self.old) }
    {
        match self {
            Activity::Runs(machine) => {
                let spoke = advance(machine, answer, purse)?;
                Ok(spoke)
            }
            Activity::Replays(seat) => {
                let spoke = hear_records(maker, earlier, talks, *seat, purse)?;
                Ok(spoke)
            }
        }
    }
}
