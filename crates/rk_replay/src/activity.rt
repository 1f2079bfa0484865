// Commands that run or are replayed.
ghost use Rattle.std.specs.Prelude.{◌≡◌, ◌≤◌, ◌<◌, ℕ, length, take, IsFalse, IsTrue, IfOk, IfErr, IfSome, OnOk, OnErr};
ghost use Rattle.rk_calls.specs.Starts.{one_more};
ghost use Rattle.rk_calls.specs.declared.answer.Answer.{Answer};
ghost use Rattle.tr_record.specs.Contents.{AreContents};
ghost use Rattle.tr_record.specs.Rec.{rec_at, with_exit};
ghost use Rattle.tr_matching.specs.Groups.{Grows};
ghost use Rattle.rk_traces.specs.Spoken.{Follows};
ghost use Rattle.rk_traces.specs.Fed.{waits_at};
ghost use Rattle.rk_traces.specs.Started.{started};
ghost use Rattle.rk_replay.specs.Activities.{stands, waits, IsAlike, IsRunning, IsSeated, IsWaiting, IsWhole, IsLaunched, KnowsNext};
ghost use Rattle.rk_replay.specs.Activities.{made, Takes, given_up, live_cost};
ghost use Rattle.rk_replay.specs.Causes.{launch_cause, cause_taken};
ghost use Rattle.rk_replay.specs.Links.{IsAsKept};
ghost use Rattle.rk_replay.specs.Ran.{HaveOneNumber};
ghost use Rattle.rk_replay.specs.Seats.{AreTalks};
ghost use Rattle.rk_replay.specs.Starts.{StartsFor};
ghost use Rattle.rk_replay.specs.Stops.{IsForged};

use crate::still::is_kept_at;
use crate::talks::{Lead, Seat, Talks};
use rk_base::NoMemory;
use rk_calls::{Answer, Key, Machine, Maker};
use rk_traces::{CheckErr, feed};
use tr_matching::{Cause, Earlier};
use tr_record::{Record, Table};

/// A command that runs by its machine, or that is replayed.
#[derive(Drop)]
pub enum Activity<M> {
    Runs(M),
    /// The kept records of its key that are left: those that were answered so far as it was.
    Replays(Seat),
}

/// Makes the machine of a record and gives it the first `count` answers; it is yet to hear the last of them.
pub(crate) fn machine_of<K: Maker>(
    maker: &mut K,
    earlier: &Earlier,
    rec: usize,
    count: usize,
) -> Result<K::Made, CheckErr>
    requires in_old { rec < length earlier.now.records }
    requires in_rec { count ≤ length (rec_at rec earlier.now.records).steps }
    ensures waits { IfOk result (λ m. 1 ≤ count → (a : Answer) →
        K.Made.talk m a ≡ waits_at (K.first (rec_at rec earlier.now.records).key) (rec_at rec earlier.now.records).steps count a) }
    ensures follows { IfOk result (λ _. Follows (K.first (rec_at rec earlier.now.records).key) (take count (rec_at rec earlier.now.records).steps)) }
    ensures starts { IfOk result (λ _. K.starts maker.new ≡ one_more (K.starts maker.old)) }
    ensures started { OnErr result (StartsFor earlier.now.records (K.starts maker.old) (K.starts maker.new)) }
    ensures forged { IfErr result (IsForged K.first earlier.now.records) }
{
    match feed(maker, earlier.at(rec), count) {
        Ok(fed) => Ok(fed.machine),
        Err(err) => Err(err.of_record(rec as u64)),
    }
}

impl<M: Machine> Activity<M> {
    /// Replays the kept records of a command that is launched; or starts its machine where its key has none.
    pub(crate) fn launch<K: Maker<Made = M>>(
        maker: &mut K,
        earlier: &Earlier,
        talks: &mut Talks,
        key: &Key,
    ) -> Result<Activity<M>, NoMemory>
        requires contents { AreContents earlier.now.contents earlier.now.records }
        requires talks { AreTalks earlier.now talks.old }
        ensures says { IfOk result (λ a. stands M.talk K.first earlier.now.records a Answer.Go ≡ K.first key.now) }
        ensures launched { IfOk result (IsLaunched earlier.now.records key.now) }
        ensures seated { IfOk result (IsSeated earlier.now talks.new.groups.items) }
        ensures talks { OnOk result (AreTalks earlier.now talks.new) }
        ensures grows { OnOk result (Grows talks.old.groups.items talks.new.groups.items) }
        ensures starts { IfOk result (λ a. K.starts maker.new ≡ started (made a) (K.starts maker.old)) }
        ensures none { OnErr result (K.starts maker.new ≡ K.starts maker.old) }
    {
        match talks.launch(earlier, key)? {
            Some(seat) => Ok(Activity::Replays(seat)),
            None => {
                let machine = maker.start(key)?;
                Ok(Activity::Runs(machine))
            }
        }
    }

    /// Why the command runs from its launch on, if it does.
    pub(crate) fn launch_cause(&self) -> Option<Cause>
        ensures { result ≡ launch_cause self.now }
    {
        match self {
            Activity::Runs(_) => Some(Cause::NoRecord),
            Activity::Replays(_) => None,
        }
    }

    /// The command takes the answer of its step; whether it is the one of the first record that is left may be told already. A
    /// replayed one goes on with the records that were answered so; where none was, they are given up for a machine: the answer
    /// says why.
    pub(crate) fn take<K: Maker<Made = M>>(
        &mut self,
        maker: &mut K,
        earlier: &Earlier,
        talks: &mut Talks,
        answer: &Answer,
        alike: Option<bool>,
    ) -> Result<Option<Cause>, CheckErr>
        requires waiting { IsWaiting earlier.now.records self.old }
        requires talks { AreTalks earlier.now talks.old }
        requires knows { KnowsNext earlier.now talks.old.groups.items self.old }
        requires alike { IfSome alike (λ b. IsAlike earlier.now.records self.old answer.now b) }
        ensures state { OnOk result (
            stands M.talk K.first earlier.now.records self.new answer.now ≡ waits M.talk K.first earlier.now.records self.old answer.now) }
        ensures takes { OnOk result (Takes earlier.now.records self.old answer.now self.new) }
        ensures cause { IfOk result (λ cause. cause ≡ cause_taken earlier.now.records self.old answer.now self.new) }
        ensures seated { OnOk result (IsSeated earlier.now talks.new.groups.items self.new) }
        ensures talks { OnOk result (AreTalks earlier.now talks.new) }
        ensures grows { OnOk result (Grows talks.old.groups.items talks.new.groups.items) }
        ensures starts { OnOk result (K.starts maker.new ≡ started (given_up self.old self.new) (K.starts maker.old)) }
        ensures started { OnErr result (StartsFor earlier.now.records (K.starts maker.old) (K.starts maker.new)) }
        ensures forged { IfErr result (IsForged K.first earlier.now.records) }
    {
        match self {
            Activity::Runs(_) => Ok(None),
            Activity::Replays(seat) => match talks.take(earlier, *seat, answer, alike)? {
                Lead::On(next) => {
                    *seat = next;
                    Ok(None)
                }
                Lead::GivenUp(cause) => {
                    let machine = machine_of(maker, earlier, seat.rec, seat.place.at + 1)?;
                    *self = Activity::Runs(machine);
                    Ok(Some(cause))
                }
            },
        }
    }

    /// What is counted of a cost that the command pays: all, where it runs.
    pub(crate) fn live_cost(&self, cost: u64) -> u64
        ensures { result ≡ live_cost self.now cost }
    {
        match self {
            Activity::Runs(_) => cost,
            Activity::Replays(_) => 0,
        }
    }

    /// Whether the record of a command that exits, which has this number, is the kept one of that number.
    pub(crate) fn is_still(
        &self,
        earlier: &Earlier,
        rec: &Record,
        place: usize,
        status: u8,
        cost: u64,
    ) -> bool
        requires contents { AreContents earlier.now.contents earlier.now.records }
        requires whole { IsWhole earlier.now.records rec.now self.now }
        ensures so { IsTrue result → IsAsKept earlier.now.records place (with_exit rec.now status cost) }
        ensures told { HaveOneNumber earlier.now.contents earlier.now.records → IsAsKept earlier.now.records place (with_exit rec.now status cost) →
            IsFalse result → IsRunning self.now }
    {
        match self {
            Activity::Runs(_) => false,
            Activity::Replays(seat) => is_kept_at(earlier, rec, seat.rec, place, status, cost),
        }
    }

    /// The steps of a replayed command's record, all of which were asked, give way to the same ones of the first record that is
    /// left. Where there is no memory for that they stay.
    pub(crate) fn hand_on(&self, earlier: &Earlier, table: &mut Table, place: usize)
        requires here { place < length table.old }
        requires whole { IsWhole earlier.now.records (rec_at place table.old) self.now }
        ensures { table.new ≡ table.old }
    {
        match self {
            Activity::Runs(_) => {}
            Activity::Replays(seat) => match earlier.at(seat.rec).steps.share() {
                Ok(steps) => table.hand_on(place, steps),
                Err(_) => {}
            },
        }
    }
}
