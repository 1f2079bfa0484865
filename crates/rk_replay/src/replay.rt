// A build under way.
ghost use Rattle.std.specs.Prelude.{◌≡◌, ◌⊎◌, ◌+◌, ◌<◌, ◌++◌, ◌∷◌, [], true, length};
ghost use Rattle.std.specs.Prelude.{IfOk, IfErr, OnErr, OnOk, IfNone, IfSome, IsFalse, IsTrue, OnSome};
ghost use Rattle.std.specs.Option.{IsSomeAnd};
ghost use Rattle.rk_calls.specs.Given.{Given};
ghost use Rattle.rk_calls.specs.Heard.{IsPaid, Goes};
ghost use Rattle.rk_calls.specs.Refs.{top_refs};
ghost use Rattle.rk_calls.specs.Saying.{speaks};
ghost use Rattle.rk_calls.specs.declared.answer.Answer.TheVariants.{Joined};
ghost use Rattle.rk_calls.specs.declared.call.Call.TheVariants.{Launch};
ghost use Rattle.rk_content.specs.Contents.{AreKnown};
ghost use Rattle.tr_record.specs.Contents.{AreContents};
ghost use Rattle.tr_record.specs.Costs.{steps_cost};
ghost use Rattle.tr_record.specs.Rec.{rec_at, begun, stepped};
ghost use Rattle.tr_matching.specs.Groups.{Grows};
ghost use Rattle.rk_traces.specs.Own.{total};
ghost use Rattle.rk_traces.specs.Run.{step};
ghost use Rattle.rk_traces.specs.Spoken.{AreSpoken};
ghost use Rattle.rk_traces.specs.Started.{started, StartsSome};
ghost use Rattle.rk_replay.specs.Activities.{stands, waits, IsAlike, IsSeated, IsWaiting, KnowsNext, Takes, given_up, counted};
ghost use Rattle.rk_replay.specs.Causes.{AreCauses, launch_cause, noted};
ghost use Rattle.rk_replay.specs.Ran.{ran_count, ran_of, ran_total};
ghost use Rattle.rk_replay.specs.Seats.{AreTalks};
ghost use Rattle.rk_replay.specs.Starts.{StartsFor, StartsTold};
ghost use Rattle.rk_replay.specs.Stops.{Stops, StaysSo, IsForged};
ghost use Rattle.rk_replay.specs.Taking.{TellsFirst};
ghost use Rattle.rk_replay.specs.UnderWay.{IsUnderWay, HasSaid, as_heard, AreCounted, HasPaid, Launches, Answers, Joins, Ends};

use crate::activity::Activity;
use crate::causes::{CauseList, ran_of};
use crate::ran::RanList;
use crate::stop::ReplayErr;
use crate::talks::Talks;
use rk_base::{NoMemory, Steps};
use rk_calls::{Answer, Call, Key, Machine, Maker, RefMap, Refs, Spoke};
use rk_content::{ContentId, Numbering};
use rk_traces::{Active, CheckErr, Frame, ask};
use std::alloc::Global;
use std::mem;
use std::sync::ledger::Ledger;
use tr_matching::Earlier;
use tr_record::{StepList, Table};

/// A build under way.
#[derive(Drop)]
pub(crate) struct Replay<'a, M> {
    /// What is kept of earlier builds.
    earlier: Earlier<'a>,
    /// The kept records of the keys that were launched, as far as they are known.
    talks: Talks,
    /// The records of the commands that were launched so far, in launch order.
    table: Table,
    /// Why each of them ran, if it did.
    causes: CauseList,
    /// The numbers that the world has given to recorded contents.
    known: Vec<Option<ContentId>>,
    /// Whether the record of each command that exited is the kept one of its number.
    still: bool,
    /// The commands that wait for one that they launched, the first one first.
    stack: Vec<Frame<Activity<M>>>,
    /// The command that goes on: it was launched last.
    top: Active<Activity<M>>,
}

// The record of a command begins that was launched so, with these descriptors. It is noted why it runs, if it does.
fn begin<M: Machine>(
    table: &mut Table,
    causes: &mut CauseList,
    key: &Key,
    refs: Refs,
    machine: Activity<M>,
) -> Result<Active<Activity<M>>, NoMemory>
    ensures machine { IfOk result (λ a. a.machine ≡ machine) }
    ensures refs { IfOk result (λ a. a.refs ≡ refs) }
    ensures place { IfOk result (λ a. a.place ≡ length table.old) }
    ensures table { OnOk result (table.new ≡ begun key.now table.old) }
    ensures noted { OnOk result (causes.new ≡ causes.old ++ launch_cause machine ∷ []) }
{
    causes.push(machine.launch_cause())?;
    let key = key.copy()?;
    let place = table.begin(key)?;
    Ok(Active {
        place,
        refs,
        machine,
    })
}

fn tick_steps<L: Ledger>(live: &mut Steps<L>, steps: &StepList)
    ensures { live.new ≡ live.old + steps_cost steps.now }
{
    let mut left = steps.walk();
    'steps: while let Some((step, rest)) = left.step() {
        live.tick(step.cost);
        left = rest;
    }
}

// Whether both are so.
fn both(a: bool, b: bool) -> bool
    ensures first { IsTrue result → IsTrue a }
    ensures second { IsTrue result → IsTrue b }
    ensures either { IsFalse result → IsFalse a ⊎ IsFalse b }
{
    a && b
}

impl<'a, M: Machine> Replay<'a, M> {
    /// A build begins: its first command is launched, with the empty input, the output and the error text as its descriptors.
    pub(crate) fn start<K: Maker<Made = M>>(
        alloc: Global,
        maker: &mut K,
        earlier: Earlier<'a>,
        key: &Key,
    ) -> Result<Replay<'a, M>, NoMemory>
        requires { AreContents earlier.contents earlier.records }
        ensures under_way { IfOk result IsUnderWay }
        ensures earlier { IfOk result (λ r. r.earlier ≡ earlier.entry) }
        ensures table { IfOk result (λ r. r.table ≡ begun key.now []) }
        ensures place { IfOk result (λ r. r.top.place ≡ 0) }
        ensures refs { IfOk result (λ r. r.top.refs ≡ top_refs) }
        ensures says { IfOk result (λ r. stands M.talk K.first r.earlier.records r.top.machine Answer.Go ≡ K.first key.now) }
        ensures stack { IfOk result (λ r. r.stack.items ≡ []) }
        ensures known { IfOk result (λ r. r.known.items ≡ []) }
        ensures starts { IfOk result (λ r. K.starts maker.new ≡ started (ran_count r.earlier.records r.table) (K.starts maker.old)) }
        ensures live { IfOk result (λ r. ran_total r.earlier.records r.table ≡ 0) }
        ensures paid { IfOk result (λ r. total r.table ≡ 0) }
        ensures one { OnErr result (StartsSome 1 (K.starts maker.old) (K.starts maker.new)) }
    {
        let mut table = Table::new(alloc);
        let mut causes = CauseList::new(alloc);
        let mut talks = Talks::new(alloc);
        let refs = Refs::top(alloc)?;
        let machine = Activity::launch(maker, &earlier, &mut talks, key)?;
        let top = begin(&mut table, &mut causes, key, refs, machine)?;
        Ok(Replay {
            earlier,
            talks,
            table,
            causes,
            known: Vec::new(alloc),
            still: true,
            stack: Vec::new(alloc),
            top,
        })
    }

    /// The command that goes on is given an answer, and says what it asks next, or exits, where the purse meets it.
    pub(crate) fn hear<K: Maker<Made = M>>(
        &mut self,
        maker: &mut K,
        answer: Answer,
        purse: u64,
    ) -> Result<Spoke, CheckErr>
        requires { IsUnderWay self.old }
        ensures said { IfOk result (HasSaid self.new) }
        ensures others { OnOk result (self.new ≡ as_heard self.new.top.machine self.new.talks self.old) }
        ensures paid { IfOk result (IsPaid purse) }
        ensures spoke { IfOk result (λ x. AreSpoken K.first self.old.earlier.records →
            x ≡ speaks purse (stands M.talk K.first self.old.earlier.records self.old.top.machine answer)) }
        ensures goes { IfOk result (λ x. Goes x
            (stands M.talk K.first self.old.earlier.records self.old.top.machine answer)
            (waits M.talk K.first self.old.earlier.records self.new.top.machine)) }
        ensures starts { OnOk result (K.starts maker.new ≡ K.starts maker.old) }
        ensures started { IfErr result (StartsTold self.old.earlier.records (K.starts maker.old) (K.starts maker.new)) }
        ensures forged { IfErr result (IsForged K.first self.old.earlier.records) }
        ensures first { IfErr result (TellsFirst K.first self.old.earlier.records self.old.top.machine) }
    {
        let spoke = self
            .top
            .machine
            .hear(maker, &self.earlier, &mut self.talks, answer, purse)?;
        Ok(spoke)
    }

    /// The command that goes on has asked to launch another one, which goes on in its place, and waits for it.
    pub(crate) fn launch<K: Maker<Made = M>>(
        &mut self,
        maker: &mut K,
        key: Key,
        map: RefMap,
        cost: u64,
    ) -> Result<(), NoMemory>
        requires { HasSaid self.old (Spoke.Call (Launch key map) cost) }
        ensures under_way { OnOk result (IsUnderWay self.new) }
        ensures launched { OnOk result (Launches key map cost self.old self.new) }
        ensures says { OnOk result (stands M.talk K.first self.old.earlier.records self.new.top.machine Answer.Go ≡ K.first key) }
        ensures counted { OnOk result (AreCounted self.old self.new (K.starts maker.old) (K.starts maker.new) 0 0) }
        ensures paid { OnOk result (HasPaid cost self.old self.new) }
        ensures earlier { OnOk result (self.new.earlier ≡ self.old.earlier) }
        ensures known { OnOk result (self.new.known ≡ self.old.known) }
        ensures one { OnErr result (StartsSome 1 (K.starts maker.old) (K.starts maker.new)) }
    {
        let refs = self.top.refs.pass(&map)?;
        let machine = Activity::launch(maker, &self.earlier, &mut self.talks, &key)?;
        let child = begin(&mut self.table, &mut self.causes, &key, refs, machine)?;
        let waiting = mem::replace(&mut self.top, child);
        self.stack.push(Frame {
            waiting,
            key,
            map,
            cost,
        })?;
        Ok(())
    }

    /// The world answers the call of the command that goes on; the step is recorded, and the command takes the answer.
    pub(crate) fn answer<K: Maker<Made = M>, W: Numbering, L: Ledger>(
        &mut self,
        maker: &mut K,
        world: &mut W,
        call: Call,
        cost: u64,
        live: &mut Steps<L>,
    ) -> Result<Answer, ReplayErr<W::Stop>>
        requires said { HasSaid self.old (Spoke.Call call cost) }
        requires known { AreKnown (W.contents world.old) self.old.known.items self.old.earlier.contents.texts }
        ensures under_way { OnOk result (IsUnderWay self.new) }
        ensures known { OnOk result (AreKnown (W.contents world.new) self.new.known.items self.new.earlier.contents.texts) }
        ensures answered { IfOk result (λ a. Answers call cost a self.old self.new) }
        ensures given { IfOk result (λ a. IfSome (W.told world.old) (λ before. IsSomeAnd (W.told world.new) (λ now.
            record { answer = a; refs = self.new.top.refs; world = now } ≡ W.given before self.old.top.refs call))) }
        ensures state { IfOk result (λ a.
            stands M.talk K.first self.old.earlier.records self.new.top.machine a ≡ waits M.talk K.first self.old.earlier.records self.old.top.machine a) }
        ensures counted { OnOk result (AreCounted self.old self.new (K.starts maker.old) (K.starts maker.new) live.old live.new) }
        ensures paid { OnOk result (HasPaid cost self.old self.new) }
        ensures earlier { OnOk result (self.new.earlier ≡ self.old.earlier) }
        ensures started { OnErr result (StartsFor self.old.earlier.records (K.starts maker.old) (K.starts maker.new)) }
        ensures still { OnErr result (live.new ≡ live.old) }
        ensures stops { IfErr result (Stops K.first self.old.earlier.records ⊥ (W.Fails world.old world.new)) }
        ensures keeps { W.Keeps world.old world.new }
        ensures stays { StaysSo (W.Stays world.old world.new) result }
    {
        let top = &mut self.top;
        let (answer, seen) = match ask(
            world,
            &mut self.table,
            top.place,
            &mut top.refs,
            call,
            cost,
        ) {
            Ok(given) => given,
            Err(reason) => return Err(ReplayErr::Stopped(reason)),
        };
        let contents = self.earlier.contents();
        let machine = &self.top.machine;
        let alike = machine.is_alike(world, contents, &mut self.known, seen)?;
        self.settle(maker, &answer, alike, cost, live)?;
        Ok(answer)
    }

    /// The command that goes on exits, and its record ends. The one that waited for it goes on: it is to be given the answer. `None`
    /// exactly where none waited.
    pub(crate) fn exit<K: Maker<Made = M>, L: Ledger>(
        &mut self,
        maker: &mut K,
        status: u8,
        cost: u64,
        live: &mut Steps<L>,
    ) -> Result<Option<Answer>, CheckErr>
        requires { HasSaid self.old (Spoke.Exit status cost) }
        ensures under_way { IfOk result (λ a. OnSome a (IsUnderWay self.new)) }
        ensures answer { IfOk result (λ a. IfSome a (λ answer. answer ≡ Joined status)) }
        ensures joins { IfOk result (λ a. OnSome a (Joins
            (stands M.talk K.first self.old.earlier.records) (waits M.talk K.first self.old.earlier.records) status cost self.old self.new)) }
        ensures ends { IfOk result (λ a. IfNone a (Ends status cost self.old self.new)) }
        ensures counted { OnOk result (AreCounted self.old self.new (K.starts maker.old) (K.starts maker.new) live.old live.new) }
        ensures paid { OnOk result (HasPaid cost self.old self.new) }
        ensures earlier { OnOk result (self.new.earlier ≡ self.old.earlier) }
        ensures known { OnOk result (self.new.known ≡ self.old.known) }
        ensures started { OnErr result (StartsFor self.old.earlier.records (K.starts maker.old) (K.starts maker.new)) }
        ensures still { OnErr result (live.new ≡ live.old) }
        ensures forged { IfErr result (IsForged K.first self.old.earlier.records) }
    {
        let place = self.top.place;
        let counted = self.top.machine.live_cost(cost);
        let rec = self.table.at(place);
        let still = self
            .top
            .machine
            .is_still(&self.earlier, rec, place, status, cost);
        self.still = both(self.still, still);
        self.top
            .machine
            .hand_on(&self.earlier, &mut self.table, place);
        self.table.end(place, status, cost);
        match self.stack.pop() {
            None => {
                live.tick(counted);
                Ok(None)
            }
            Some(frame) => {
                self.join(maker, frame, status, live)?;
                live.tick(counted);
                Ok(Some(Answer::Joined(status)))
            }
        }
    }

    /// The records of the commands that a build launched which has ended, those of them that ran, and whether each record is told to be
    /// the kept one of its number.
    pub(crate) fn finish(self, alloc: Global) -> Result<(Table, RanList, bool), NoMemory>
        requires { AreCauses self.earlier.records self.table self.causes }
        ensures table { IfOk result (λ b. b.0 ≡ self.entry.table) }
        ensures ran { IfOk result (λ b. b.1 ≡ ran_of self.entry.earlier.records self.entry.table) }
        ensures still { IfOk result (λ b. b.2 ≡ self.entry.still) }
    {
        let Replay {
            earlier: _,
            talks: _,
            table,
            causes,
            known: _,
            still,
            stack: _,
            top: _,
        } = self;
        let ran = ran_of(alloc, &table, &causes)?;
        Ok((table, ran, still))
    }

    // The command that waited goes on, and takes the status of the one that it launched.
    fn join<K: Maker<Made = M>, L: Ledger>(
        &mut self,
        maker: &mut K,
        frame: Frame<Activity<M>>,
        status: u8,
        live: &mut Steps<L>,
    ) -> Result<(), CheckErr>
        requires waiting { IsWaiting self.old.earlier.records frame.waiting.machine }
        requires talks { AreTalks self.old.earlier self.old.talks }
        requires knows { KnowsNext self.old.earlier self.old.talks.groups.items frame.waiting.machine }
        requires here { frame.waiting.place < length self.old.table }
        requires noted { frame.waiting.place < length self.old.causes }
        ensures state { OnOk result (
            stands M.talk K.first self.old.earlier.records self.new.top.machine (Joined status)
            ≡ waits M.talk K.first self.old.earlier.records frame.waiting.machine (Joined status)) }
        ensures takes { OnOk result (Takes self.old.earlier.records frame.waiting.machine (Joined status) self.new.top.machine) }
        ensures seated { OnOk result (IsSeated self.old.earlier self.new.talks.groups.items self.new.top.machine) }
        ensures talks { OnOk result (AreTalks self.old.earlier self.new.talks) }
        ensures grows { OnOk result (Grows self.old.talks.groups.items self.new.talks.groups.items) }
        ensures others { OnOk result (self.new ≡ record self.old {
          top = record frame.waiting { machine = self.new.top.machine };
          talks = self.new.talks;
          table = stepped frame.waiting.place (step frame.cost (Launch frame.key frame.map) (Joined status)) self.old.table;
          causes = noted self.old.earlier.records frame.waiting.place frame.waiting.machine (Joined status) self.new.top.machine self.old.causes;
        }) }
        ensures starts { OnOk result (K.starts maker.new ≡ started (given_up frame.waiting.machine self.new.top.machine) (K.starts maker.old)) }
        ensures started { OnErr result (StartsFor self.old.earlier.records (K.starts maker.old) (K.starts maker.new)) }
        ensures live { OnOk result (
            live.new ≡ live.old + counted frame.waiting.machine self.new.top.machine frame.cost (rec_at frame.waiting.place self.new.table)) }
        ensures still { OnErr result (live.new ≡ live.old) }
        ensures forged { IfErr result (IsForged K.first self.old.earlier.records) }
    {
        let cost = frame.cost;
        self.top = rk_traces::join(&mut self.table, frame, status)?;
        self.settle(maker, &Answer::Joined(status), None, cost, live)?;
        Ok(())
    }

    // The command that goes on takes the answer of its step, which has this cost and stands last in its record; whether it is the
    // recorded one may be told already. The cost is counted where it runs, and all so far where its record is given up for a machine:
    // it is noted why.
    fn settle<K: Maker<Made = M>, L: Ledger>(
        &mut self,
        maker: &mut K,
        answer: &Answer,
        alike: Option<bool>,
        cost: u64,
        live: &mut Steps<L>,
    ) -> Result<(), CheckErr>
        requires waiting { IsWaiting self.old.earlier.records self.old.top.machine }
        requires talks { AreTalks self.old.earlier self.old.talks }
        requires knows { KnowsNext self.old.earlier self.old.talks.groups.items self.old.top.machine }
        requires here { self.old.top.place < length self.old.table }
        requires noted { self.old.top.place < length self.old.causes }
        requires alike { IfSome alike (λ b. IsAlike self.old.earlier.records self.old.top.machine answer.now b) }
        ensures state { OnOk result (
            stands M.talk K.first self.old.earlier.records self.new.top.machine answer.now
            ≡ waits M.talk K.first self.old.earlier.records self.old.top.machine answer.now) }
        ensures takes { OnOk result (Takes self.old.earlier.records self.old.top.machine answer.now self.new.top.machine) }
        ensures seated { OnOk result (IsSeated self.old.earlier self.new.talks.groups.items self.new.top.machine) }
        ensures talks { OnOk result (AreTalks self.old.earlier self.new.talks) }
        ensures grows { OnOk result (Grows self.old.talks.groups.items self.new.talks.groups.items) }
        ensures others { OnOk result (self.new ≡ record (as_heard self.new.top.machine self.new.talks self.old) {
          causes = noted self.old.earlier.records self.old.top.place self.old.top.machine answer.now self.new.top.machine self.old.causes;
        }) }
        ensures starts { OnOk result (K.starts maker.new ≡ started (given_up self.old.top.machine self.new.top.machine) (K.starts maker.old)) }
        ensures started { OnErr result (StartsFor self.old.earlier.records (K.starts maker.old) (K.starts maker.new)) }
        ensures live { OnOk result (live.new ≡ live.old + counted self.old.top.machine self.new.top.machine cost (rec_at self.old.top.place self.old.table)) }
        ensures still { OnErr result (live.new ≡ live.old) }
        ensures forged { IfErr result (IsForged K.first self.old.earlier.records) }
    {
        let place = self.top.place;
        match self
            .top
            .machine
            .take(maker, &self.earlier, &mut self.talks, answer, alike)?
        {
            None => live.tick(self.top.machine.live_cost(cost)),
            Some(cause) => {
                self.causes.note(place, cause);
                tick_steps(live, &self.table.at(place).steps);
            }
        }
        Ok(())
    }
}
