// A recorded run, gone through once more.
ghost use Rattle.std.specs.Prelude.{◌≡◌, ◌∷◌, ◌+◌, ◌<◌, ◌≤◌, [], IfOk, IfNone, IfSome, OnOk, slice_get};
ghost use Rattle.rk_calls.specs.Refs.{passed_refs};
ghost use Rattle.rk_kernel.specs.Causes as kernel;
ghost use Rattle.rk_tree.specs.Full.{AreFrom};
ghost use Rattle.rk_plan.specs.Causes.{Caused, Steadily};
ghost use Rattle.rk_plan.specs.Going.{IsGivenWhereTold, Turns, in_full, left_in, resumed};
ghost use Rattle.rk_plan.specs.Retracing.{called, launched, start};

use crate::{Event, PlanErr};
use rk_base::NoMemory;
use rk_calls::{Call, RefMap, Refs};
use rk_kernel::{AnswerErr, NumberedWorld, World};
use rk_tree::Fetch;
use std::alloc::Global;
use std::marker::Model;
use tr_record::{Table, Walk};

// A command under way, with the steps that are left of its record.
#[derive(Drop)]
pub(crate) struct Command<'a> {
    owner: usize,
    refs: Refs,
    left: Walk<'a>,
}

impl<'a> Model for Command<'a> {
    ghost use Rattle.rk_plan.specs.Retracing.{Command};

    ghost Value = { Command };

    ghost view = { λ c. record { owner = c.owner; refs = c.refs; left = c.left } };
}

// The commands under way, of which the last one was launched last, how many were launched, and the world.
#[derive(Drop)]
pub(crate) struct Retrace<'a> {
    table: &'a Table,
    under_way: Vec<Command<'a>>,
    begun: usize,
    world: NumberedWorld,
}

impl<'a> Model for Retrace<'a> {
    ghost use Rattle.std.specs.Prelude.{reverse};
    ghost use Rattle.rk_plan.specs.Going.{Going};

    ghost Value = { Going };

    ghost use Rattle.std.specs.Coded.{codes};
    ghost use Rattle.rk_tree.specs.Hierarchy.{hierarchy_code};

    ghost coded = { Prim.hlevel (codes, hierarchy_code) };

    ghost view = { λ r. record { table = r.table.now; course = record { under_way = reverse r.under_way.items; begun = r.begun; world = r.world.world } } };
}

// The world answers a call. What it answers is known: it stands in the record.
fn answer<G: Fetch>(
    world: &mut NumberedWorld,
    fetch: &mut G,
    refs: &mut Refs,
    call: &Call,
) -> Result<(), AnswerErr>
    requires { AreFrom (G.told fetch.old) world.old.world.tree }
    ensures given { OnOk result (IsGivenWhereTold (G.told fetch.old) world.old.world refs.old call.now refs.new world.new.world) }
    ensures from { OnOk result (AreFrom (G.told fetch.new) world.new.world.tree) }
    ensures told { G.told fetch.new ≡ G.told fetch.old }
    ensures keeps { G.Keeps fetch.old fetch.new }
    ensures stays { OnOk result (G.Stays fetch.old fetch.new) }
    ensures steady { kernel.Steadily (G.steady fetch.old) (G.steady fetch.new) result }
    ensures caused { kernel.Caused (G.faults fetch.old) (G.faults fetch.new) result }
{
    let _ = world.answer_fetched(fetch, refs, call)?;
    Ok(())
}

impl<'a> Retrace<'a> {
    // From the start: the command of the first record, if there is one.
    pub(crate) fn new(
        alloc: Global,
        world: World,
        table: &'a Table,
    ) -> Result<Retrace<'a>, NoMemory>
        ensures { IfOk result (λ r. r ≡ record { table = table.now; course = start world table.now }) }
    {
        let mut retrace = Retrace {
            table,
            under_way: Vec::new(alloc),
            begun: 0,
            world: NumberedWorld::of(alloc, world),
        };
        if let Some(record) = table.get(0) {
            retrace.under_way.push(Command {
                owner: 0,
                refs: Refs::top(alloc)?,
                left: record.steps.walk(),
            })?;
            retrace.begun = 1;
        }
        Ok(retrace)
    }

    // A command goes on.
    fn resume(&mut self, command: Command<'a>) -> Result<(), NoMemory>
        ensures resumed { OnOk result (self.new ≡ resumed self.old command.entry) }
        ensures table { self.new.table ≡ self.old.table }
    {
        self.under_way.push(command)?;
        Ok(())
    }

    // A command launches that of the next record.
    fn launch(&mut self, command: Command<'a>, map: &RefMap) -> Result<(), NoMemory>
        ensures launched { OnOk result (self.new.course ≡
            launched self.old.course (command.entry ∷ self.old.course.under_way) (passed_refs command.entry.refs map.now)
            (slice_get self.old.table self.old.course.begun)) }
        ensures left { OnOk result (left_in self.new ≤ 1 + left_in (resumed self.old command.entry)) }
        ensures table { self.new.table ≡ self.old.table }
    {
        let refs = command.refs.pass(map)?;
        self.resume(command)?;
        let table = self.table;
        if self.begun < table.len() {
            let owner = self.begun;
            let left = table.at(owner).steps.walk();
            self.begun += 1;
            self.resume(Command { owner, refs, left })?;
        }
        Ok(())
    }

    // A command asks the world, or launches another one.
    fn call<G: Fetch>(
        &mut self,
        fetch: &mut G,
        mut command: Command<'a>,
        call: &Call,
    ) -> Result<Event, PlanErr>
        requires { AreFrom (G.told fetch.old) self.old.course.world.tree }
        ensures called { IfOk result (λ e. IfSome (G.told fetch.old) (λ told.
            called self.old.table (in_full told self.old.course) command.entry self.old.course.under_way call.now ≡ (e, in_full told self.new.course))) }
        ensures left { IfOk result (λ _. left_in self.new ≤ 1 + left_in (resumed self.old command.entry)) }
        ensures table { self.new.table ≡ self.old.table }
        ensures from { OnOk result (AreFrom (G.told fetch.new) self.new.course.world.tree) }
        ensures told { G.told fetch.new ≡ G.told fetch.old }
        ensures keeps { G.Keeps fetch.old fetch.new }
        ensures stays { OnOk result (G.Stays fetch.old fetch.new) }
        ensures steady { Steadily (G.steady fetch.old) (G.steady fetch.new) result }
        ensures caused { Caused (G.faults fetch.old) (G.faults fetch.new) result }
    {
        let owner = command.owner;
        if let Call::Launch(_, map) = call {
            self.launch(command, map)?;
            return Ok(Event::Launches(owner));
        }
        let foot = self.world.foot(&command.refs, call)?;
        answer(&mut self.world, fetch, &mut command.refs, call)?;
        self.resume(command)?;
        Ok(Event::Touches(owner, foot))
    }

    // What comes next; `None` exactly at the end.
    pub(crate) fn turn<G: Fetch>(&mut self, fetch: &mut G) -> Result<Option<Event>, PlanErr>
        requires { AreFrom (G.told fetch.old) self.old.course.world.tree }
        ensures some { IfOk result (λ o. IfSome o (λ e. Turns (G.told fetch.old) self.old e self.new)) }
        ensures falls { IfOk result (λ o. IfSome o (λ _. left_in self.new < left_in self.old)) }
        ensures none { IfOk result (λ o. IfNone o ((self.new ≡ self.old) × (self.old.course.under_way ≡ []))) }
        ensures table { self.new.table ≡ self.old.table }
        ensures from { OnOk result (AreFrom (G.told fetch.new) self.new.course.world.tree) }
        ensures told { G.told fetch.new ≡ G.told fetch.old }
        ensures keeps { G.Keeps fetch.old fetch.new }
        ensures stays { OnOk result (G.Stays fetch.old fetch.new) }
        ensures steady { Steadily (G.steady fetch.old) (G.steady fetch.new) result }
        ensures caused { Caused (G.faults fetch.old) (G.faults fetch.new) result }
    {
        let Some(mut command) = self.under_way.pop() else {
            return Ok(None);
        };
        match command.left.step() {
            None => Ok(Some(Event::Ends(command.owner))),
            Some((step, rest)) => {
                command.left = rest;
                let event = self.call(fetch, command, &step.call)?;
                Ok(Some(event))
            }
        }
    }
}
