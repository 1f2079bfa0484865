// Steps of recorded runs, and the plan of each.
use rk_base::NoMemory;
use rk_calls::{Answer, Answerer, Call, Refs};
use rk_kernel::World;
use rk_plan::{PlanErr, waves};
use rk_steps::{Fetches, Subject, answer_shown, behind, call_of, key_of, number, plain, text};
use rk_tree::Tree;
use rk_waves::Waves;
use std::alloc::Global;
use std::collections::BTreeSet;
use tr_record::{Step, Table};

/// The world in which what stands at the start is made, and the records so far.
#[derive(Drop)]
pub(crate) struct Planned {
    alloc: Global,
    made: World,
    refs: Refs,
    fetches: Fetches,
    table: Table,
}

fn commands_shown(alloc: Global, commands: &BTreeSet<usize>) -> Result<String, NoMemory> {
    let mut text = String::new(alloc);
    'commands: for command in commands {
        let one = format!(in alloc; " {command}")?;
        text.push_str(one.as_str())?;
    }
    Ok(text)
}

// The commands of each wave, how many waves there are, and how many commands the widest has.
fn plan_shown(alloc: Global, waves: &Waves) -> Result<String, NoMemory> {
    let mut text = String::new(alloc);
    let mut widest = 0;
    'waves: for k in 0..waves.len() {
        if let Some(commands) = waves.commands(k) {
            widest = commands.len().max(widest);
            let all = commands_shown(alloc, commands)?;
            let line = format!(in alloc; "{}:{}; ", k.saturating_add(1), all.as_str())?;
            text.push_str(line.as_str())?;
        }
    }
    let last = format!(in alloc; "waves {}, widest {widest}", waves.len())?;
    text.push_str(last.as_str())?;
    Ok(text)
}

impl Planned {
    pub(crate) fn new(alloc: Global) -> Result<Planned, NoMemory> {
        Ok(Planned {
            alloc,
            made: World::new(alloc, Tree::new(alloc)?)?,
            refs: Refs::top(alloc)?,
            fetches: Fetches::new(alloc),
            table: Table::new(alloc),
        })
    }

    // Something is made that stands at the start.
    fn make(&mut self, words: &[Vec<u8>]) -> Result<String, NoMemory> {
        let Some(call) = call_of(self.alloc, words)? else {
            return plain(self.alloc, "unknown call");
        };
        let answer = self.made.answer(&mut self.refs, &call)?;
        answer_shown(self.alloc, &answer)
    }

    // The record of a command that is launched next.
    fn record(&mut self, words: &[Vec<u8>]) -> Result<String, NoMemory> {
        match key_of(self.alloc, words)? {
            Some(key) => {
                let number = self.table.begin(key)?;
                let text = format!(in self.alloc; "record {number}")?;
                Ok(text)
            }
            None => plain(self.alloc, "no key"),
        }
    }

    fn add(&mut self, record: usize, call: Call) -> Result<(), NoMemory> {
        if record < self.table.len() {
            let step = Step {
                cost: 1,
                call,
                answer: Answer::Go,
            };
            self.table.add_step(record, step)?;
        }
        Ok(())
    }

    // The next step of a record. What it was answered doesn't matter to a plan.
    fn ask(&mut self, words: &[Vec<u8>]) -> Result<String, NoMemory> {
        match call_of(self.alloc, behind(words))? {
            Some(call) => {
                self.add(number(words, 0) as usize, call)?;
                plain(self.alloc, "asked")
            }
            None => plain(self.alloc, "unknown call"),
        }
    }

    fn plan(&mut self) -> Result<String, NoMemory> {
        let tree = Tree::of_snapshot(self.alloc, &self.made.snapshot()?)?;
        let world = World::new(self.alloc, tree)?;
        match waves(self.alloc, world, &mut self.fetches, &self.table) {
            Ok(waves) => plan_shown(self.alloc, &waves),
            Err(PlanErr::ReadFault) => plain(self.alloc, "read fault"),
            Err(PlanErr::NoMemory) => Err(NoMemory),
        }
    }
}

impl Subject for Planned {
    fn fresh(&mut self) -> Result<(), NoMemory> {
        *self = Planned::new(self.alloc)?;
        Ok(())
    }

    fn step(&mut self, words: &[Vec<u8>]) -> Result<String, NoMemory> {
        match text(words, 0) {
            "make" => self.make(behind(words)),
            "record" => self.record(behind(words)),
            "ask" => self.ask(behind(words)),
            "plan" => self.plan(),
            _ => plain(self.alloc, "unknown step"),
        }
    }
}
