// Lists of steps.
ghost use Rattle.std.specs.Prelude.{◌≡◌, ◌++◌, ◌∷◌, ◌<◌, ◌≤◌, ◌^◌, [], IfOk, OnOk, OnErr, length};
ghost use Rattle.tr_record.specs.Costs.{steps_cost};
ghost use Rattle.tr_record.specs.Pool.{steps_under};

use crate::Step;
use crate::pool::StepPool;
use crate::walk::Walk;
use rk_base::NoMemory;
use std::alloc::Global;
use std::marker::Model;
use std::rc::Rc;

// Steps of its own while they are written; or those of a number, of nodes that other lists have too.
#[derive(Debug, Drop)]
enum Storage {
    Own(Vec<Step>),
    Shared(Rc<StepPool>, usize),
}

/// The steps of a command, in order.
#[derive(Debug, Drop)]
pub struct StepList {
    storage: Storage,
}

impl Model for StepList {
    ghost use Rattle.std.specs.Prelude.{List};
    ghost use Rattle.tr_record.specs.Lists.{steps_of, IsWithin};
    ghost use Rattle.tr_record.specs.declared.steps.Step.{Step};

    ghost Value = { List Step };

    ghost view = { λ s. steps_of s.storage };

    ghost invariant = { λ s. IsWithin s.storage };
}

impl Storage {
    // The allocator of the steps.
    fn allocator(&self) -> Global {
        match self {
            Storage::Own(steps) => *steps.allocator(),
            Storage::Shared(pool, _) => pool.allocator(),
        }
    }
}

// What steps cost together.
fn sum(steps: &[Step]) -> u64
    requires { steps_cost steps.now < 2 ^ 64 }
    ensures { result ≡ steps_cost steps.now }
{
    let mut total: u64 = 0;
    for step in steps {
        total += step.cost;
    }
    total
}

// Copies of steps, in their order.
fn copies(steps: &StepList) -> Result<Vec<Step>, NoMemory>
    ensures { IfOk result (λ v. v.items ≡ steps.now) }
{
    let mut all = Vec::new(steps.storage.allocator());
    let mut left = steps.walk();
    'steps: while let Some((step, rest)) = left.step() {
        all.push(step.copy()?)?;
        left = rest;
    }
    Ok(all)
}

impl StepList {
    /// No steps.
    pub fn new(alloc: Global) -> StepList
        ensures { result ≡ [] }
    {
        StepList {
            storage: Storage::Own(Vec::new(alloc)),
        }
    }

    /// The steps of a number of these nodes. It takes no memory for the steps.
    pub fn shared(pool: &Rc<StepPool>, head: usize) -> Result<StepList, NoMemory>
        requires { head ≤ length pool.now.value.nodes }
        ensures { IfOk result (λ list. list ≡ steps_under pool.now.value.nodes head) }
    {
        let pool = pool.clone()?;
        Ok(StepList {
            storage: Storage::Shared(pool, head),
        })
    }

    /// How many steps there are.
    pub fn len(&self) -> usize
        ensures value { result ≡ length self.now }
        ensures small { result < 2 ^ 63 }
    {
        match &self.storage {
            Storage::Own(steps) => steps.len(),
            Storage::Shared(pool, head) => pool.count(*head),
        }
    }

    /// The steps, to be gone through.
    pub fn walk(&self) -> Walk<'_>
        ensures { result ≡ self.now }
    {
        match &self.storage {
            Storage::Own(steps) => Walk::own(steps.as_slice()),
            Storage::Shared(pool, head) => Walk::shared(pool.as_ref(), *head),
        }
    }

    /// One step more, at the end. A list that shares its steps is copied first.
    pub fn push(&mut self, step: Step) -> Result<(), NoMemory>
        ensures ok { OnOk result (self.new ≡ self.old ++ step ∷ []) }
        ensures err { OnErr result (self.new ≡ self.old) }
    {
        if let Storage::Own(steps) = &mut self.storage {
            steps.push(step)?;
            return Ok(());
        }
        let mut steps = copies(self)?;
        steps.push(step)?;
        self.storage = Storage::Own(steps);
        Ok(())
    }

    /// A list of the same steps: it shares those that this one shares, and copies those that are its own.
    pub fn share(&self) -> Result<StepList, NoMemory>
        ensures { IfOk result (λ list. list ≡ self.now) }
    {
        match &self.storage {
            Storage::Own(_) => {
                let steps = copies(self)?;
                Ok(StepList {
                    storage: Storage::Own(steps),
                })
            }
            Storage::Shared(pool, head) => StepList::shared(pool, *head),
        }
    }

    /// What the steps cost together, in turns. Of shared ones it takes no time that grows with them.
    pub fn paid(&self) -> u64
        requires { steps_cost self.now < 2 ^ 64 }
        ensures { result ≡ steps_cost self.now }
    {
        match &self.storage {
            Storage::Own(steps) => sum(steps.as_slice()),
            Storage::Shared(pool, head) => pool.paid(*head),
        }
    }
}
