// The machine of file utilities.
ghost use Rattle.std.specs.Prelude.{◌≡◌, ℕ, Bool, ◌++◌, false, IfOk, OnOk};
ghost use Rattle.rk_calls.specs.Costly.{IsCostly};
ghost use Rattle.rk_calls.specs.Talk.{after};
ghost use Rattle.ut_files.specs.Works.{works, next_after, status};
ghost use Rattle.ut_files.specs.Working.{work_of, settled, worker_talk};

use crate::cost::{cost, is_given};
use crate::manner::Manner;
use crate::step::WorkItem;
use crate::task::Task;
use rk_base::NoMemory;
use rk_calls::{Answer, Call, Machine, Turn, turns};
use std::alloc::Global;
use std::collections::VecDeque;

// Puts steps before those that are left.
fn put_before<T: Drop>(
    mut steps: Vec<WorkItem<T>>,
    left: &mut VecDeque<WorkItem<T>>,
) -> Result<(), NoMemory>
    ensures { OnOk result (left.new.items ≡ steps.items ++ left.old.items) }
{
    'steps: while let Some(step) = steps.pop() {
        left.push_front(step)?;
    }
    Ok(())
}

// The number of the next file. So many files that the numbers end are more than memory can hold.
fn count(opens: bool, answer: &Answer, next: &mut u64) -> Result<(), NoMemory>
    ensures { OnOk result (next.new ≡ next_after opens answer.now next.old) }
{
    if !opens {
        return Ok(());
    }
    if !is_given(answer) {
        return Ok(());
    }
    match next.checked_add(1) {
        Some(more) => {
            *next = more;
            Ok(())
        }
        None => Err(NoMemory),
    }
}

// What the answer to a task brings.
fn settle<T: Task>(
    alloc: Global,
    manner: &Manner,
    next: &mut u64,
    left: &mut VecDeque<WorkItem<T>>,
    task: T,
    answer: Answer,
) -> Result<(), NoMemory>
    ensures next { OnOk result (next.new ≡ next_after ((T.rules manner.now).opens task) answer next.old) }
    ensures left { OnOk result (left.new.items ≡ (T.rules manner.now).brings next.old task answer ++ left.old.items) }
{
    let number = *next;
    count(task.opens(), &answer, next)?;
    let steps = task.brings(alloc, manner, number, answer)?;
    put_before(steps, left)
}

// What the answer brings, where a task was asked.
fn settle_asked<T: Task>(
    alloc: Global,
    manner: &Manner,
    next: &mut u64,
    left: &mut VecDeque<WorkItem<T>>,
    asked: Option<T>,
    answer: Answer,
) -> Result<(), NoMemory>
    ensures { OnOk result ((failed : Bool) → settled (T.rules manner.now) asked answer (work_of failed next.old left.old.items) ≡ work_of failed next.new left.new.items) }
{
    match asked {
        None => Ok(()),
        Some(task) => settle(alloc, manner, next, left, task, answer),
    }
}

fn status(failed: bool) -> u8
    ensures { result ≡ status failed }
{
    match failed {
        true => 1,
        false => 0,
    }
}

// Asks the next call, or exits.
fn ask_next<T: Task>(
    alloc: Global,
    manner: &Manner,
    failed: &mut bool,
    left: &mut VecDeque<WorkItem<T>>,
    asked: &mut Option<T>,
) -> Result<Turn, NoMemory>
    ensures talk { IfOk result (λ turn. (next p : ℕ) → works (T.rules manner.now) (work_of failed.old next left.old.items) p ≡ after turn (λ a. works (T.rules manner.now) (settled (T.rules manner.now) asked.new a (work_of failed.new next left.new.items))) p) }
    ensures costly { IfOk result IsCostly }
{
    match left.pop_front() {
        None => {
            *asked = None;
            Ok(Turn::Exit(status(*failed), 0))
        }
        Some(WorkItem::Tell(line)) => {
            *asked = None;
            *failed = true;
            let cost = 1 + turns(line.as_slice());
            Ok(Turn::Ask(Call::Write(2, line), cost))
        }
        Some(WorkItem::Do(task)) => {
            let call = task.call(alloc, manner)?;
            let cost = cost(&call);
            *asked = Some(task);
            Ok(Turn::Ask(call, cost))
        }
    }
}

/// A utility at work: what it has told, and what is left to do.
#[derive(Drop)]
pub struct Worker<T: Task> {
    alloc: Global,
    manner: Manner,
    failed: bool,
    next: u64,
    left: VecDeque<WorkItem<T>>,
    asked: Option<T>,
}

impl<T: Task> Worker<T> {
    /// What does these steps.
    pub fn new(
        alloc: Global,
        manner: Manner,
        steps: Vec<WorkItem<T>>,
    ) -> Result<Worker<T>, NoMemory>
        ensures { IfOk result (λ w. worker_talk T.rules w Answer.Go ≡ works (T.rules manner) (work_of false 10 steps.items)) }
    {
        let mut left = VecDeque::new(alloc);
        put_before(steps, &mut left)?;
        Ok(Worker {
            alloc,
            manner,
            failed: false,
            next: 10,
            left,
            asked: None,
        })
    }
}

impl<T: Task> Machine for Worker<T> {
    ghost use Rattle.ut_files.specs.Working.{worker_talk};

    ghost talk = { worker_talk T.rules };

    fn resume(&mut self, answer: Answer) -> Result<Turn, NoMemory> {
        let asked = self.asked.take();
        settle_asked(
            self.alloc,
            &self.manner,
            &mut self.next,
            &mut self.left,
            asked,
            answer,
        )?;
        ask_next(
            self.alloc,
            &self.manner,
            &mut self.failed,
            &mut self.left,
            &mut self.asked,
        )
    }
}
