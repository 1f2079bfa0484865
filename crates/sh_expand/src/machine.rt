// The machine that expands the parts of a word.
ghost use Rattle.std.specs.Prelude.{◌≡◌, ◌++◌, ◌∷◌, [], ℕ, IfOk, OnOk, Bool, true, false};
ghost use Rattle.sh_ast.specs.Words.{parts};
ghost use Rattle.sh_vars.specs.declared.env.Env.{Env};
ghost use Rattle.sh_expand.specs.Expands.{Body, Ended, Failed, manner_of, expand};
ghost use Rattle.sh_expand.specs.Machine.{says, after_wants, ActedOn, EndsAs, Advances, Runs, IsNoBody, IsDue, bodies_at};

use crate::acts::{Acted, Then, leave};
use crate::answers::put_captured;
use crate::parts::{act, share};
use rk_base::{Bytes, NoMemory};
use rk_calls::Answer;
use sh_ast::Parts;
use sh_split::{Field, Mark};
use sh_vars::Env;
use std::alloc::Global;
use std::mem;
use std::rc::Rc;

/// A word, or a word within a word: its parts with the place of the next one, whether it is an operator's word, and
/// whether fields are split.
#[derive(Drop)]
pub struct Level {
    pub(crate) parts: Rc<Parts>,
    pub(crate) place: usize,
    pub(crate) inner: bool,
    pub(crate) splits: bool,
}

/// A word whose part is a word that is being expanded, and what happens when that one ends.
#[derive(Drop)]
pub struct Frame {
    pub(crate) level: Level,
    pub(crate) then: Then,
}

/// Where the machine stands.
#[derive(Drop)]
pub enum Stage {
    /// Before the next part.
    Before,
    /// A substitution's pipe was asked: its number, whether it is quoted, and the pipe's read end.
    Piped(u64, bool, u64),
    /// Its body is evaluated.
    Evaluates(bool, u64),
    /// Its pipe is read.
    Reads(bool),
}

/// The parts of a word, half expanded.
#[derive(Drop)]
pub struct Machine {
    pub(crate) alloc: Global,
    pub(crate) level: Level,
    pub(crate) marks: Vec<Mark>,
    pub(crate) stack: Vec<Frame>,
    pub(crate) stage: Stage,
}

/// What the machine wants.
#[derive(Drop)]
pub enum Wants {
    /// A pipe, which costs one turn beside the substitution's own.
    Pipe,
    /// What there is to read at this number, at the cost of one turn.
    Read(u64),
    /// The body of this number is to be evaluated.
    Evaluate(u64),
    Done(Field),
    /// A parameter and a message.
    Fault(Bytes, Bytes),
}

// The word that is expanded from here on is an operator's.
fn enter(x: &mut Machine, inner: Rc<Parts>, splits: bool, then: Then) -> Result<(), NoMemory>
    ensures level { OnOk result (x.new.level ≡ record { parts = inner; place = 0; inner = true; splits = splits }) }
    ensures marks { OnOk result (x.new.marks.items ≡ x.old.marks.items) }
    ensures stack { OnOk result (x.new.stack.items ≡ x.old.stack.items ++ (record { level = x.old.level; then = then }) ∷ []) }
{
    let level = Level {
        parts: inner,
        place: 0,
        inner: true,
        splits,
    };
    let outer = mem::replace(&mut x.level, level);
    x.stack.push(Frame { level: outer, then })?;
    Ok(())
}

// After a part has acted.
fn on_acted(x: &mut Machine, acted: Acted, env: &Env) -> Result<Option<Wants>, NoMemory>
    ensures { IfOk result (ActedOn x.old acted env.now x.new) }
{
    match acted {
        Acted::Put => Ok(None),
        Acted::Enter(inner, splits, then) => {
            enter(x, inner, splits, then)?;
            Ok(None)
        }
        Acted::Subst(quoted, n) => {
            x.stage = Stage::Piped(n, quoted, env.next);
            Ok(Some(Wants::Pipe))
        }
        Acted::Fault(parameter, message) => Ok(Some(Wants::Fault(parameter, message))),
    }
}

// After the last part of a word.
fn on_end(x: &mut Machine, env: &mut Env) -> Result<Option<Wants>, NoMemory>
    ensures { IfOk result (EndsAs x.old env.old x.new env.new) }
{
    let alloc = x.alloc;
    match x.stack.pop() {
        None => {
            let marks = mem::replace(&mut x.marks, Vec::new(alloc));
            Ok(Some(Wants::Done(Field::new(marks))))
        }
        Some(frame) => {
            let Frame { level, then } = frame;
            let left = leave(alloc, then, &mut x.marks, env)?;
            x.level = level;
            match left {
                None => Ok(None),
                Some((parameter, message)) => Ok(Some(Wants::Fault(parameter, message))),
            }
        }
    }
}

// One part, or the end of a word.
fn advance(x: &mut Machine, env: &mut Env) -> Result<Option<Wants>, NoMemory>
    ensures { IfOk result (Advances x.old env.old x.new env.new) }
{
    let word = share(&x.level.parts)?;
    match word.get(x.level.place) {
        None => {
            let wants = on_end(x, env)?;
            Ok(wants)
        }
        Some(part) => {
            let acted = act(
                x.alloc,
                env,
                x.level.inner,
                x.level.splits,
                part,
                &mut x.marks,
            )?;
            x.level.place += 1;
            let wants = on_acted(x, acted, env)?;
            Ok(wants)
        }
    }
}

// Goes on to the next call, body or end.
fn run(x: &mut Machine, env: &mut Env) -> Result<Wants, NoMemory>
    ensures talk { IfOk result (λ t. Runs x.old env.old x.new env.new t) }
    ensures no_body { IfOk result IsNoBody }
{
    'parts: loop {
        match advance(x, env)? {
            None => {}
            Some(wants) => return Ok(wants),
        }
    }
}

impl Machine {
    /// The parts of a word, whose fields are split or not.
    pub(crate) fn start(alloc: Global, word: Rc<Parts>, splits: bool) -> Machine
        ensures { (body : ℕ → Body) (k : Ended) (fail : Failed) (e : Env) (p : ℕ) → says result Answer.Go body k fail e p ≡ expand (manner_of body false splits) (parts word.value) [] k fail e p }
    {
        Machine {
            alloc,
            level: Level {
                parts: word,
                place: 0,
                inner: false,
                splits,
            },
            marks: Vec::new(alloc),
            stack: Vec::new(alloc),
            stage: Stage::Before,
        }
    }

    /// What it wants next, in this state. It is resumed first with `Go`, after `Ask` with the call's answer, after
    /// `Evaluate` with `Go` once that body was evaluated, and after `Done` and `Fault` not again.
    pub(crate) fn resume(&mut self, env: &mut Env, answer: Answer) -> Result<Wants, NoMemory>
        ensures talk { IfOk result (λ t. (body : ℕ → Body) (k : Ended) (fail : Failed) (p : ℕ) → says self.old answer body k fail env.old p ≡ after_wants t self.new body k fail env.new p) }
        ensures due { IfOk result (λ t. IsDue (bodies_at self.old.stage) t (bodies_at self.new.stage)) }
    {
        let stage = mem::replace(&mut self.stage, Stage::Before);
        match stage {
            Stage::Before => {
                let wants = run(self, env)?;
                Ok(wants)
            }
            Stage::Piped(n, quoted, from) => {
                self.stage = Stage::Evaluates(quoted, from);
                Ok(Wants::Evaluate(n))
            }
            Stage::Evaluates(quoted, from) => {
                self.stage = Stage::Reads(quoted);
                Ok(Wants::Read(from))
            }
            Stage::Reads(quoted) => {
                env.substituted = true;
                put_captured(quoted, answer, &mut self.marks)?;
                let wants = run(self, env)?;
                Ok(wants)
            }
        }
    }
}
