// The machine that expands a word.
ghost use Rattle.std.specs.Prelude.{◌≡◌, ◌++◌, [], ℕ, length, IfOk, OnOk};
ghost use Rattle.rk_calls.specs.Turns.{turns};
ghost use Rattle.sh_ast.specs.Commands as tree;
ghost use Rattle.sh_vars.specs.declared.env.Env.{Env};
ghost use Rattle.sh_split.specs.Marks.{kind};
ghost use Rattle.sh_split.specs.Pass.{cut_fields};
ghost use Rattle.sh_expand.specs.declared.mode.Mode.{Mode};
ghost use Rattle.sh_expand.specs.Expands.{Body, Failed};
ghost use Rattle.sh_expand.specs.Fields.{With_fields, ifs};
ghost use Rattle.sh_expand.specs.Means.{With_expanded, all_bytes, splits, finished, pay_fields, expand_in, parts_of};
ghost use Rattle.sh_expand.specs.Machine.{bodies_at};
ghost use Rattle.sh_expand.specs.Turns.{fields_left, all_left, looks, named_talk, at_step, after_step, expander_says, after_turn, IsCostly, Paces, bodies_behind, bodies_due};

use crate::glob::Glob;
use crate::machine::{Machine, Wants};
use crate::mode::{ExpandFault, Expanded, Mode};
use crate::names::{Named, Names, look, next_field};
use crate::parts::share;
use rk_base::{Bytes, NoMemory, WordList};
use rk_calls::{Answer, Call, turns};
use sh_ast::Word;
use sh_split::{Mark, pattern_of, split_fields, text_of};
use sh_vars::Env;
use std::alloc::Global;
use std::mem;

/// Where an expander stands: its parts are expanded, pathnames are looked for, or it has ended.
#[derive(Drop)]
pub enum Phase {
    Parts(Machine),
    /// The pathnames of a field with this text; and the fields of the word.
    Looks(Glob, Bytes, Names),
    Over,
}

/// A word half expanded.
#[derive(Drop)]
pub struct Expander {
    pub(crate) alloc: Global,
    pub(crate) mode: Mode,
    pub(crate) step: Phase,
}

/// What an expander wants; the number of each is what is paid with it, in turns.
#[derive(Drop)]
pub enum Expanding {
    /// This call is to be answered.
    Ask(Call, u64),
    /// It is to be resumed.
    More(u64),
    /// The body of this number is to be evaluated in a subshell whose output is the pipe that was asked last.
    Body(u64),
    Done(Expanded, u64),
    Fault(ExpandFault, u64),
}

// What IFS has: space, tab and newline where it is unset.
fn ifs(env: &Env) -> &[u8]
    ensures { result.now ≡ ifs env.now }
{
    match env.vars.get(b"IFS") {
        None => b" \t\n",
        Some(bytes) => bytes,
    }
}

fn splits(mode: Mode) -> bool
    ensures { result ≡ splits mode }
{
    match mode {
        Mode::Fields => true,
        Mode::Value => false,
        Mode::Pattern => false,
    }
}

// How many bytes the fields have. No memory holds more than there are numbers.
fn length_of_all(words: &[Bytes]) -> Result<u64, NoMemory>
    ensures { IfOk result (λ n. n ≡ length (all_bytes words.now)) }
{
    let mut n: u64 = 0;
    'words: for word in words {
        match n.checked_add(word.as_slice().len() as u64) {
            Some(sum) => n = sum,
            None => return Err(NoMemory),
        }
    }
    Ok(n)
}

// What the fields cost.
#[tactic(auto, unfolding(rk_calls::specs::Turns::turns))]
fn cost_of_all(words: &[Bytes]) -> Result<u64, NoMemory>
    ensures { IfOk result (λ cost. cost ≡ turns (all_bytes words.now)) }
{
    let n = length_of_all(words)?;
    Ok(n.div_ceil(64))
}

// All fields went by.
fn end(done: WordList) -> Result<(Phase, Expanding), NoMemory>
    ensures talk { IfOk result (λ r. (m : Mode) (body : ℕ → Body) (k : With_expanded) (fail : Failed) (e : Env) (p : ℕ) → pay_fields k done e p ≡ after_step r.1 r.0 m body k fail e p) }
    ensures costly { IfOk result (λ r. IsCostly r.1) }
{
    let cost = cost_of_all(done.as_slice())?;
    Ok((Phase::Over, Expanding::Done(Expanded::Fields(done), cost)))
}

// The fields that are left, up to the next call or the end.
fn run(alloc: Global, env: &Env, names: Names) -> Result<(Phase, Expanding), NoMemory>
    ensures talk { IfOk result (λ r. (m : Mode) (body : ℕ → Body) (k : With_expanded) (fail : Failed) (p : ℕ) → all_left names (pay_fields k) env.now p ≡ after_step r.1 r.0 m body k fail env.now p) }
    ensures costly { IfOk result (λ r. IsCostly r.1) }
{
    let mut names = names;
    'fields: loop {
        match next_field(alloc, env, names)? {
            Named::Goes(next) => names = next,
            Named::Ends(done) => return end(done),
            Named::Waits(glob, text, names, call) => {
                return Ok((Phase::Looks(glob, text, names), Expanding::Ask(call, 1)));
            }
        }
    }
}

// After a field.
fn on_named(alloc: Global, env: &Env, named: Named) -> Result<(Phase, Expanding), NoMemory>
    ensures talk { IfOk result (λ r. (m : Mode) (body : ℕ → Body) (k : With_expanded) (fail : Failed) (p : ℕ) → named_talk named (pay_fields k) env.now p ≡ after_step r.1 r.0 m body k fail env.now p) }
    ensures costly { IfOk result (λ r. IsCostly r.1) }
{
    match named {
        Named::Goes(names) => run(alloc, env, names),
        Named::Ends(done) => end(done),
        Named::Waits(glob, text, names, call) => {
            Ok((Phase::Looks(glob, text, names), Expanding::Ask(call, 1)))
        }
    }
}

// The fields of these marks.
fn cut(alloc: Global, env: &Env, marks: &[Mark]) -> Result<Names, NoMemory>
    ensures fields { IfOk result (λ names. fields_left names ≡ cut_fields (kind (ifs env.now)) marks.now) }
    ensures done { IfOk result (λ names. names.done ≡ []) }
{
    let fields = split_fields(alloc, ifs(env), marks)?;
    Ok(Names {
        fields,
        at: 0,
        done: WordList::new(Vec::new(alloc)),
    })
}

// What comes after the parts.
fn finish(
    alloc: Global,
    mode: Mode,
    marks: &[Mark],
    env: &Env,
) -> Result<(Phase, Expanding), NoMemory>
    ensures talk { IfOk result (λ r. (body : ℕ → Body) (k : With_expanded) (fail : Failed) (p : ℕ) → finished mode marks.now k env.now p ≡ after_step r.1 r.0 mode body k fail env.now p) }
    ensures costly { IfOk result (λ r. IsCostly r.1) }
{
    match mode {
        Mode::Fields => {
            let names = cut(alloc, env, marks)?;
            run(alloc, env, names)
        }
        Mode::Value => {
            let text = text_of(alloc, marks)?;
            let cost = turns(text.as_slice());
            Ok((Phase::Over, Expanding::Done(Expanded::Value(text), cost)))
        }
        Mode::Pattern => {
            let text = text_of(alloc, marks)?;
            let cost = turns(text.as_slice());
            let pattern = pattern_of(alloc, marks)?;
            Ok((Phase::Over, Expanding::Done(Expanded::Value(pattern), cost)))
        }
    }
}

// The parts go on.
fn on_parts(
    alloc: Global,
    mode: Mode,
    machine: Machine,
    env: &mut Env,
    answer: Answer,
) -> Result<(Phase, Expanding), NoMemory>
    ensures talk { IfOk result (λ r. (body : ℕ → Body) (k : With_expanded) (fail : Failed) (p : ℕ) → at_step (Phase.Parts machine) mode answer body k fail env.old p ≡ after_step r.1 r.0 mode body k fail env.new p) }
    ensures costly { IfOk result (λ r. Paces (bodies_at machine.stage) r.1 (bodies_behind r.0)) }
{
    let mut machine = machine;
    match machine.resume(env, answer)? {
        Wants::Pipe => Ok((Phase::Parts(machine), Expanding::Ask(Call::Pipe, 2))),
        Wants::Read(from) => Ok((Phase::Parts(machine), Expanding::Ask(Call::Read(from), 1))),
        Wants::Evaluate(number) => Ok((Phase::Parts(machine), Expanding::Body(number))),
        Wants::Done(field) => {
            let turn = finish(alloc, mode, field.as_slice(), env)?;
            Ok(turn)
        }
        Wants::Fault(parameter, message) => {
            let fault = ExpandFault { parameter, message };
            Ok((Phase::Over, Expanding::Fault(fault, 0)))
        }
    }
}

// One turn from a step on.
fn go_on(
    alloc: Global,
    mode: Mode,
    step: Phase,
    env: &mut Env,
    answer: Answer,
) -> Result<(Phase, Expanding), NoMemory>
    ensures talk { IfOk result (λ r. (body : ℕ → Body) (k : With_expanded) (fail : Failed) (p : ℕ) → at_step step mode answer body k fail env.old p ≡ after_step r.1 r.0 mode body k fail env.new p) }
    ensures costly { IfOk result (λ r. Paces (bodies_behind step) r.1 (bodies_behind r.0)) }
{
    match step {
        Phase::Parts(machine) => {
            let turn = on_parts(alloc, mode, machine, env, answer)?;
            Ok(turn)
        }
        Phase::Looks(glob, text, names) => {
            let named = look(alloc, glob, text, names, answer)?;
            let turn = on_named(alloc, env, named)?;
            Ok(turn)
        }
        Phase::Over => {
            let none = WordList::new(Vec::new(alloc));
            Ok((Phase::Over, Expanding::Done(Expanded::Fields(none), 0)))
        }
    }
}

impl Expander {
    /// The expansion of a word in a mode.
    pub fn start(alloc: Global, word: &Word, mode: Mode) -> Result<Expander, NoMemory>
        ensures { IfOk result (λ x. (body : ℕ → Body) (k : With_expanded) (fail : Failed) (e : Env) (p : ℕ) → expander_says x Answer.Go body k fail e p ≡ expand_in mode body (parts_of (tree.word word.now)) k fail e p) }
    {
        let word = share(&word.parts)?;
        let machine = Machine::start(alloc, word, splits(mode));
        Ok(Expander {
            alloc,
            mode,
            step: Phase::Parts(machine),
        })
    }

    /// What it wants next, in this state. It is resumed first with `Go`; after `Ask` with the call's answer, once the owner
    /// has counted `next` on by it; after `More` with `Go`; after `Body` with `Go`, once that body was evaluated; and after
    /// `Done` and `Fault` not again. A readonly variable or a parameter that is unset is told by `Fault`.
    pub fn resume(&mut self, env: &mut Env, answer: Answer) -> Result<Expanding, NoMemory>
        ensures costly { IfOk result (λ t. Paces (bodies_due self.old) t (bodies_due self.new)) }
        ensures talk { IfOk result (λ t. (body : ℕ → Body) (k : With_expanded) (fail : Failed) (p : ℕ) → expander_says self.old answer body k fail env.old p ≡ after_turn t self.new body k fail env.new p) }
    {
        let step = mem::replace(&mut self.step, Phase::Over);
        let (step, wants) = go_on(self.alloc, self.mode, step, env, answer)?;
        self.step = step;
        Ok(wants)
    }
}
