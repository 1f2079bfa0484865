// Steps of a world whose files are fetched when they are looked at.
use crate::feet::foot_shown;
use crate::tree::Grown;
use crate::world::snapshot_shown;
use rk_base::NoMemory;
use rk_calls::{Answerer, Refs};
use rk_kernel::{AnswerErr, FetchingWorld, NumberedWorld};
use rk_steps::{Fetches, Subject, answer_shown, behind, call_of, plain, text};
use rk_tree::Tree;
use std::alloc::Global;
use std::mem;

/// A tree that grows, the world of the tree that it had before, the descriptors of the command that asks, and what is fetched.
#[derive(Drop)]
pub(crate) struct Fetching {
    alloc: Global,
    grown: Grown,
    world: NumberedWorld,
    refs: Refs,
    fetches: Fetches,
}

fn empty_world(alloc: Global) -> Result<NumberedWorld, NoMemory> {
    NumberedWorld::new(alloc, Tree::new(alloc)?)
}

fn no_answer(alloc: Global, e: AnswerErr) -> Result<String, NoMemory> {
    match e {
        AnswerErr::ReadFault => plain(alloc, "read fault"),
        AnswerErr::NoMemory => plain(alloc, "no memory"),
    }
}

// What a call is answered.
fn ask<A: Answerer<Stop = AnswerErr>>(
    alloc: Global,
    asking: &mut A,
    refs: &mut Refs,
    words: &[Vec<u8>],
) -> Result<String, NoMemory> {
    let Some(call) = call_of(alloc, words)? else {
        return plain(alloc, "unknown step");
    };
    match asking.answer(refs, &call) {
        Ok(answer) => answer_shown(alloc, &answer),
        Err(e) => no_answer(alloc, e),
    }
}

// What calls are answered, each behind a `then` of its own but the first.
fn ask_all<A: Answerer<Stop = AnswerErr>>(
    alloc: Global,
    asking: &mut A,
    refs: &mut Refs,
    words: &[Vec<u8>],
) -> Result<String, NoMemory> {
    let mut out = String::new(alloc);
    'calls: for call in words.split(|word| word.as_slice() == b"then".as_slice()) {
        out.push_str(if out.is_empty() { "" } else { "; " })?;
        out.push_str(ask(alloc, asking, refs, call)?.as_str())?;
    }
    Ok(out)
}

impl Fetching {
    pub(crate) fn new(alloc: Global) -> Result<Fetching, NoMemory> {
        Ok(Fetching {
            alloc,
            grown: Grown::new(alloc)?,
            world: empty_world(alloc)?,
            refs: Refs::top(alloc)?,
            fetches: Fetches::new(alloc),
        })
    }

    // The world of the tree that has grown.
    fn begin(&mut self) -> Result<String, NoMemory> {
        self.world = NumberedWorld::new(self.alloc, self.grown.take()?)?;
        self.refs = Refs::top(self.alloc)?;
        plain(self.alloc, "begun")
    }

    // Each path of the world with what stands there; the world is gone then.
    fn end(&mut self) -> Result<String, NoMemory> {
        let world = mem::replace(&mut self.world, empty_world(self.alloc)?);
        snapshot_shown(self.alloc, &world.into_world().snapshot()?)
    }

    // What a call would read and write. It isn't asked, and nothing is fetched.
    fn foot(&self, words: &[Vec<u8>]) -> Result<String, NoMemory> {
        match call_of(self.alloc, words)? {
            Some(call) => foot_shown(self.alloc, &self.world.foot(&self.refs, &call)?),
            None => plain(self.alloc, "unknown step"),
        }
    }

    // The world and no numbers of contents any more.
    fn unnumbered(&mut self) -> Result<String, NoMemory> {
        let world = mem::replace(&mut self.world, empty_world(self.alloc)?);
        self.world = NumberedWorld::of(self.alloc, world.into_world());
        plain(self.alloc, "unnumbered")
    }

    // Calls, `then` between them: each is asked of the world as the one before left it, and what fetches is the same.
    fn calls(&mut self, words: &[Vec<u8>]) -> Result<String, NoMemory> {
        let mut asking = FetchingWorld::new(&mut self.world, &mut self.fetches);
        ask_all(self.alloc, &mut asking, &mut self.refs, words)
    }
}

impl Subject for Fetching {
    fn fresh(&mut self) -> Result<(), NoMemory> {
        *self = Fetching::new(self.alloc)?;
        Ok(())
    }

    fn step(&mut self, words: &[Vec<u8>]) -> Result<String, NoMemory> {
        if let Some(told) = self.fetches.step(words)? {
            return Ok(told);
        }
        match text(words, 0) {
            "tree" => self.grown.step(behind(words)),
            "begin" => self.begin(),
            "end" => self.end(),
            "foot" => self.foot(behind(words)),
            "unnumbered" => self.unnumbered(),
            _ => self.calls(words),
        }
    }
}
