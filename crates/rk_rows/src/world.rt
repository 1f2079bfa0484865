// Steps of a world and of the descriptors of its commands.
use crate::feet::foot_shown;
use rk_base::{FileType, NoMemory};
use rk_calls::{Answerer, Call, Key, Refs};
use rk_kernel::World;
use rk_steps::{
    Seen, Subject, answer_of, answer_shown, behind, call_of, call_shown, key_of, key_of_parts,
    key_shown, kind_shown, map_of, number, number_shown, plain, push_shown, shown, text,
};
use rk_tree::{Node, Snapshot, Tree};
use std::alloc::Global;

/// A world, the descriptors of the command that asks, those of its launchers, and what was asked and answered.
#[derive(Drop)]
pub(crate) struct Asked {
    alloc: Global,
    world: World,
    refs: Refs,
    launchers: Vec<Refs>,
    seen: Seen,
}

/// Where a file came from, behind `from`; nothing where it has bytes of its own, nor of any other node.
pub(crate) fn push_from(alloc: Global, out: &mut String, node: &Node) -> Result<(), NoMemory> {
    if let Some(path) = node.import_path() {
        out.push_str(" from ")?;
        push_shown(alloc, out, path.text())?;
    }
    Ok(())
}

// The bytes of a file that are known, shared as they are looked at.
fn push_bytes(alloc: Global, out: &mut String, node: &Node) -> Result<(), NoMemory> {
    if node.bytes().is_some() {
        let bytes = node.copy_bytes(alloc)?;
        out.push(' ')?;
        push_shown(alloc, out, bytes.as_slice())?;
    }
    Ok(())
}

fn push_link_text(alloc: Global, out: &mut String, node: &Node) -> Result<(), NoMemory> {
    let text = node.copy_link_text(alloc)?;
    out.push(' ')?;
    push_shown(alloc, out, text.as_slice())
}

// What stands at a path.
fn node_shown(alloc: Global, node: &Node) -> Result<String, NoMemory> {
    let kind = node.kind();
    let mut text = format!(in alloc; "{} {:o}", kind_shown(kind), node.mode())?;
    push_from(alloc, &mut text, node)?;
    match kind {
        FileType::File => push_bytes(alloc, &mut text, node)?,
        FileType::Dir => {}
        FileType::Link => push_link_text(alloc, &mut text, node)?,
    }
    Ok(text)
}

/// Each path with what stands there.
pub(crate) fn snapshot_shown(alloc: Global, snapshot: &Snapshot) -> Result<String, NoMemory> {
    let mut text = String::new(alloc);
    'rows: for (path, node) in snapshot.rows() {
        text.push_str(if text.is_empty() { "" } else { "; " })?;
        text.push_str(shown(alloc, path.text())?.as_str())?;
        text.push(' ')?;
        text.push_str(node_shown(alloc, &node.copy()?)?.as_str())?;
    }
    Ok(text)
}

fn key_step(alloc: Global, key: Option<Key>) -> Result<String, NoMemory> {
    match key {
        Some(key) => key_shown(alloc, &key),
        None => plain(alloc, "none"),
    }
}

impl Asked {
    pub(crate) fn new(alloc: Global) -> Result<Asked, NoMemory> {
        Ok(Asked {
            alloc,
            world: World::new(alloc, Tree::new(alloc)?)?,
            refs: Refs::top(alloc)?,
            launchers: Vec::new(alloc),
            seen: Seen::new(alloc),
        })
    }

    // A call that is only looked at.
    fn look(&mut self, words: &[Vec<u8>]) -> Result<String, NoMemory> {
        let Some(call) = call_of(self.alloc, words)? else {
            return plain(self.alloc, "none");
        };
        if !self.seen.call(&call)? {
            return plain(self.alloc, "not apart");
        }
        call_shown(self.alloc, &call)
    }

    fn look_answer(&mut self, words: &[Vec<u8>]) -> Result<String, NoMemory> {
        let Some(answer) = answer_of(self.alloc, words)? else {
            return plain(self.alloc, "none");
        };
        if !self.seen.answer(&answer)? {
            return plain(self.alloc, "not apart");
        }
        answer_shown(self.alloc, &answer)
    }

    fn ask(&mut self, call: &Call) -> Result<String, NoMemory> {
        let answer = self.world.answer(&mut self.refs, call)?;
        if !self.seen.call(call)? || !self.seen.answer(&answer)? {
            return plain(self.alloc, "not apart");
        }
        answer_shown(self.alloc, &answer)
    }

    // The commands that follow are asked by one that is launched with this map.
    fn launch(&mut self, pairs: &str) -> Result<String, NoMemory> {
        let Some(map) = map_of(self.alloc, pairs)? else {
            return plain(self.alloc, "none");
        };
        let mut refs = self.refs.pass(&map.copy()?)?;
        std::mem::swap(&mut self.refs, &mut refs);
        self.launchers.push(refs)?;
        plain(self.alloc, "launched")
    }

    fn back(&mut self) -> Result<String, NoMemory> {
        match self.launchers.pop() {
            Some(refs) => {
                self.refs = refs;
                plain(self.alloc, "back")
            }
            None => plain(self.alloc, "none"),
        }
    }

    fn push(&mut self, d: u64) -> Result<String, NoMemory> {
        self.refs.push(d as usize)?;
        plain(self.alloc, "pushed")
    }

    // What a call would read and write. It isn't asked.
    fn foot(&self, words: &[Vec<u8>]) -> Result<String, NoMemory> {
        match call_of(self.alloc, words)? {
            Some(call) => foot_shown(self.alloc, &self.world.foot(&self.refs, &call)?),
            None => plain(self.alloc, "unknown step"),
        }
    }

    fn call(&mut self, words: &[Vec<u8>]) -> Result<String, NoMemory> {
        match call_of(self.alloc, words)? {
            Some(call) => self.ask(&call),
            None => plain(self.alloc, "unknown step"),
        }
    }
}

impl Subject for Asked {
    fn fresh(&mut self) -> Result<(), NoMemory> {
        *self = Asked::new(self.alloc)?;
        Ok(())
    }

    fn step(&mut self, words: &[Vec<u8>]) -> Result<String, NoMemory> {
        let alloc = self.alloc;
        match text(words, 0) {
            "call" => self.look(behind(words)),
            "answer" => self.look_answer(behind(words)),
            "foot" => self.foot(behind(words)),
            "key" => key_step(alloc, key_of(alloc, behind(words))?),
            "parts" => key_step(alloc, key_of_parts(alloc, behind(words))?),
            "child" => self.launch(text(words, 1)),
            "back" => self.back(),
            "push" => self.push(number(words, 1)),
            "ref" => number_shown(alloc, self.refs.at(number(words, 1))),
            "out" => shown(alloc, self.world.out()),
            "err" => shown(alloc, self.world.err()),
            "show" => snapshot_shown(alloc, &self.world.snapshot()?),
            _ => self.call(words),
        }
    }
}
