// Pipes.
ghost use Rattle.std.specs.Prelude.{◌≡◌, ◌≤◌, ◌++◌, [], IfOk, OnOk, drop, length, slice_get, slice_set};
ghost use Rattle.rk_kernel.specs.World.{text_of};

use rk_base::{Bytes, NoMemory};
use std::alloc::Global;
use std::marker::Model;
use std::mem;

// The bytes that a pipe holds, and the place up to which they were read; contracts see what is left. What is written to a
// pipe that holds nothing is shared with the call, and what is read whole with the answer.
#[derive(Drop)]
pub(crate) struct Pipe {
    held: Option<Bytes>,
    at: usize,
}

impl Model for Pipe {
    ghost use Rattle.std.specs.Prelude.{List, ℕ, ◌≤◌, drop, length};
    ghost use Rattle.rk_kernel.specs.World.{text_of};

    ghost Value = { List ℕ };

    ghost view = { λ p. drop p.at (text_of p.held) };

    ghost invariant = { λ p. p.at ≤ length (text_of p.held) };
}

fn bytes_of(held: &Option<Bytes>) -> &[u8]
    ensures { result.now ≡ text_of held.now }
{
    match held {
        Some(bytes) => bytes.as_slice(),
        None => b"",
    }
}

// A copy of the bytes, which shares them.
fn shared(alloc: Global, held: &Option<Bytes>) -> Result<Bytes, NoMemory>
    ensures { IfOk result (λ b. b ≡ text_of held.now) }
{
    match held {
        Some(bytes) => bytes.copy(),
        None => Bytes::from_slice(alloc, b""),
    }
}

// These bytes behind those that are held; where none are, they are shared.
#[tactic(auto, using(crate::proofs::PipeLemmas::written_end))]
fn joined(held: Option<Bytes>, bytes: &Bytes) -> Result<Bytes, NoMemory>
    ensures { IfOk result (λ b. b ≡ text_of held ++ bytes.now) }
{
    match held {
        Some(mut text) => {
            let end = text.len();
            text.write_at(end, bytes.as_slice())?;
            Ok(text)
        }
        None => bytes.copy(),
    }
}

impl Pipe {
    pub(crate) fn new() -> Pipe
        ensures { result ≡ [] }
    {
        Pipe { held: None, at: 0 }
    }

    // What is left.
    pub(crate) fn rest(&self) -> &[u8]
        ensures { result.now ≡ self.now }
    {
        bytes_of(&self.held).split_at(self.at).1
    }

    // What is left: the text that is held, where nothing of it was read.
    pub(crate) fn left(&self, alloc: Global) -> Result<Bytes, NoMemory>
        ensures { IfOk result (λ b. b ≡ self.now) }
    {
        if self.at == 0 {
            shared(alloc, &self.held)
        } else {
            Bytes::from_slice(alloc, self.rest())
        }
    }

    // So many bytes more were read. Once all were, nothing is held.
    pub(crate) fn skip(&mut self, n: usize)
        requires { n ≤ length self.old }
        ensures { self.new ≡ drop n self.old }
    {
        let all = bytes_of(&self.held).len();
        self.at += n;
        if self.at == all {
            *self = Pipe::new();
        }
    }

    // The pipe with more bytes.
    fn with(self, bytes: &Bytes) -> Result<Pipe, NoMemory>
        ensures { IfOk result (λ p. p ≡ self ++ bytes.now) }
    {
        let Pipe { held, at } = self;
        let held = joined(held, bytes)?;
        Ok(Pipe {
            held: Some(held),
            at,
        })
    }

    pub(crate) fn push(&mut self, bytes: &Bytes) -> Result<(), NoMemory>
        ensures { OnOk result (self.new ≡ self.old ++ bytes.now) }
    {
        let was = mem::replace(self, Pipe::new());
        *self = was.with(bytes)?;
        Ok(())
    }
}

/// So many bytes of the pipe of a number were read; nothing happens where there is none.
pub(crate) fn skip_in(pipes: &mut Vec<Pipe>, p: usize, n: usize)
    requires { n ≤ length (text_of (slice_get pipes.old.items p)) }
    ensures { pipes.new.items ≡ slice_set pipes.old.items p (drop n (text_of (slice_get pipes.old.items p))) }
{
    match pipes.get_mut(p) {
        Some(pipe) => pipe.skip(n),
        None => {}
    }
}

/// Bytes into the pipe of a number; nothing happens where there is none.
pub(crate) fn push_in(pipes: &mut Vec<Pipe>, p: usize, bytes: &Bytes) -> Result<(), NoMemory>
    ensures { OnOk result (pipes.new.items ≡ slice_set pipes.old.items p (text_of (slice_get pipes.old.items p) ++ bytes.now)) }
{
    match pipes.get_mut(p) {
        Some(pipe) => {
            pipe.push(bytes)?;
            Ok(())
        }
        None => Ok(()),
    }
}
