// Outputs as they grow.
ghost use Rattle.std.specs.Prelude.{◌≡◌, [], IfOk, OnOk};
ghost use Rattle.ut_filter.specs.Outputs.{Holds, put, grown_of};

use rk_base::{Bytes, NoMemory};
use std::alloc::Global;
use std::marker::Model;

/// How many bytes of an output are held at most before they are paid for.
pub const HELD: usize = 1 << 24;

/// An output as it grows: its text, up to so many bytes, and behind that its length alone.
#[derive(Drop)]
pub struct Output {
    text: Vec<u8>,
    /// How many bytes more are held.
    room: usize,
    /// How long it is, where its text isn't held.
    length: Option<usize>,
}

impl Model for Output {
    ghost use Rattle.ut_filter.specs.Outputs.{Growing, growing_of};

    ghost Value = { Growing };

    ghost view = { λ o. growing_of o.room o.text.items o.length };
}

/// What an output has become: its text, or how long it is.
#[derive(Debug, Drop)]
pub enum Grown {
    Text(Bytes),
    Length(usize),
}

impl Output {
    /// No output yet, of which so many bytes are held.
    pub fn new(alloc: Global, room: usize) -> Output
        ensures { result ≡ Holds room [] }
    {
        Output {
            text: Vec::new(alloc),
            room,
            length: None,
        }
    }

    /// Bytes at its end.
    #[tactic(auto, unfolding(crate::specs::Outputs::put))]
    pub fn put(&mut self, bytes: &[u8]) -> Result<(), NoMemory>
        ensures { OnOk result (self.new ≡ put self.old bytes.now) }
    {
        match self.length {
            Some(length) => {
                self.length = Some(length.checked_add(bytes.len()).ok_or(NoMemory)?);
            }
            None => {
                if bytes.len() <= self.room {
                    self.text.extend_from_slice(bytes)?;
                    self.room -= bytes.len();
                } else {
                    let length = self.text.len().checked_add(bytes.len()).ok_or(NoMemory)?;
                    self.text = Vec::new(*self.text.allocator());
                    self.length = Some(length);
                }
            }
        }
        Ok(())
    }

    /// What it has become.
    pub fn end(self, alloc: Global) -> Result<Grown, NoMemory>
        ensures { IfOk result (λ grown. grown ≡ grown_of self) }
    {
        match self.length {
            Some(length) => Ok(Grown::Length(length)),
            None => {
                let text = Bytes::new(alloc, self.text)?;
                Ok(Grown::Text(text))
            }
        }
    }
}
