// Which commands ran.
ghost use Rattle.std.specs.Prelude.{◌≡◌, ◌++◌, ◌∷◌, [], OnOk, OnErr, length};

use rk_base::NoMemory;
use rk_calls::Key;
use std::alloc::Global;
use std::marker::Model;
use tr_matching::Cause;

/// A command that ran, and why.
#[derive(Debug, Drop)]
pub struct Ran {
    pub key: Key,
    /// How many commands of its key were launched before it.
    pub ordinal: u64,
    pub cause: Cause,
}

/// The commands that ran, in launch order.
#[derive(Debug, Drop)]
pub struct RanList {
    items: Vec<Ran>,
}

impl Model for RanList {
    ghost use Rattle.std.specs.Prelude.{List};
    ghost use Rattle.rk_replay.specs.declared.ran.Ran.{Ran};

    ghost Value = { List Ran };

    ghost view = { λ r. r.items.items };
}

impl RanList {
    /// Nothing ran.
    pub(crate) fn new(alloc: Global) -> RanList
        ensures { result ≡ [] }
    {
        RanList {
            items: Vec::new(alloc),
        }
    }

    /// One more ran, launched after these.
    pub(crate) fn push(&mut self, ran: Ran) -> Result<(), NoMemory>
        ensures ok { OnOk result (self.new ≡ self.old ++ ran ∷ []) }
        ensures err { OnErr result (self.new ≡ self.old) }
    {
        self.items.push(ran)?;
        Ok(())
    }

    /// What ran, in launch order.
    pub fn as_slice(&self) -> &[Ran]
        ensures { result.now ≡ self.now }
    {
        self.items.as_slice()
    }

    /// How many commands ran.
    pub fn len(&self) -> usize
        ensures { result ≡ length self.now }
    {
        self.items.len()
    }
}
