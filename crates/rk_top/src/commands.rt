// What makes commands.
ghost use Rattle.std.specs.Prelude.{◌≡◌};

use crate::command::Command;
use rk_base::NoMemory;
use rk_calls::{Key, Maker};
use std::alloc::Global;
use std::marker::Model;

/// Makes the command of each key, and counts those that it has started.
#[derive(Drop)]
pub struct Commands {
    alloc: Global,
    started: u64,
}

impl Model for Commands {
    ghost use Rattle.std.specs.Prelude.{ℕ};

    ghost Value = { ℕ };

    ghost view = { λ c. c.started };
}

impl Commands {
    /// None has started yet.
    pub fn new(alloc: Global) -> Commands
        ensures { result ≡ 0 }
    {
        Commands { alloc, started: 0 }
    }

    /// How many have started, up to 2^64 - 1.
    pub fn started(&self) -> u64
        ensures { result ≡ self.now }
    {
        self.started
    }
}

impl Maker for Commands {
    ghost use Rattle.rk_top.specs.First.{first_talk};
    ghost use Rattle.rk_top.specs.CommandTalks.{talk-first_talk};

    type Made = Command;

    ghost first = { first_talk };

    ghost starts = { λ c. c };

    fn start(&mut self, key: &Key) -> Result<Command, NoMemory> {
        let command = Command::start(self.alloc, key)?;
        self.started = self.started.saturating_add(1);
        Ok(command)
    }

    ghost command = { talk-first_talk };
}
