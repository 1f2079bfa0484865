// The descriptors of a command.
ghost use Rattle.std.specs.Prelude.{◌≡◌, IfOk, OnOk, OnErr};
ghost use Rattle.rk_calls.specs.Refs.{ref_at, with_opened, top_refs, passed_refs, at_number};
ghost use Rattle.rk_calls.specs.RefMaps.{number_of};

use crate::RefMap;
use rk_base::NoMemory;
use std::alloc::Global;
use std::marker::Model;

/// The open descriptions that a command's numbers stand for: 0 to 9 as they were passed, and from 10 on those
/// that it opened.
#[derive(Debug, Drop)]
pub struct Refs {
    passed: Vec<Option<usize>>,
    opened: Vec<usize>,
}

impl Model for Refs {
    ghost use Rattle.rk_calls.specs.Refs.{RefsHeld};

    ghost Value = { RefsHeld };

    ghost view = { λ r. record { passed = r.passed.items; opened = r.opened.items } };
}

impl Refs {
    /// Those of the first command: 0 is the empty input, 1 the output, 2 the error text.
    pub fn top(alloc: Global) -> Result<Refs, NoMemory>
        ensures { IfOk result (λ r. r ≡ top_refs) }
    {
        let passed = vec![in alloc; Some(0), Some(1), Some(2)]?;
        Ok(Refs {
            passed,
            opened: Vec::new(alloc),
        })
    }

    /// The description that a number stands for.
    #[tactic(auto, unfolding(crate::specs::Refs::ref_at))]
    pub fn at(&self, r: u64) -> Option<usize>
        ensures { result ≡ ref_at self.now r }
    {
        if r < 10 {
            match self.passed.get(r as usize) {
                Some(d) => *d,
                None => None,
            }
        } else {
            self.opened.get((r - 10) as usize).copied()
        }
    }

    /// The next number stands for this description.
    pub fn push(&mut self, d: usize) -> Result<(), NoMemory>
        ensures ok { OnOk result (self.new ≡ with_opened self.old d) }
        ensures err { OnErr result (self.new ≡ self.old) }
    {
        self.opened.push(d)?;
        Ok(())
    }

    fn passes(&self, map: &RefMap, d: u8) -> Option<usize>
        ensures { result ≡ at_number self.now (number_of d map.now) }
    {
        match map.number_of(d) {
            Some(r) => self.at(r),
            None => None,
        }
    }

    /// Those of a command that is launched with this map. A number that isn't there is left out.
    #[tactic(auto, unfolding(crate::specs::Refs::passed_refs))]
    pub fn pass(&self, map: &RefMap) -> Result<Refs, NoMemory>
        ensures { IfOk result (λ r. r ≡ passed_refs self.now map.now) }
    {
        let alloc = *self.opened.allocator();
        let passed = vec![in alloc;
            self.passes(map, 0),
            self.passes(map, 1),
            self.passes(map, 2),
            self.passes(map, 3),
            self.passes(map, 4),
            self.passes(map, 5),
            self.passes(map, 6),
            self.passes(map, 7),
            self.passes(map, 8),
            self.passes(map, 9),
        ]?;
        Ok(Refs {
            passed,
            opened: Vec::new(alloc),
        })
    }
}
