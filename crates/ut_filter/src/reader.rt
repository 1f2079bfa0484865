// What was read so far.
ghost use Rattle.std.specs.Prelude.{◌≡◌, ◌+◌, IfOk, OnOk};
ghost use Rattle.ut_filter.specs.Filters.{nothing_from, added};

use crate::made::{Input, InputList};
use rk_base::{Bytes, Errno, NoMemory};
use std::alloc::Global;
use std::marker::Model;

/// The inputs so far, and the number of the next file that is opened.
#[derive(Drop)]
pub struct Reader {
    inputs: InputList,
    next: u64,
}

impl Model for Reader {
    ghost use Rattle.ut_filter.specs.Filters.{Seen};

    ghost Value = { Seen };

    ghost view = { λ r. record { inputs = r.inputs; next = r.next } };
}

impl Reader {
    pub(crate) fn from_number(alloc: Global, next: u64) -> Reader
        ensures { result ≡ nothing_from next }
    {
        Reader {
            inputs: InputList::new(alloc),
            next,
        }
    }

    pub(crate) fn add(
        &mut self,
        operand: Bytes,
        brought: Result<Bytes, Errno>,
    ) -> Result<(), NoMemory>
        ensures { OnOk result (self.new ≡ added operand self.old brought) }
    {
        self.inputs.push(Input { operand, brought })
    }

    /// The number of a file that was opened. So many inputs that the numbers end are more than memory can hold.
    pub(crate) fn number(&mut self) -> Result<u64, NoMemory>
        ensures number { IfOk result (λ n. n ≡ self.old.next) }
        ensures next { OnOk result (self.new ≡ record self.old { next = self.old.next + 1 }) }
    {
        let number = self.next;
        match number.checked_add(1) {
            Some(next) => {
                self.next = next;
                Ok(number)
            }
            None => Err(NoMemory),
        }
    }

    pub(crate) fn next(&self) -> u64
        ensures { result ≡ self.now.next }
    {
        self.next
    }

    pub(crate) fn inputs(&self) -> &[Input]
        ensures { result.now ≡ self.now.inputs }
    {
        self.inputs.as_slice()
    }
}
