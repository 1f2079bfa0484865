// What `printf` has made so far.
ghost use Rattle.std.specs.Prelude.{◌≡◌, OnOk};
ghost use Rattle.sh_operands.specs.Made.{nothing, with_text, with_bad};

use rk_base::{Bytes, NoMemory, WordList};
use std::alloc::Global;
use std::marker::Model;

/// The output, and the operands that are no numbers.
#[derive(Drop)]
pub struct Made {
    output: Vec<u8>,
    bad: WordList,
}

impl Model for Made {
    ghost use Rattle.sh_operands.specs.Made.{MadeValue};

    ghost Value = { MadeValue };

    ghost view = { λ m. record { output = m.output.items; bad = m.bad } };
}

impl Made {
    pub(crate) fn new(alloc: Global) -> Made
        ensures { result ≡ nothing }
    {
        Made {
            output: Vec::new(alloc),
            bad: WordList::new(Vec::new(alloc)),
        }
    }

    pub(crate) fn put(&mut self, text: &[u8]) -> Result<(), NoMemory>
        ensures { OnOk result (self.new ≡ with_text text.now self.old) }
    {
        self.output.extend_from_slice(text)?;
        Ok(())
    }

    /// An operand that is no number.
    pub(crate) fn note(&mut self, word: &Bytes) -> Result<(), NoMemory>
        ensures { OnOk result (self.new ≡ with_bad word.now self.old) }
    {
        let word = word.copy()?;
        self.bad.push(word)?;
        Ok(())
    }

    /// The output, and the operands that are no numbers.
    pub fn into_parts(self) -> (Vec<u8>, WordList)
        ensures output { result.0.items ≡ self.output }
        ensures bad { result.1 ≡ self.bad }
    {
        let Made { output, bad } = self;
        (output, bad)
    }
}
