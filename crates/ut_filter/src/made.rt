// What filters are given and what they make.
ghost use Rattle.std.specs.Prelude.{◌≡◌, ◌∷◌, ◌++◌, [], IfOk, OnOk, codes, Ok};

use rk_base::{Bytes, Errno, NoMemory};
use std::alloc::Global;
use std::marker::Model;

/// An operand, and what it gave: bytes, or a refusal.
#[derive(Debug, Drop)]
pub struct Input {
    pub operand: Bytes,
    pub brought: Result<Bytes, Errno>,
}

/// What a filter makes: its output, its error text and its status.
#[derive(Debug, Drop)]
pub struct Made {
    pub output: Bytes,
    pub errors: Bytes,
    pub status: u8,
}

/// What a filter makes, or, where its output is long, its length in bytes alone.
#[derive(Debug, Drop)]
pub enum Measured {
    Short(Made),
    Long(usize),
}

/// Inputs, in the order of the operands.
#[derive(Debug, Drop)]
pub struct InputList {
    inputs: Vec<Input>,
}

impl Model for InputList {
    ghost use Rattle.std.specs.Prelude.{List};
    ghost use Rattle.ut_filter.specs.declared.made.Input.{Input};

    ghost Value = { List Input };

    ghost view = { λ l. l.inputs.items };
}

impl InputList {
    /// No inputs.
    pub fn new(alloc: Global) -> InputList
        ensures { result ≡ [] }
    {
        InputList {
            inputs: Vec::new(alloc),
        }
    }

    /// One input more, at the end.
    pub fn push(&mut self, input: Input) -> Result<(), NoMemory>
        ensures { OnOk result (self.new ≡ self.old ++ input ∷ []) }
    {
        self.inputs.push(input)?;
        Ok(())
    }

    /// The inputs, in their order.
    pub fn as_slice(&self) -> &[Input]
        ensures { result.now ≡ self.now }
    {
        self.inputs.as_slice()
    }
}
