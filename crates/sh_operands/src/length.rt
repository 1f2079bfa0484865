// How long an output is, before it is made.
ghost use Rattle.std.specs.Prelude.{◌≡◌, ◌+◌, ◌*◌, length, IfOk, OnOk, option_copied};
ghost use Rattle.sh_operands.specs.Lengths.{counted, longer, measured, measure_of};
ghost use Rattle.sh_operands.specs.Made.{nothing};
ghost use Rattle.sh_operands.specs.Passes.{prints_of};
ghost use Rattle.sh_operands.specs.Printed.{converted};

use crate::convert::{converted, noted};
use crate::format::{Conversion, Piece, taken, takes_operand};
use crate::made::Made;
use crate::print::{behind, how_often};
use rk_base::{Bytes, NoMemory, WordList};
use std::alloc::Global;

/// How long an output is so far, and the operands that are no numbers, in an output that is kept empty.
#[derive(Drop)]
pub struct Measure {
    bytes: u64,
    told: Made,
}

// No memory holds more bytes than there are numbers.
fn added(n: u64, more: u64) -> Result<u64, NoMemory>
    ensures { IfOk result (λ sum. sum ≡ n + more) }
{
    match n.checked_add(more) {
        Some(sum) => Ok(sum),
        None => Err(NoMemory),
    }
}

// What is made of an operand is put together without the width, which may be far more than it.
fn field_length(alloc: Global, c: Conversion, operand: Option<&Bytes>) -> Result<u64, NoMemory>
    ensures { IfOk result (λ n. n ≡ length (converted c.specifier c (option_copied operand.entry))) }
{
    let narrow = Conversion {
        left: c.left,
        zero: c.zero,
        width: 0,
        specifier: c.specifier,
    };
    let field = converted(alloc, c.specifier, narrow, operand)?;
    Ok(c.width.max(field.len() as u64))
}

impl Measure {
    fn new(alloc: Global) -> Measure
        ensures { result ≡ measure_of nothing }
    {
        Measure {
            bytes: 0,
            told: Made::new(alloc),
        }
    }

    fn lengthen(&mut self, n: u64) -> Result<(), NoMemory>
        ensures { OnOk result (self.new ≡ longer n self.old) }
    {
        self.bytes = added(self.bytes, n)?;
        Ok(())
    }

    fn count(
        &mut self,
        alloc: Global,
        c: Conversion,
        operand: Option<&Bytes>,
    ) -> Result<(), NoMemory>
        ensures { OnOk result (self.new ≡ counted c (option_copied operand.entry) self.old) }
    {
        noted(c, operand, &mut self.told)?;
        let bytes = field_length(alloc, c, operand)?;
        self.lengthen(bytes)
    }

    // The format once.
    fn pass(&mut self, alloc: Global, pieces: &[Piece], operands: &[Bytes]) -> Result<(), NoMemory>
        ensures { OnOk result (self.new ≡ measured pieces.now operands.now self.old) }
    {
        let mut left = operands;
        'pieces: for piece in pieces {
            match *piece {
                Piece::Literal(_) => {
                    self.lengthen(1)?;
                }
                Piece::Converted(c) => {
                    if takes_operand(c) {
                        self.count(alloc, c, left.get(0))?;
                        left = behind(1, left);
                    } else {
                        self.count(alloc, c, None)?;
                    }
                }
            }
        }
        Ok(())
    }
}

#[tactic(auto, using(crate::proofs::Widths::measures_of))]
fn measure_all(alloc: Global, pieces: &[Piece], operands: &[Bytes]) -> Result<Measure, NoMemory>
    ensures { IfOk result (λ m. m ≡ measure_of (prints_of pieces.now operands.now)) }
{
    let n = taken(pieces);
    let mut measure = Measure::new(alloc);
    let mut left = operands;
    let times = how_often(n, operands.len());
    'passes: for i in 0..times {
        measure.pass(alloc, pieces, left)?;
        left = behind(n, left);
    }
    Ok(measure)
}

/// How many bytes the pieces of a format make of operands, and the operands that are no numbers. Nothing is made that is
/// longer than an operand.
pub fn measured(
    alloc: Global,
    pieces: &[Piece],
    operands: &[Bytes],
) -> Result<(u64, WordList), NoMemory>
    ensures bytes { IfOk result (λ m. m.0 ≡ length (prints_of pieces.now operands.now).output) }
    ensures bad { IfOk result (λ m. m.1 ≡ (prints_of pieces.now operands.now).bad) }
{
    let Measure { bytes, told } = measure_all(alloc, pieces, operands)?;
    let (_, bad) = told.into_parts();
    Ok((bytes, bad))
}
