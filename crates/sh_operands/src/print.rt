// What `printf` makes of its operands.
ghost use Rattle.std.specs.Prelude.{◌≡◌, ◌*◌, IfOk, OnOk, drop};
ghost use Rattle.sh_operands.specs.Passes.{how_often, prints_of};
ghost use Rattle.sh_operands.specs.Printed.{pass};

use crate::convert::converts;
use crate::format::{Piece, taken, takes_operand};
use crate::made::Made;
use rk_base::{Bytes, NoMemory};
use std::alloc::Global;

/// What stands behind so many operands.
pub(crate) fn behind(n: usize, operands: &[Bytes]) -> &[Bytes]
    ensures { result.now ≡ drop n operands.now }
{
    let at = if n < operands.len() {
        n
    } else {
        operands.len()
    };
    operands.split_at(at).1
}

// The format once.
fn pass(
    alloc: Global,
    pieces: &[Piece],
    operands: &[Bytes],
    made: &mut Made,
) -> Result<(), NoMemory>
    ensures { OnOk result (made.new ≡ pass pieces.now operands.now made.old) }
{
    let mut left = operands;
    'pieces: for piece in pieces {
        match *piece {
            Piece::Literal(b) => {
                made.put(&[b])?;
            }
            Piece::Converted(c) => {
                if takes_operand(c) {
                    converts(alloc, c, left.get(0), made)?;
                    left = behind(1, left);
                } else {
                    converts(alloc, c, None, made)?;
                }
            }
        }
    }
    Ok(())
}

/// How often the format is used.
pub(crate) fn how_often(n: usize, operands: usize) -> usize
    ensures { result ≡ how_often n operands }
{
    if n == 0 {
        return 1;
    }
    operands.div_ceil(n).max(1)
}

/// What the pieces of a format make of operands: the format is used again as long as operands remain and it takes any.
pub fn printed(alloc: Global, pieces: &[Piece], operands: &[Bytes]) -> Result<Made, NoMemory>
    ensures { IfOk result (λ made. made ≡ prints_of pieces.now operands.now) }
{
    let n = taken(pieces);
    let mut made = Made::new(alloc);
    let mut left = operands;
    let times = how_often(n, operands.len());
    'passes: for i in 0..times {
        pass(alloc, pieces, left, &mut made)?;
        left = behind(n, left);
    }
    Ok(made)
}
