// `cat`.
use rk_base::{Bytes, NoMemory};
use std::alloc::Global;
use ut_filter::{Input, Made, Measured, Work, joined, joined_length, refusal_lines, status_of};

/// `cat`, which joins its inputs.
#[derive(Clone, Copy, Debug, Drop)]
pub struct Cat;

impl Work for Cat {
    ghost use Rattle.ut_text.specs.Cats.{cat_job};

    ghost job = { λ _. cat_job };

    fn name(&self) -> &'static [u8] {
        b"cat"
    }

    fn failed(&self) -> u8 {
        1
    }

    fn out(&self) -> Option<&Bytes> {
        None
    }

    fn measure(&self, alloc: Global, inputs: &[Input]) -> Result<Measured, NoMemory> {
        let length = joined_length(inputs)?;
        if length > 0 {
            return Ok(Measured::Long(length));
        }
        let made = self.make(alloc, inputs)?;
        Ok(Measured::Short(made))
    }

    fn make(&self, alloc: Global, inputs: &[Input]) -> Result<Made, NoMemory> {
        let output = joined(alloc, inputs)?;
        let errors = refusal_lines(alloc, b"cat", inputs)?;
        let status = status_of(1, &errors);
        Ok(Made {
            output,
            errors,
            status,
        })
    }
}
