// The work of a filter.
ghost use Rattle.std.specs.Prelude.{◌≡◌, IfOk, option_copied};
ghost use Rattle.ut_filter.specs.Measures.{Measures};

use crate::made::{Input, Made, Measured};
use rk_base::{Bytes, NoMemory};
use std::alloc::Global;

/// A filter's name, options and pure function.
pub trait Work: Drop {
    ghost use Rattle.ut_filter.specs.Filters.{Job};

    ghost job: { Self → Job };

    fn name(&self) -> &'static [u8]
        ensures { result.now ≡ (job self.now).name };

    /// Its status where its output is refused.
    fn failed(&self) -> u8
        ensures { result ≡ (job self.now).failed };

    /// The file that its output goes to, where that isn't the standard output.
    fn out(&self) -> Option<&Bytes>
        ensures { option_copied result ≡ (job self.now).out };

    /// What it makes of its inputs, or of a long output its length, so that it is paid for before it is made.
    fn measure(&self, alloc: Global, inputs: &[Input]) -> Result<Measured, NoMemory>
        ensures { IfOk result (Measures ((job self.now).makes inputs.now)) }
    {
        let made = self.make(alloc, inputs)?;
        Ok(Measured::Short(made))
    }

    /// What it makes of its inputs.
    fn make(&self, alloc: Global, inputs: &[Input]) -> Result<Made, NoMemory>
        ensures { IfOk result (λ made. made ≡ (job self.now).makes inputs.now) };
}
