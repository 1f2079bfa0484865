// What `find` found, as a filter of no inputs that writes it.
ghost use Rattle.std.specs.Prelude.{◌≡◌};

use rk_base::{Bytes, NoMemory};
use std::alloc::Global;
use ut_filter::{Input, Made, Work, status_of};

/// What was found, and what was refused.
#[derive(Debug, Drop)]
pub struct Found {
    pub output: Bytes,
    pub errors: Bytes,
}

impl Work for Found {
    ghost use Rattle.ut_find.specs.Finds.{found_job};

    ghost job = { found_job };

    fn name(&self) -> &'static [u8] {
        b"find"
    }

    fn failed(&self) -> u8 {
        1
    }

    fn out(&self) -> Option<&Bytes> {
        None
    }

    fn make(&self, _alloc: Global, _inputs: &[Input]) -> Result<Made, NoMemory> {
        let output = self.output.copy()?;
        let errors = self.errors.copy()?;
        let status = status_of(1, &errors);
        Ok(Made {
            output,
            errors,
            status,
        })
    }
}
