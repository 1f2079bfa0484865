// The utilities as filters.
ghost use Rattle.std.specs.Prelude.{◌≡◌};

use crate::cut::Cut;
use crate::tr::Tr;
use rk_base::{Bytes, NoMemory};
use std::alloc::Global;
use ut_filter::{Input, Made, Work};

/// A utility that selects, as a filter.
#[derive(Drop)]
pub enum SelectWork {
    Cuts(Cut),
    Trs(Tr),
}

impl Work for SelectWork {
    ghost use Rattle.ut_select.specs.Works.{select_job};

    ghost job = { select_job };

    fn name(&self) -> &'static [u8] {
        match self {
            SelectWork::Cuts(work) => work.name(),
            SelectWork::Trs(work) => work.name(),
        }
    }

    fn failed(&self) -> u8 {
        match self {
            SelectWork::Cuts(work) => work.failed(),
            SelectWork::Trs(work) => work.failed(),
        }
    }

    fn out(&self) -> Option<&Bytes> {
        match self {
            SelectWork::Cuts(work) => work.out(),
            SelectWork::Trs(work) => work.out(),
        }
    }

    fn make(&self, alloc: Global, inputs: &[Input]) -> Result<Made, NoMemory> {
        match self {
            SelectWork::Cuts(work) => work.make(alloc, inputs),
            SelectWork::Trs(work) => work.make(alloc, inputs),
        }
    }
}
