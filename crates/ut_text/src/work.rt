// The utilities that are filters.
ghost use Rattle.std.specs.Prelude.{◌≡◌};

use crate::cat::Cat;
use crate::cmp::Cmp;
use crate::head::Head;
use crate::tail::Tail;
use crate::uniq::Uniq;
use crate::wc::Wc;
use rk_base::{Bytes, NoMemory};
use std::alloc::Global;
use ut_filter::{Input, Made, Measured, Work};

/// A text utility that is a filter.
#[derive(Drop)]
pub enum TextWork {
    Cats(Cat),
    Heads(Head),
    Wcs(Wc),
    Uniqs(Uniq),
    Cmps(Cmp),
    Tails(Tail),
}

impl Work for TextWork {
    ghost use Rattle.ut_text.specs.Works.{text_job};

    ghost job = { text_job };

    fn name(&self) -> &'static [u8] {
        match self {
            TextWork::Cats(work) => work.name(),
            TextWork::Heads(work) => work.name(),
            TextWork::Wcs(work) => work.name(),
            TextWork::Uniqs(work) => work.name(),
            TextWork::Cmps(work) => work.name(),
            TextWork::Tails(work) => work.name(),
        }
    }

    fn failed(&self) -> u8 {
        match self {
            TextWork::Cats(work) => work.failed(),
            TextWork::Heads(work) => work.failed(),
            TextWork::Wcs(work) => work.failed(),
            TextWork::Uniqs(work) => work.failed(),
            TextWork::Cmps(work) => work.failed(),
            TextWork::Tails(work) => work.failed(),
        }
    }

    fn out(&self) -> Option<&Bytes> {
        match self {
            TextWork::Cats(work) => work.out(),
            TextWork::Heads(work) => work.out(),
            TextWork::Wcs(work) => work.out(),
            TextWork::Uniqs(work) => work.out(),
            TextWork::Cmps(work) => work.out(),
            TextWork::Tails(work) => work.out(),
        }
    }

    fn measure(&self, alloc: Global, inputs: &[Input]) -> Result<Measured, NoMemory> {
        match self {
            TextWork::Cats(work) => work.measure(alloc, inputs),
            TextWork::Heads(work) => work.measure(alloc, inputs),
            TextWork::Wcs(work) => work.measure(alloc, inputs),
            TextWork::Uniqs(work) => work.measure(alloc, inputs),
            TextWork::Cmps(work) => work.measure(alloc, inputs),
            TextWork::Tails(work) => work.measure(alloc, inputs),
        }
    }

    fn make(&self, alloc: Global, inputs: &[Input]) -> Result<Made, NoMemory> {
        match self {
            TextWork::Cats(work) => work.make(alloc, inputs),
            TextWork::Heads(work) => work.make(alloc, inputs),
            TextWork::Wcs(work) => work.make(alloc, inputs),
            TextWork::Uniqs(work) => work.make(alloc, inputs),
            TextWork::Cmps(work) => work.make(alloc, inputs),
            TextWork::Tails(work) => work.make(alloc, inputs),
        }
    }
}
