// `sort` as a filter.
ghost use Rattle.std.specs.Prelude.{◌≡◌, IfOk};
ghost use Rattle.ut_filter.specs.Parts.{all_lines};
ghost use Rattle.ut_sort.specs.Sorts.{text_of, chosen};

use crate::key::Key;
use rk_base::{Bytes, NoMemory};
use std::alloc::Global;
use std::marker::Model;
use ut_filter::{Input, Made, Work, refusal_lines, status_of};

/// How lines are sorted: what delimits fields, the keys, of which there is one at least, whether lines of equal keys go
/// by their bytes in reverse, whether one line of equal keys is shown, and the file that the lines go to.
#[derive(Drop)]
pub struct Sort {
    pub delimiter: Option<u8>,
    pub first: Key,
    pub more: Vec<Key>,
    pub reversed: bool,
    pub unique: bool,
    pub out: Option<Bytes>,
}

impl Model for Sort {
    ghost use Rattle.ut_sort.specs.Orders.{SortValue};

    ghost Value = { SortValue };

    ghost view = { λ s. record { delimiter = s.delimiter; first = s.first; more = s.more.items; reversed = s.reversed; unique = s.unique; out = s.out } };
}

impl Sort {
    #[tactic(auto, using(crate::proofs::LineLemmas::texts_in_order))]
    fn output(&self, alloc: Global, inputs: &[Input]) -> Result<Bytes, NoMemory>
        ensures { IfOk result (λ text. text ≡ text_of (chosen self.now (all_lines inputs.now))) }
    {
        let mut lines = self.lines(alloc, inputs)?;
        self.order(&mut lines)?;
        let mut output = Vec::new(alloc);
        self.put(lines.as_slice(), &mut output)?;
        Bytes::new(alloc, output)
    }
}

impl Work for Sort {
    ghost use Rattle.ut_sort.specs.Sorts.{sort_job};

    ghost job = { sort_job };

    fn name(&self) -> &'static [u8] {
        b"sort"
    }

    fn failed(&self) -> u8 {
        2
    }

    fn out(&self) -> Option<&Bytes> {
        self.out.as_ref()
    }

    fn make(&self, alloc: Global, inputs: &[Input]) -> Result<Made, NoMemory> {
        let output = self.output(alloc, inputs)?;
        let errors = refusal_lines(alloc, b"sort", inputs)?;
        let status = status_of(2, &errors);
        Ok(Made {
            output,
            errors,
            status,
        })
    }
}
