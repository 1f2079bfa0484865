// Lines in order.
ghost use Rattle.std.specs.Prelude.{◌≡◌, ◌++◌, map, IfOk, OnOk};
ghost use Rattle.std.specs.Ordering.{is_lt};
ghost use Rattle.ut_filter.specs.Lines.{lines_of};
ghost use Rattle.ut_filter.specs.Parts.{all_lines};
ghost use Rattle.ut_sort.specs.Ordered.{ordered};
ghost use Rattle.ut_sort.specs.Orders.{line_of, found_cmp};
ghost use Rattle.ut_sort.specs.Sorts.{view, views};

use crate::line::Line;
use crate::sort::Sort;
use rk_base::NoMemory;
use std::alloc::Global;
use ut_filter::{Input, front_line};

impl Sort {
    // A line stays where its text is, so that it takes no memory of its own.
    fn add_lines<'a>(&self, text: &'a [u8], lines: &mut Vec<Line<'a>>) -> Result<(), NoMemory>
        ensures { OnOk result (views lines.new.items ≡ views lines.old.items ++ map (line_of self.now) (lines_of text.now)) }
    {
        let mut rest = text;
        'lines: while let Some((line, after)) = front_line(rest) {
            lines.push(self.line_of(line))?;
            rest = after;
        }
        Ok(())
    }

    /// The lines of each input.
    pub(crate) fn lines<'a>(
        &self,
        alloc: Global,
        inputs: &'a [Input],
    ) -> Result<Vec<Line<'a>>, NoMemory>
        ensures { IfOk result (λ lines. views lines.items ≡ map (line_of self.now) (all_lines inputs.now)) }
    {
        let mut lines = Vec::new(alloc);
        'inputs: for input in inputs {
            self.add_lines(input.part(), &mut lines)?;
        }
        Ok(lines)
    }

    /// Lines into their order.
    pub(crate) fn order(&self, lines: &mut Vec<Line>) -> Result<(), NoMemory>
        ensures { OnOk result (lines.new.items ≡ ordered (λ a b. is_lt (found_cmp self.now (view a) (view b))) lines.old.items) }
    {
        lines.sort_by(|a, b| self.compare(a, b))?;
        Ok(())
    }
}
