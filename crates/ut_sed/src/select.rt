// Which lines commands select.
ghost use Rattle.std.specs.Prelude.{◌≡◌, not, IfOk, option_map};
ghost use Rattle.ut_sed.specs.Commands.{address_of, command_of};
ghost use Rattle.ut_sed.specs.Selecting.{meets, opens, is_in, stays, ranged, from_first, addressed, negated, selected};

use crate::address::Address;
use crate::command::Command;
use rk_base::NoMemory;
use ut_bre::Marks;

/// Whether a command selects a line, and whether its range goes on behind it.
#[derive(Clone, Copy, Debug, Drop)]
pub struct Selected {
    pub selected: bool,
    pub opened: bool,
}

/// A line: its number, whether it is the last one, and its text.
#[derive(Clone, Copy, Drop)]
pub(crate) struct Line<'a> {
    pub(crate) number: u64,
    pub(crate) is_last: bool,
    pub(crate) text: &'a [u8],
}

impl Address {
    fn meets(&self, line: &Line, marks: &mut Marks) -> Result<bool, NoMemory>
        ensures { IfOk result (λ b. b ≡ meets (address_of self.now) line.now.number line.now.is_last line.now.text.now) }
    {
        match self {
            Address::Line(number) => Ok(line.number == *number),
            Address::Last => Ok(line.is_last),
            Address::Matching(expression) => {
                let found = expression.span_in(line.text, 0, marks)?;
                Ok(found.is_some())
            }
        }
    }

    // Whether a range to it goes on behind its first line.
    fn opens(&self, number: u64) -> bool
        ensures { result ≡ opens (address_of self.now) number }
    {
        match self {
            Address::Line(end) => number < *end,
            Address::Last => true,
            Address::Matching(_) => true,
        }
    }

    // Whether a range to it has a line behind its first one.
    fn is_in(&self, number: u64) -> bool
        ensures { result ≡ is_in (address_of self.now) number }
    {
        match self {
            Address::Line(end) => number <= *end,
            Address::Last => true,
            Address::Matching(_) => true,
        }
    }

    // Whether the range goes on behind such a line.
    fn stays(&self, line: &Line, marks: &mut Marks) -> Result<bool, NoMemory>
        ensures { IfOk result (λ b. b ≡ stays (address_of self.now) line.now.number line.now.is_last line.now.text.now) }
    {
        match self {
            Address::Line(end) => Ok(line.number < *end),
            Address::Last => Ok(!line.is_last),
            Address::Matching(expression) => {
                let found = expression.span_in(line.text, 0, marks)?;
                Ok(found.is_none())
            }
        }
    }
}

fn ranged(
    first: &Address,
    second: &Address,
    opened: bool,
    line: &Line,
    marks: &mut Marks,
) -> Result<Selected, NoMemory>
    ensures { IfOk result (λ s. s ≡ ranged (address_of first.now) (address_of second.now) opened line.now.number line.now.is_last line.now.text.now) }
{
    if opened {
        let stays = second.stays(line, marks)?;
        return Ok(Selected {
            selected: second.is_in(line.number),
            opened: stays,
        });
    }
    let meets = first.meets(line, marks)?;
    if meets {
        Ok(Selected {
            selected: true,
            opened: second.opens(line.number),
        })
    } else {
        Ok(Selected {
            selected: false,
            opened: false,
        })
    }
}

fn from_first(
    first: &Address,
    second: &Option<Address>,
    opened: bool,
    line: &Line,
    marks: &mut Marks,
) -> Result<Selected, NoMemory>
    ensures { IfOk result (λ s. s ≡ from_first (address_of first.now) (option_map address_of second.now) opened line.now.number line.now.is_last line.now.text.now) }
{
    match second {
        None => {
            let selected = first.meets(line, marks)?;
            Ok(Selected {
                selected,
                opened: false,
            })
        }
        Some(second) => ranged(first, second, opened, line, marks),
    }
}

fn negated(is_negated: bool, selected: Selected) -> Selected
    ensures { result ≡ negated is_negated selected }
{
    if is_negated {
        Selected {
            selected: !selected.selected,
            opened: selected.opened,
        }
    } else {
        selected
    }
}

impl Command {
    fn addressed(&self, opened: bool, line: &Line, marks: &mut Marks) -> Result<Selected, NoMemory>
        ensures { IfOk result (λ s. s ≡ addressed (command_of self.now).first (command_of self.now).second opened line.now.number line.now.is_last line.now.text.now) }
    {
        match &self.first {
            None => Ok(Selected {
                selected: true,
                opened: false,
            }),
            Some(first) => from_first(first, &self.second, opened, line, marks),
        }
    }

    /// Whether it selects a line, where its range was open before it or not.
    pub(crate) fn selected(
        &self,
        opened: bool,
        line: &Line,
        marks: &mut Marks,
    ) -> Result<Selected, NoMemory>
        ensures { IfOk result (λ s. s ≡ selected (command_of self.now) opened line.now.number line.now.is_last line.now.text.now) }
    {
        let selected = self.addressed(opened, line, marks)?;
        Ok(negated(self.negated, selected))
    }
}
