// What commands make of a line.
ghost use Rattle.std.specs.Prelude.{◌≡◌, ◌++◌, [], IfOk, OnOk};
ghost use Rattle.std.specs.Fmt.{decimal};
ghost use Rattle.ut_filter.specs.Outputs.{put};
ghost use Rattle.ut_sed.specs.Commands.{act_of, command_of, commands_of, substitution_of};
ghost use Rattle.ut_sed.specs.Editing.{line_of, edited, edited_by, substitution, first_opened, rest_opened, is_over, is_quit, cycle};
ghost use Rattle.ut_sed.specs.Changing.{changed};

use crate::change::Change;
use crate::command::{Act, Command, Substitution};
use crate::growth::extend;
use crate::select::{Line, Selected};
use rk_base::NoMemory;
use std::alloc::Global;
use std::marker::Model;
use std::mem::swap;
use ut_bre::Marks;
use ut_filter::Output;

/// How a cycle goes on, or ends.
#[derive(Clone, Copy, Debug, Drop)]
pub enum Ends {
    /// The next command comes, or the next line.
    Next,
    /// The line was deleted.
    Deleted,
    /// Nothing comes behind this line.
    Quit,
}

impl Ends {
    // Whether the cycle ends here.
    fn is_over(self) -> bool
        ensures { result ≡ is_over self }
    {
        match self {
            Ends::Next => false,
            Ends::Deleted => true,
            Ends::Quit => true,
        }
    }

    /// Whether no line comes behind this one.
    pub(crate) fn is_quit(self) -> bool
        ensures { result ≡ is_quit self }
    {
        match self {
            Ends::Next => false,
            Ends::Deleted => false,
            Ends::Quit => true,
        }
    }
}

fn first_opened(opened: &[bool]) -> bool
    ensures { result ≡ first_opened opened.now }
{
    match opened {
        [] => false,
        [first, ..] => *first,
    }
}

fn rest_opened(opened: &[bool]) -> &[bool]
    ensures { result.now ≡ rest_opened opened.now }
{
    match opened {
        [] => &[],
        [_, rest @ ..] => rest,
    }
}

/// The pattern space: a line as commands have edited it, and the memory of what is made of it.
#[derive(Drop)]
pub struct Space {
    text: Vec<u8>,
    spare: Vec<u8>,
    marks: Marks,
}

impl Model for Space {
    ghost use Rattle.std.specs.Prelude.{List, ℕ};

    ghost Value = { List ℕ };

    ghost view = { λ s. s.text.items };
}

/// A line and its newline.
#[tactic(auto, using(ut_filter::proofs::OutputLemmas::put_more))]
pub(crate) fn put_line(line: &[u8], output: &mut Output) -> Result<(), NoMemory>
    ensures { OnOk result (output.new ≡ put output.old (line_of line.now)) }
{
    output.put(line)?;
    output.put(b"\n")?;
    Ok(())
}

fn put_number(alloc: Global, n: u64, output: &mut Output) -> Result<(), NoMemory>
    ensures { OnOk result (output.new ≡ put output.old (line_of (decimal n))) }
{
    let digits = format!(in alloc; "{n}")?;
    put_line(digits.as_bytes(), output)
}

impl Space {
    pub(crate) fn new(alloc: Global) -> Space
        ensures { result ≡ [] }
    {
        Space {
            text: Vec::new(alloc),
            spare: Vec::new(alloc),
            marks: Marks::new(alloc),
        }
    }

    pub(crate) fn text(&self) -> &[u8]
        ensures { result.now ≡ self.now }
    {
        self.text.as_slice()
    }

    /// A line comes into it.
    pub(crate) fn set(&mut self, line: &[u8]) -> Result<(), NoMemory>
        ensures { OnOk result (self.new ≡ line.now) }
    {
        self.text.clear();
        extend(&mut self.text, line)?;
        Ok(())
    }

    #[tactic(auto, using(ut_filter::proofs::OutputLemmas::put_nothing))]
    fn substitute(&mut self, s: &Substitution, output: &mut Output) -> Result<(), NoMemory>
        ensures text { OnOk result (self.new ≡ (substitution (substitution_of s.now) self.old).text) }
        ensures out { OnOk result (output.new ≡ put output.old (substitution (substitution_of s.now) self.old).out) }
    {
        self.spare.clear();
        let replaced = s.rewrite(self.text.as_slice(), &mut self.marks, &mut self.spare)?;
        swap(&mut self.text, &mut self.spare);
        if s.prints && replaced {
            put_line(self.text.as_slice(), output)?;
        }
        Ok(())
    }

    fn change(&mut self, change: &Change) -> Result<(), NoMemory>
        ensures { OnOk result (self.new ≡ changed change.now self.old) }
    {
        self.spare.clear();
        change.change(self.text.as_slice(), &mut self.spare)?;
        swap(&mut self.text, &mut self.spare);
        Ok(())
    }

    #[tactic(auto, using(ut_filter::proofs::OutputLemmas::put_nothing))]
    fn edit(&mut self, act: &Act, number: u64, output: &mut Output) -> Result<Ends, NoMemory>
        ensures text { OnOk result (self.new ≡ (edited (act_of act.now) number self.old).text) }
        ensures out { OnOk result (output.new ≡ put output.old (edited (act_of act.now) number self.old).out) }
        ensures ends { IfOk result (λ e. e ≡ (edited (act_of act.now) number self.old).ends) }
    {
        match act {
            Act::Print => put_line(self.text.as_slice(), output)?,
            Act::Delete => return Ok(Ends::Deleted),
            Act::Quit => return Ok(Ends::Quit),
            Act::Count => put_number(*self.text.allocator(), number, output)?,
            Act::Change(change) => self.change(change)?,
            Act::Substitute(s) => self.substitute(s, output)?,
        }
        Ok(Ends::Next)
    }

    // Where the command selects the line.
    #[tactic(auto, using(ut_filter::proofs::OutputLemmas::put_nothing))]
    fn edit_by(
        &mut self,
        command: &Command,
        selected: Selected,
        number: u64,
        output: &mut Output,
    ) -> Result<Ends, NoMemory>
        ensures text { OnOk result (self.new ≡ (edited_by (command_of command.now) selected number self.old).text) }
        ensures out { OnOk result (output.new ≡ put output.old (edited_by (command_of command.now) selected number self.old).out) }
        ensures ends { IfOk result (λ e. e ≡ (edited_by (command_of command.now) selected number self.old).ends) }
    {
        if selected.selected {
            self.edit(&command.act, number, output)
        } else {
            Ok(Ends::Next)
        }
    }

    /// One cycle of commands: which ranges are open behind the line is put after others, what is written after other
    /// output.
    #[tactic(auto, using(crate::proofs::EditLemmas::cycle_more, crate::proofs::EditLemmas::cycle_over, crate::proofs::EditLemmas::commands_end, ut_filter::proofs::OutputLemmas::put_more, ut_filter::proofs::OutputLemmas::put_nothing))]
    pub(crate) fn cycle(
        &mut self,
        commands: &[Command],
        opened: &[bool],
        number: u64,
        is_last: bool,
        next: &mut Vec<bool>,
        output: &mut Output,
    ) -> Result<Ends, NoMemory>
        ensures opened { OnOk result (next.new.items ≡ next.old.items ++ (cycle (commands_of commands.now) opened.now number is_last self.old).opened) }
        ensures text { OnOk result (self.new ≡ (cycle (commands_of commands.now) opened.now number is_last self.old).text) }
        ensures out { OnOk result (output.new ≡ put output.old (cycle (commands_of commands.now) opened.now number is_last self.old).out) }
        ensures ends { IfOk result (λ e. e ≡ (cycle (commands_of commands.now) opened.now number is_last self.old).ends) }
    {
        let mut rest = commands;
        let mut ranges = opened;
        'commands: while let [command, more @ ..] = rest {
            let line = Line {
                number,
                is_last,
                text: self.text.as_slice(),
            };
            let selected = command.selected(first_opened(ranges), &line, &mut self.marks)?;
            ranges = rest_opened(ranges);
            next.push(selected.opened)?;
            let ends = self.edit_by(command, selected, number, output)?;
            if ends.is_over() {
                next.extend_from_slice(ranges)?;
                return Ok(ends);
            }
            rest = more;
        }
        next.extend_from_slice(ranges)?;
        Ok(Ends::Next)
    }
}
