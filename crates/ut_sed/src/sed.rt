// `sed` as a filter.
ghost use Rattle.std.specs.Prelude.{◌≡◌, ◌+◌, ◌++◌, [], IfOk, OnOk, if◌then◌else◌};
ghost use Rattle.rk_base.specs.Canonical.{is_empty};
ghost use Rattle.ut_filter.specs.Lines.{lines_of};
ghost use Rattle.ut_filter.specs.Outputs.{put, HasGrown};
ghost use Rattle.ut_filter.specs.Parts.{all_lines};
ghost use Rattle.ut_sed.specs.Commands.{commands_of};
ghost use Rattle.ut_sed.specs.Editing.{cycle, shown, edited_lines, none_opened, made_of, sed_of};

use crate::command::Command;
use crate::edit::{Ends, Space, put_line};
use rk_base::{Bytes, NoMemory};
use std::alloc::Global;
use std::mem::swap;
use ut_filter::{
    Grown, HELD, Input, Made, Measured, Output, Work, front_line, refusal_lines, status_of,
};

/// `sed`: whether lines are shown only where a command says so, and its commands.
#[derive(Drop)]
pub struct Sed {
    pub(crate) quiet: bool,
    pub(crate) commands: Vec<Command>,
}

/// What goes from line to line: which ranges are open, one for each command, the memory of the next of these, the
/// number of the next line, and the pattern space.
#[derive(Drop)]
pub(crate) struct Progress {
    opened: Vec<bool>,
    spare: Vec<bool>,
    number: u64,
    space: Space,
}

fn none_opened(alloc: Global, commands: &[Command]) -> Result<Vec<bool>, NoMemory>
    ensures { IfOk result (λ opened. opened.items ≡ none_opened (commands_of commands.now)) }
{
    let mut opened = Vec::new(alloc);
    'commands: for _command in commands {
        opened.push(false)?;
    }
    Ok(opened)
}

fn is_blank(text: &[u8]) -> bool
    ensures { result ≡ is_empty text.now }
{
    match text {
        [] => true,
        [_, ..] => false,
    }
}

// Whether these inputs have no lines.
#[tactic(auto, using(crate::proofs::LineLemmas::no_lines))]
fn are_empty(inputs: &[Input]) -> bool
    ensures { result ≡ is_empty (all_lines inputs.now) }
{
    'inputs: for input in inputs {
        if !is_blank(input.part()) {
            return false;
        }
    }
    true
}

// Whether nothing comes after a line.
#[tactic(auto, using(crate::proofs::LineLemmas::no_lines))]
fn is_last(after: &[u8], later: &[Input]) -> bool
    ensures { result ≡ is_empty (lines_of after.now ++ all_lines later.now) }
{
    if is_blank(after) {
        are_empty(later)
    } else {
        false
    }
}

impl Sed {
    // The end of a cycle.
    #[tactic(auto, using(ut_filter::proofs::OutputLemmas::put_nothing))]
    fn show(&self, ends: Ends, text: &[u8], output: &mut Output) -> Result<(), NoMemory>
        ensures { OnOk result (output.new ≡ put output.old (shown self.now.quiet ends text.now)) }
    {
        if self.quiet {
            return Ok(());
        }
        match ends {
            Ends::Next => put_line(text, output),
            Ends::Deleted => Ok(()),
            Ends::Quit => put_line(text, output),
        }
    }

    // A cycle, and its end.
    #[tactic(auto, using(ut_filter::proofs::OutputLemmas::put_more))]
    fn edit_line(
        &self,
        line: &[u8],
        is_last: bool,
        progress: &mut Progress,
        output: &mut Output,
    ) -> Result<Ends, NoMemory>
        ensures opened { OnOk result (progress.new.opened.items ≡ (cycle (commands_of self.now.commands.items) progress.old.opened.items progress.old.number is_last line.now).opened) }
        ensures number { OnOk result (progress.new.number ≡ progress.old.number + 1) }
        ensures ends { IfOk result (λ e. e ≡ (cycle (commands_of self.now.commands.items) progress.old.opened.items progress.old.number is_last line.now).ends) }
        ensures out { OnOk result (let c = cycle (commands_of self.now.commands.items) progress.old.opened.items progress.old.number is_last line.now in output.new ≡ put output.old (c.out ++ shown self.now.quiet c.ends c.text)) }
    {
        let number = progress.number;
        progress.number = number.checked_add(1).ok_or(NoMemory)?;
        progress.space.set(line)?;
        progress.spare.clear();
        let ends = progress.space.cycle(
            self.commands.as_slice(),
            progress.opened.as_slice(),
            number,
            is_last,
            &mut progress.spare,
            output,
        )?;
        swap(&mut progress.opened, &mut progress.spare);
        self.show(ends, progress.space.text(), output)?;
        Ok(ends)
    }

    // The lines of a text, which inputs come after; whether nothing comes behind them.
    fn edit_text(
        &self,
        text: &[u8],
        later: &[Input],
        progress: &mut Progress,
        output: &mut Output,
    ) -> Result<bool, NoMemory>
        ensures { IfOk result (λ quits. put output.new (if quits then [] else edited_lines (sed_of self.now) progress.new.opened.items progress.new.number (all_lines later.now)) ≡ put output.old (edited_lines (sed_of self.now) progress.old.opened.items progress.old.number (lines_of text.now ++ all_lines later.now))) }
    {
        let mut rest = text;
        'lines: while let Some((line, after)) = front_line(rest) {
            let is_last = is_last(after, later);
            let ends = self.edit_line(line, is_last, progress, output)?;
            if ends.is_quit() {
                return Ok(true);
            }
            rest = after;
        }
        Ok(false)
    }

    #[tactic(auto, using(crate::proofs::EditLemmas::quit_end, crate::proofs::EditLemmas::inputs_end))]
    fn edit_inputs(
        &self,
        inputs: &[Input],
        progress: &mut Progress,
        output: &mut Output,
    ) -> Result<(), NoMemory>
        ensures { OnOk result (output.new ≡ put output.old (edited_lines (sed_of self.now) progress.old.opened.items progress.old.number (all_lines inputs.now))) }
    {
        let mut rest = inputs;
        'inputs: while let [input, later @ ..] = rest {
            if self.edit_text(input.part(), later, progress, output)? {
                return Ok(());
            }
            rest = later;
        }
        Ok(())
    }

    // The output, of which so many bytes are held.
    #[tactic(auto, using(ut_filter::proofs::OutputLemmas::grown_whole))]
    fn output(&self, alloc: Global, inputs: &[Input], room: usize) -> Result<Grown, NoMemory>
        ensures { IfOk result (HasGrown (edited_lines (sed_of self.now) (none_opened (sed_of self.now).commands) 1 (all_lines inputs.now))) }
    {
        let opened = none_opened(alloc, self.commands.as_slice())?;
        let mut progress = Progress {
            opened,
            spare: Vec::new(alloc),
            number: 1,
            space: Space::new(alloc),
        };
        let mut output = Output::new(alloc, room);
        self.edit_inputs(inputs, &mut progress, &mut output)?;
        output.end(alloc)
    }
}

// What is made, where the output is this text.
fn made_of(alloc: Global, inputs: &[Input], output: Bytes) -> Result<Made, NoMemory>
    ensures { IfOk result (λ made. made ≡ made_of inputs.now output) }
{
    let errors = refusal_lines(alloc, b"sed", inputs)?;
    let status = status_of(1, &errors);
    Ok(Made {
        output,
        errors,
        status,
    })
}

impl Work for Sed {
    ghost use Rattle.ut_sed.specs.Editing.{job_of};

    ghost job = { job_of };

    fn name(&self) -> &'static [u8] {
        b"sed"
    }

    fn failed(&self) -> u8 {
        1
    }

    fn out(&self) -> Option<&Bytes> {
        None
    }

    fn measure(&self, alloc: Global, inputs: &[Input]) -> Result<Measured, NoMemory> {
        match self.output(alloc, inputs, HELD)? {
            Grown::Text(output) => {
                let made = made_of(alloc, inputs, output)?;
                Ok(Measured::Short(made))
            }
            Grown::Length(length) => Ok(Measured::Long(length)),
        }
    }

    fn make(&self, alloc: Global, inputs: &[Input]) -> Result<Made, NoMemory> {
        match self.output(alloc, inputs, usize::MAX)? {
            Grown::Text(output) => made_of(alloc, inputs, output),
            Grown::Length(_) => Err(NoMemory),
        }
    }
}
