// Scripts, command by command.
ghost use Rattle.std.specs.Prelude.{◌≡◌, ◌≤◌, ◌++◌, length, List, MatchOption, Some, None, IfOk, OnOk, option_map, option_to_list, if◌then◌else◌};
ghost use Rattle.std.specs.List.{prefix_len};
ghost use Rattle.ut_sed.specs.Commands.{act_of, command_of, commands_of, CommandValue};
ghost use Rattle.ut_sed.specs.Reading.{addresses_of, IsStep};
ghost use Rattle.ut_sed.specs.Scanning.{is_digit};
ghost use Rattle.ut_sed.specs.Scripts.{is_blank, skipped, number_at, negation_at, act_by, act_at, command_with, command_at, some_command, is_separator, command_or_none, separated, step, script_after};

use crate::address::Address;
use crate::command::{Act, Command};
use crate::scan::is_digit;
use rk_base::NoMemory;
use std::alloc::Global;
use ut_args::number;

/// What is left of a script. Where something in it isn't valid, what is left then says nothing.
#[derive(Drop)]
pub(crate) struct Reader<'t> {
    pub(crate) alloc: Global,
    pub(crate) rest: &'t [u8],
}

/// Flags of `s`.
#[derive(Clone, Copy, Debug, Drop)]
pub struct Flags {
    pub number: Option<u64>,
    pub global: bool,
    pub prints: bool,
}

/// The addresses of a command.
#[derive(Drop)]
pub struct Addresses {
    pub first: Option<Address>,
    pub second: Option<Address>,
}

/// How a script goes on behind a command.
#[derive(Clone, Copy, Debug, Drop)]
pub enum ReadStep {
    Wrong,
    Ends,
    Goes,
}

fn is_blank(b: u8) -> bool
    ensures { result ≡ is_blank b }
{
    b == b' ' || b == b'\t'
}

fn is_separator(b: u8) -> bool
    ensures { result ≡ is_separator b }
{
    b == b';' || b == b'\n'
}

fn skipped(text: &[u8]) -> &[u8]
    ensures { result.now ≡ skipped text.now }
{
    let mut rest = text;
    'blanks: while let [b, more @ ..] = rest {
        if !is_blank(*b) {
            return rest;
        }
        rest = more;
    }
    rest
}

// How many digits stand at the front.
fn digits(text: &[u8]) -> usize
    ensures run { result ≡ prefix_len is_digit text.now }
    ensures within { result ≤ length text.now }
{
    let mut at = 0;
    'digits: while at < text.len() {
        if !is_digit(text[at]) {
            return at;
        }
        at += 1;
    }
    at
}

impl<'t> Reader<'t> {
    pub(crate) fn skip_blanks(&mut self)
        ensures { self.new.rest.now ≡ skipped self.old.rest.now }
    {
        self.rest = skipped(self.rest);
    }

    // One to ten digits. A number that doesn't fit, which none of so few digits is, counts as want of memory.
    pub(crate) fn number(&mut self) -> Result<Option<u64>, NoMemory>
        ensures { IfOk result (λ r. MatchOption r (number_at self.old.rest.now ≡ None) (λ n. number_at self.old.rest.now ≡ Some (n, self.new.rest.now))) }
    {
        let size = digits(self.rest);
        if size > 0 && size <= 10 {
            let (front, rest) = self.rest.split_at(size);
            let value = number(front).ok_or(NoMemory)?;
            self.rest = rest;
            return Ok(Some(value));
        }
        Ok(None)
    }

    // A `!`, behind which blanks may stand.
    fn negation(&mut self) -> bool
        ensures negated { result ≡ (negation_at self.old.rest.now).0 }
        ensures rest { self.new.rest.now ≡ (negation_at self.old.rest.now).1 }
    {
        match self.rest {
            [] => false,
            [b, more @ ..] => {
                if *b == b'!' {
                    self.rest = skipped(more);
                    return true;
                }
                false
            }
        }
    }

    // By the letter, which stands before the rest.
    fn act_by(&mut self, b: u8) -> Result<Option<Act>, NoMemory>
        ensures { IfOk result (λ r. MatchOption r (act_by b self.old.rest.now ≡ None) (λ a. act_by b self.old.rest.now ≡ Some (act_of a, self.new.rest.now))) }
    {
        if b == b'p' {
            return Ok(Some(Act::Print));
        }
        if b == b'd' {
            return Ok(Some(Act::Delete));
        }
        if b == b'q' {
            return Ok(Some(Act::Quit));
        }
        if b == b'=' {
            return Ok(Some(Act::Count));
        }
        if b == b'y' {
            return self.change();
        }
        if b == b's' {
            return self.substitution();
        }
        Ok(None)
    }

    fn act(&mut self) -> Result<Option<Act>, NoMemory>
        ensures { IfOk result (λ r. MatchOption r (act_at self.old.rest.now ≡ None) (λ a. act_at self.old.rest.now ≡ Some (act_of a, self.new.rest.now))) }
    {
        match self.rest {
            [] => Ok(None),
            [b, more @ ..] => {
                self.rest = more;
                self.act_by(*b)
            }
        }
    }

    // What stands behind the addresses.
    fn command_with(&mut self, addresses: Addresses) -> Result<Option<Command>, NoMemory>
        ensures { IfOk result (λ r. let n = negation_at (skipped self.old.rest.now) in MatchOption r (command_with (addresses_of addresses) n.0 (act_at n.1) ≡ None) (λ c. command_with (addresses_of addresses) n.0 (act_at n.1) ≡ Some (command_of c, self.new.rest.now))) }
    {
        self.skip_blanks();
        let negated = self.negation();
        match self.act()? {
            None => Ok(None),
            Some(act) => Ok(Some(Command {
                first: addresses.first,
                second: addresses.second,
                negated,
                act,
            })),
        }
    }

    fn command(&mut self) -> Result<Option<Command>, NoMemory>
        ensures { IfOk result (λ r. MatchOption r (command_at self.old.rest.now ≡ None) (λ c. command_at self.old.rest.now ≡ Some (command_of c, self.new.rest.now))) }
    {
        match self.addresses()? {
            None => Ok(None),
            Some(addresses) => self.command_with(addresses),
        }
    }

    fn some_command(&mut self) -> Result<Option<Option<Command>>, NoMemory>
        ensures { IfOk result (λ r. MatchOption r (some_command (command_at self.old.rest.now) ≡ None) (λ c. some_command (command_at self.old.rest.now) ≡ Some (option_map command_of c, self.new.rest.now))) }
    {
        match self.command()? {
            None => Ok(None),
            Some(command) => Ok(Some(Some(command))),
        }
    }

    fn command_or_none(&mut self) -> Result<Option<Option<Command>>, NoMemory>
        ensures { IfOk result (λ r. MatchOption r (command_or_none self.old.rest.now ≡ None) (λ c. command_or_none self.old.rest.now ≡ Some (option_map command_of c, self.new.rest.now))) }
    {
        match self.rest {
            [] => Ok(Some(None)),
            [b, ..] => {
                if is_separator(*b) {
                    return Ok(Some(None));
                }
                self.some_command()
            }
        }
    }

    // The separator behind a command.
    fn separated(&mut self) -> ReadStep
        ensures { (commands : List CommandValue) → IsStep (separated commands self.old.rest.now) result commands self.new.rest.now }
    {
        match self.rest {
            [] => ReadStep::Ends,
            [b, more @ ..] => {
                if is_separator(*b) {
                    self.rest = more;
                    return ReadStep::Goes;
                }
                ReadStep::Wrong
            }
        }
    }

    // A command, which is put behind others, and what stands behind it.
    fn step(&mut self, commands: &mut Vec<Command>) -> Result<ReadStep, NoMemory>
        ensures { IfOk result (λ s. IsStep (step (commands_of commands.old.items) self.old.rest.now) s (commands_of commands.new.items) self.new.rest.now) }
    {
        self.skip_blanks();
        match self.command_or_none()? {
            None => return Ok(ReadStep::Wrong),
            Some(command) => put_command(command, commands)?,
        }
        self.skip_blanks();
        Ok(self.separated())
    }
}

fn put_command(command: Option<Command>, commands: &mut Vec<Command>) -> Result<(), NoMemory>
    ensures { OnOk result (commands_of commands.new.items ≡ commands_of commands.old.items ++ option_to_list (option_map command_of command)) }
{
    match command {
        None => Ok(()),
        Some(command) => {
            commands.push(command)?;
            Ok(())
        }
    }
}

/// The commands of a script, behind others; whether it is valid. Where it isn't, others may have come.
#[tactic(auto, using(crate::proofs::ScriptLemmas::commands_more, crate::proofs::ScriptLemmas::commands_end, crate::proofs::ScriptLemmas::commands_wrong))]
pub(crate) fn read_script(
    alloc: Global,
    text: &[u8],
    commands: &mut Vec<Command>,
) -> Result<bool, NoMemory>
    ensures { IfOk result (λ valid. script_after (commands_of commands.old.items) text.now ≡ (if valid then Some (commands_of commands.new.items) else None)) }
{
    let mut reader = Reader { alloc, rest: text };
    let mut left = text.len() + 1;
    'commands: while left > 0 {
        left -= 1;
        match reader.step(commands)? {
            ReadStep::Wrong => return Ok(false),
            ReadStep::Ends => return Ok(true),
            ReadStep::Goes => {}
        }
    }
    Ok(false)
}
