// The command line, built with `clap`.
ghost use Rattle.std.specs.Prelude.{◌≡◌, IfOk, false};
ghost use Rattle.clap.specs.Words.{app_of, shape_of, rule_of, with_rule, with_subcommand};
ghost use Rattle.clap.specs.declared.Command.TheViews.{out-Command as fields_of};
ghost use Rattle.rk_request.specs.CommandLine.{bare, build_app, command_line, flag, folder_line, gen_app, placed, trace_app, valued};

use clap::{Arg, ArgAction, Command};
use std::alloc::{AllocError, Global};

fn valued<'a>(alloc: Global, name: &'static str) -> Arg<'a>
    ensures rule { rule_of result ≡ valued name.entry.now }
    ensures local { result.global ≡ false }
{
    Arg::new(alloc, name).long(name).action(ArgAction::Set)
}

fn flag<'a>(alloc: Global, name: &'static str) -> Arg<'a>
    ensures rule { rule_of result ≡ flag name.entry.now }
    ensures local { result.global ≡ false }
{
    Arg::new(alloc, name).long(name).action(ArgAction::SetTrue)
}

fn placed<'a>(alloc: Global, name: &'static str) -> Arg<'a>
    ensures rule { rule_of result ≡ placed name.entry.now }
    ensures local { result.global ≡ false }
{
    Arg::new(alloc, name).required(true).action(ArgAction::Set)
}

fn with_arg<'a>(command: Command<'a>, arg: Arg<'a>) -> Result<Command<'a>, AllocError>
    requires { arg.global ≡ false }
    ensures app { IfOk result (λ c. app_of c ≡ with_rule (app_of command.entry) (rule_of arg.entry)) }
    ensures local { IfOk result
        (λ c. (fields_of command.entry).has_globals ≡ false → (fields_of c).has_globals ≡ false) }
{
    command.arg(arg)
}

fn with_sub<'a>(command: Command<'a>, sub: Command<'a>) -> Result<Command<'a>, AllocError>
    requires { (fields_of sub).has_globals ≡ false }
    ensures app { IfOk result
        (λ c. app_of c ≡ with_subcommand (app_of command.entry) (shape_of sub.entry)) }
    ensures local { IfOk result
        (λ c. (fields_of command.entry).has_globals ≡ false → (fields_of c).has_globals ≡ false) }
{
    command.subcommand(sub)
}

fn bare<'a>(alloc: Global, name: &'static str) -> Command<'a>
    ensures app { app_of result ≡ bare name.entry.now }
    ensures local { (fields_of result).has_globals ≡ false }
{
    Command::new(alloc, name)
        .disable_help_flag(true)
        .disable_help_subcommand(true)
        .subcommand_required(true)
}

#[tactic(auto, unfolding(crate::specs::CommandLine::build_app))]
fn build_command<'a>(alloc: Global) -> Result<Command<'a>, AllocError>
    ensures app { IfOk result (λ c. app_of c ≡ build_app) }
    ensures local { IfOk result (λ c. (fields_of c).has_globals ≡ false) }
{
    let command = with_arg(Command::new(alloc, "build"), valued(alloc, "steps"))?;
    let command = with_arg(command, flag(alloc, "explain"))?;
    let command = with_arg(command, flag(alloc, "fresh"))?;
    with_arg(command, flag(alloc, "check"))
}

#[tactic(auto, unfolding(crate::specs::CommandLine::trace_app))]
fn trace_command<'a>(alloc: Global) -> Result<Command<'a>, AllocError>
    ensures app { IfOk result (λ c. app_of c ≡ trace_app) }
    ensures local { IfOk result (λ c. (fields_of c).has_globals ≡ false) }
{
    with_arg(Command::new(alloc, "trace"), flag(alloc, "json"))
}

#[tactic(auto, unfolding(crate::specs::CommandLine::gen_app))]
fn gen_command<'a>(alloc: Global) -> Result<Command<'a>, AllocError>
    ensures app { IfOk result (λ c. app_of c ≡ gen_app) }
    ensures local { IfOk result (λ c. (fields_of c).has_globals ≡ false) }
{
    with_arg(Command::new(alloc, "gen"), placed(alloc, "seed"))
}

// With the subcommands that ask something of a folder.
#[tactic(auto, unfolding(crate::specs::CommandLine::folder_line))]
fn folder_command<'a>(alloc: Global) -> Result<Command<'a>, AllocError>
    ensures app { IfOk result (λ c. app_of c ≡ folder_line) }
{
    let command = with_sub(bare(alloc, "rkr"), build_command(alloc)?)?;
    let command = with_sub(command, Command::new(alloc, "check"))?;
    let command = with_sub(command, trace_command(alloc)?)?;
    with_sub(command, Command::new(alloc, "forget"))
}

/// The program's command with its subcommands.
#[tactic(auto, unfolding(crate::specs::CommandLine::command_line))]
pub(crate) fn command_line<'a>(alloc: Global) -> Result<Command<'a>, AllocError>
    ensures app { IfOk result (λ c. app_of c ≡ command_line) }
{
    with_sub(folder_command(alloc)?, gen_command(alloc)?)
}
