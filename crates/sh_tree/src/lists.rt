// Lists, AND-OR lists and pipelines (XCU 2.9.2, 2.9.3).
ghost use Rattle.std.specs.Prelude.{◌≡◌, ◌++◌, OnOk, false, map};
ghost use Rattle.sh_ast.specs.Commands as c;
ghost use Rattle.sh_script.specs.States as st;
ghost use Rattle.sh_script.specs.States.{less};
ghost use Rattle.sh_tree.specs.Seen.{state};
ghost use Rattle.sh_script.specs.Acts as act;

use crate::builder::Builder;
use crate::rows::{all_in_front, in_front};
use crate::taking::{commands_in, joined_in};
use crate::value::Value;
use rk_base::NoMemory;
use sh_ast::{Command, Connector};
use sh_nodes::{Row, commands_of, connectors_of};
use std::alloc::Global;

/// No commands.
#[tactic(auto, unfolding(crate::specs::Seen::seen))]
pub fn no_commands(b: &mut Builder, alloc: Global) -> Result<(), NoMemory>
    ensures { OnOk result (state b.new ≡ act.no_commands (state b.old)) }
{
    b.put(Value::Commands(Row::new(alloc)))
}

/// Commands in front of commands.
#[tactic(auto, unfolding(crate::specs::Seen::seen))]
pub fn more_commands(b: &mut Builder, alloc: Global) -> Result<(), NoMemory>
    ensures { OnOk result (state b.new ≡ act.more_commands (state b.old)) }
{
    let front = commands_in(alloc, b.pop());
    let mut commands = commands_in(alloc, b.pop());
    commands.add_all(front)?;
    b.put(Value::Commands(commands))
}

/// Commands in front of commands, behind a pipe and line breaks.
pub fn piped(b: &mut Builder, alloc: Global) -> Result<(), NoMemory>
    ensures { OnOk result (state b.new ≡ act.more_commands (less (less (state b.old)))) }
{
    b.skip();
    b.skip();
    more_commands(b, alloc)
}

fn pipeline(
    b: &mut Builder,
    alloc: Global,
    negated: bool,
    commands: Row<Command>,
) -> Result<(), NoMemory>
    ensures { OnOk result (state b.new ≡ st.with (act.pipeline negated (map c.command commands)) (state b.old)) }
{
    let list = commands_of(alloc, commands)?;
    b.put_command(alloc, Command::Pipeline(negated, list))
}

/// A pipeline behind `!`.
pub fn negated(b: &mut Builder, alloc: Global) -> Result<(), NoMemory>
    ensures { OnOk result (state b.new ≡ act.negated (state b.old)) }
{
    b.skip();
    let front = commands_in(alloc, b.pop());
    let mut commands = commands_in(alloc, b.pop());
    commands.add_all(front)?;
    pipeline(b, alloc, true, commands)
}

// Commands in front of commands, as a pipeline.
fn several(
    b: &mut Builder,
    alloc: Global,
    front: Row<Command>,
    commands: Row<Command>,
) -> Result<(), NoMemory>
    ensures { OnOk result (state b.new ≡ st.with (act.pipeline false (map c.command front ++ map c.command commands)) (state b.old)) }
{
    let commands = all_in_front(front, commands)?;
    pipeline(b, alloc, false, commands)
}

// Commands in front of commands, as a pipeline; where none stand behind them, themselves.
#[tactic(auto, unfolding(crate::specs::Seen::seen), using(crate::proofs::MadeLemmas::piped_some))]
fn piped_in_front(
    b: &mut Builder,
    alloc: Global,
    front: Row<Command>,
    commands: Row<Command>,
) -> Result<(), NoMemory>
    ensures { OnOk result (state b.new ≡ st.with (act.piped (map c.command front) (map c.command commands)) (state b.old)) }
{
    if commands.is_empty() {
        drop(commands);
        return b.put(Value::Commands(front));
    }
    several(b, alloc, front, commands)
}

/// A pipeline; a command alone is itself.
pub fn plain(b: &mut Builder, alloc: Global) -> Result<(), NoMemory>
    ensures { OnOk result (state b.new ≡ act.plain (state b.old)) }
{
    let front = commands_in(alloc, b.pop());
    let commands = commands_in(alloc, b.pop());
    piped_in_front(b, alloc, front, commands)
}

/// Nothing is joined.
#[tactic(auto, unfolding(crate::specs::Seen::seen))]
pub fn alone(b: &mut Builder, alloc: Global) -> Result<(), NoMemory>
    ensures { OnOk result (state b.new ≡ act.alone (state b.old)) }
{
    b.put(Value::Joined(Row::new(alloc), Row::new(alloc)))
}

/// An operator and a pipeline in front of what follows.
#[tactic(auto, unfolding(crate::specs::Seen::seen))]
pub fn joined(b: &mut Builder, alloc: Global, connector: Connector) -> Result<(), NoMemory>
    ensures { OnOk result (state b.new ≡ act.connected connector (state b.old)) }
{
    b.skip();
    b.skip();
    let front = commands_in(alloc, b.pop());
    let (connectors, pipelines) = joined_in(alloc, b.pop());
    let pipelines = all_in_front(front, pipelines)?;
    let connectors = in_front(connector, connectors)?;
    b.put(Value::Joined(connectors, pipelines))
}

// Pipelines in front of pipelines, as an AND-OR list; where nothing connects them, those in front.
#[tactic(auto, unfolding(crate::specs::Seen::seen), using(crate::proofs::MadeLemmas::chained_some))]
fn chained(
    b: &mut Builder,
    alloc: Global,
    front: Row<Command>,
    connectors: Row<Connector>,
    pipelines: Row<Command>,
) -> Result<(), NoMemory>
    ensures { OnOk result (state b.new ≡ st.with (act.chain (map c.command front) connectors (map c.command pipelines)) (state b.old)) }
{
    if connectors.is_empty() {
        drop(pipelines);
        return b.put(Value::Commands(front));
    }
    let pipelines = all_in_front(front, pipelines)?;
    let pipelines = commands_of(alloc, pipelines)?;
    let connectors = connectors_of(alloc, connectors)?;
    b.put_command(alloc, Command::AndOr(pipelines, connectors))?;
    Ok(())
}

/// An AND-OR list; a pipeline alone is itself.
pub fn and_or(b: &mut Builder, alloc: Global) -> Result<(), NoMemory>
    ensures { OnOk result (state b.new ≡ act.and_or (state b.old)) }
{
    let front = commands_in(alloc, b.pop());
    let (connectors, pipelines) = joined_in(alloc, b.pop());
    chained(b, alloc, front, connectors, pipelines)
}
