// Texts that are read at run time.
ghost use Rattle.std.specs.Prelude.{IfOk};
ghost use Rattle.rk_calls.specs.Brought.{brought};
ghost use Rattle.sh_means.specs.Flows.{Next};
ghost use Rattle.sh_means.specs.Run.{run};
ghost use Rattle.sh_means.specs.Simple.{Reads, dot_opened, dot_read};
ghost use Rattle.sh_means.specs.Stack.{Steps, context};
ghost use Rattle.sh_means.specs.Views.{shell_of};
ghost use Rattle.sh_means.specs.Weights.{Lowers, Sinks};

use rk_base::{Bytes, NoMemory};
use rk_calls::{Answer, Call, Turn, brought};
use sh_means::control::{Acted, Control, Undo, Wait, WordStep};
use sh_means::flow::{Flow, Place};
use sh_means::interpreter::Interpreter;
use sh_means::stack::put_undo;
use sh_means::state::State;
use sh_means::steps::{free, refuse};
use sh_parse::{Read, read_text};
use std::alloc::Global;

/// A text is evaluated; a fault of syntax ends the shell with status 2.
pub(crate) fn act_text(
    alloc: Global,
    place: Place,
    name: &Bytes,
    text: &Bytes,
    state: &mut State,
) -> Result<Acted, NoMemory>
    ensures talk { IfOk result (λ t. (k : Next) → Steps (run (Reads name.now text.now) place (shell_of state.old) k) k (shell_of state.new) t) }
    ensures costly { IfOk result (Sinks 2) }
{
    let read = read_text(alloc, text.as_slice())?;
    match read {
        Read::Script(commands) => Ok(free(Control::Whole(place, commands))),
        Read::Fault(words) => {
            let operand = name.as_slice();
            let what = words.as_slice();
            refuse(alloc, operand, what, Flow::Exits, 2, state)
        }
    }
}

/// Once a dot script was opened, whose number is n, or refused.
pub(crate) fn dot_opened(
    alloc: Global,
    place: Place,
    file: Bytes,
    n: u64,
    answer: Answer,
    state: &mut State,
) -> Result<Acted, NoMemory>
    ensures talk { IfOk result (λ t. (k : Next) → Steps (dot_opened run file n place k (brought answer) (shell_of state.old)) k (shell_of state.new) t) }
    ensures costly { IfOk result (Sinks 1) }
{
    let it = brought(alloc, answer)?;
    match it {
        Ok(_) => Ok(Acted {
            turn: Turn::Ask(Call::Read(n), 1),
            control: Control::Waits(Wait::Read(place, file)),
        }),
        Err(errno) => refuse(
            alloc,
            file.as_slice(),
            errno.word().as_bytes(),
            Flow::Exits,
            1,
            state,
        ),
    }
}

/// Once a dot script was read, or refused.
pub(crate) fn dot_read(
    place: Place,
    file: Bytes,
    answer: Answer,
    shell: &mut Interpreter,
) -> Result<Acted, NoMemory>
    ensures talk { IfOk result (Steps (dot_read run file place (context shell.old.stack.items) (brought answer) (shell_of shell.old.state)) (context shell.new.stack.items) (shell_of shell.new.state)) }
    ensures costly { IfOk result (Lowers 4 shell.old.stack.items shell.new.stack.items) }
{
    let it = brought(shell.alloc, answer)?;
    match it {
        Ok(text) => {
            put_undo(&mut shell.stack, Undo::Script)?;
            let inside = Place {
                returns: true,
                ..place
            };
            Ok(free(Control::WordStep(WordStep::Text(inside, file, text))))
        }
        Err(errno) => refuse(
            shell.alloc,
            file.as_slice(),
            errno.word().as_bytes(),
            Flow::Exits,
            1,
            &mut shell.state,
        ),
    }
}
