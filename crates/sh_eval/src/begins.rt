// What the shell of a key does before its script is evaluated (XCU `sh`).
ghost use Rattle.std.specs.Prelude.{◌≡◌, Bool, IfOk};
ghost use Rattle.rk_calls.specs.Brought.{brought};
ghost use Rattle.rk_calls.specs.declared.answer.Answer.TheVariants as answer;
ghost use Rattle.sh_means.specs.Begins.{begins};
ghost use Rattle.sh_means.specs.Flows.{Next, outermost};
ghost use Rattle.sh_means.specs.Run.{run};
ghost use Rattle.sh_means.specs.Stack.{Steps};
ghost use Rattle.sh_means.specs.Starts.{fails, is_directory, has_x, looked, runs_script, runs_command, script_opened, script_read};
ghost use Rattle.sh_means.specs.Views.{shell_of};
ghost use Rattle.sh_means.specs.Weights.{Sinks};

use rk_base::{Bytes, FileType, NoMemory};
use rk_calls::{Answer, Call, How, Turn, absolute, brought};
use sh_means::control::{Acted, Begin, Control, WordStep};
use sh_means::flow::{Flow, Place};
use sh_means::state::State;
use sh_means::steps::{free, refuse, tell};
use std::alloc::Global;

/// The place of a whole script.
pub(crate) fn outermost() -> Place
    ensures { result ≡ outermost }
{
    Place {
        loops: 0,
        returns: false,
        ignores: false,
    }
}

// A script that can't be read.
fn fail(
    alloc: Global,
    file: &Bytes,
    what: &[u8],
    status: u8,
    state: &mut State,
) -> Result<Acted, NoMemory>
    ensures talk { IfOk result (λ t. (k : Next) → Steps (fails file.now what.now status k (shell_of state.old)) k (shell_of state.new) t) }
    ensures costly { IfOk result (Sinks 3) }
{
    refuse(alloc, file.as_slice(), what, Flow::Exits, status, state)
}

fn open(alloc: Global, file: Bytes, state: &State) -> Result<Acted, NoMemory>
    ensures talk { IfOk result (λ t. (k : Next) → Steps (runs_script run file k (shell_of state.now)) k (shell_of state.now) t) }
    ensures costly { IfOk result (Sinks 3) }
{
    let path = absolute(alloc, &state.env.wd, file.as_slice())?;
    Ok(Acted {
        turn: Turn::Ask(Call::Open(path, How::Read), 1),
        control: Control::Begins(Begin::Opened(file, state.env.next)),
    })
}

fn look(alloc: Global, file: Bytes, state: &State) -> Result<Acted, NoMemory>
    ensures talk { IfOk result (λ t. (k : Next) → Steps (runs_command run file k (shell_of state.now)) k (shell_of state.now) t) }
    ensures costly { IfOk result (Sinks 3) }
{
    let path = absolute(alloc, &state.env.wd, file.as_slice())?;
    Ok(Acted {
        turn: Turn::Ask(Call::Stat(path, true), 1),
        control: Control::Begins(Begin::Looked(file)),
    })
}

fn is_directory(kind: FileType) -> bool
    ensures { result ≡ is_directory kind }
{
    match kind {
        FileType::File => false,
        FileType::Dir => true,
        FileType::Link => false,
    }
}

// Whether the owner may run it.
fn has_x(mode: u16) -> bool
    ensures { result ≡ has_x mode }
{
    mode / 64 % 2 == 1
}

// What was looked up is opened, or refused.
fn found(
    alloc: Global,
    file: Bytes,
    kind: FileType,
    mode: u16,
    state: &mut State,
) -> Result<Acted, NoMemory>
    ensures talk { IfOk result (λ t. (empty : Bool) (k : Next) → Steps (looked run file k (answer.Stat kind mode empty) (shell_of state.old)) k (shell_of state.new) t) }
    ensures costly { IfOk result (Sinks 3) }
{
    if is_directory(kind) {
        return fail(alloc, &file, b"is a directory", 126, state);
    }
    if has_x(mode) {
        return open(alloc, file, state);
    }
    fail(alloc, &file, b"denied", 126, state)
}

fn looked(alloc: Global, file: Bytes, answer: Answer, state: &mut State) -> Result<Acted, NoMemory>
    ensures talk { IfOk result (λ t. (k : Next) → Steps (looked run file k answer (shell_of state.old)) k (shell_of state.new) t) }
    ensures costly { IfOk result (Sinks 3) }
{
    match answer {
        Answer::No(errno) => fail(alloc, &file, errno.word().as_bytes(), 127, state),
        Answer::Stat { kind, mode, .. } => found(alloc, file, kind, mode, state),
        Answer::Go => open(alloc, file, state),
        Answer::Done => open(alloc, file, state),
        Answer::Opened => open(alloc, file, state),
        Answer::Piped => open(alloc, file, state),
        Answer::Content(_) => open(alloc, file, state),
        Answer::Names(_) => open(alloc, file, state),
        Answer::Text(_) => open(alloc, file, state),
        Answer::Place(_) => open(alloc, file, state),
        Answer::Same(_) => open(alloc, file, state),
        Answer::Joined(_) => open(alloc, file, state),
    }
}

fn script_opened(
    alloc: Global,
    file: Bytes,
    n: u64,
    answer: Answer,
    state: &mut State,
) -> Result<Acted, NoMemory>
    ensures talk { IfOk result (λ t. (k : Next) → Steps (script_opened run file n k (brought answer) (shell_of state.old)) k (shell_of state.new) t) }
    ensures costly { IfOk result (Sinks 3) }
{
    let it = brought(alloc, answer)?;
    match it {
        Ok(_) => Ok(Acted {
            turn: Turn::Ask(Call::Read(n), 1),
            control: Control::Begins(Begin::Read(file)),
        }),
        Err(errno) => fail(alloc, &file, errno.word().as_bytes(), 127, state),
    }
}

fn script_read(
    alloc: Global,
    file: Bytes,
    answer: Answer,
    state: &mut State,
) -> Result<Acted, NoMemory>
    ensures talk { IfOk result (λ t. (k : Next) → Steps (script_read run file k (brought answer) (shell_of state.old)) k (shell_of state.new) t) }
    ensures costly { IfOk result (Sinks 3) }
{
    let it = brought(alloc, answer)?;
    match it {
        Ok(text) => Ok(free(Control::WordStep(WordStep::Text(outermost(), file, text)))),
        Err(errno) => fail(alloc, &file, errno.word().as_bytes(), 127, state),
    }
}

/// One step before the script is evaluated, with the answer that was heard.
pub(crate) fn act_begin(
    alloc: Global,
    begin: Begin,
    answer: Answer,
    state: &mut State,
) -> Result<Acted, NoMemory>
    ensures talk { IfOk result (λ t. (k : Next) → Steps (begins begin k answer (shell_of state.old)) k (shell_of state.new) t) }
    ensures costly { IfOk result (Sinks 3) }
{
    match begin {
        Begin::Misused(line) => Ok(tell(line, Flow::Exits, 2, state)),
        Begin::Script(file) => open(alloc, file, state),
        Begin::Command(file) => look(alloc, file, state),
        Begin::Looked(file) => looked(alloc, file, answer, state),
        Begin::Opened(file, n) => script_opened(alloc, file, n, answer, state),
        Begin::Read(file) => script_read(alloc, file, answer, state),
    }
}
