// Scripts.
ghost use Rattle.std.specs.Prelude.{◌≡◌, ◌≤◌, length, IfOk, IfErr};
ghost use Rattle.sh_ast.specs.Commands as c;
ghost use Rattle.sh_token.specs.declared.fault.ScriptFault as faults;
ghost use Rattle.sh_token.specs.Faults.{told};
ghost use Rattle.sh_script.specs.Scripts.{IsScript, IsFaulty, longest};
ghost use Rattle.sh_parse.specs.Answering.{IsAnswer, IsFaultTold, Tells, IsOnlyScript, IsOnlyFault};

use crate::reading::read_marks;
use crate::source::ParseErr;
use crate::text::Tokens;
use rk_base::NoMemory;
use sh_ast::CommandList;
use sh_lex::{Cursor, ScriptFault, Why};
use sh_tree::build;
use std::alloc::Global;
use std::rc::Rc;

/// The most bytes that a script may have.
pub const LONGEST: usize = 16_777_216;

/// A script: its commands.
#[derive(Drop)]
pub struct Script {
    pub commands: Rc<CommandList>,
}

/// Why no script was read.
#[derive(Drop)]
pub enum ReadErr {
    /// The text is none.
    Fault(ScriptFault),
    /// There was no memory.
    NoMemory,
}

// The fault where the cursor stands.
fn fault(alloc: Global, cursor: &Cursor, deep: bool) -> ReadErr
    ensures { Tells (told deep cursor.now) result }
{
    match cursor.fault(alloc, deep) {
        Ok(fault) => ReadErr::Fault(fault),
        Err(_) => ReadErr::NoMemory,
    }
}

// Reads a text that isn't too long.
#[tactic(auto, using(crate::proofs::Whole::script_answer, crate::proofs::Whole::blocked_answer, crate::proofs::Whole::deep_answer))]
fn read(alloc: Global, text: &[u8]) -> Result<Script, ReadErr>
    requires { length text.now ≤ longest }
    ensures { IsAnswer text.now result }
{
    let mut tokens = match Tokens::new(alloc, text) {
        Err(_) => return Err(ReadErr::NoMemory),
        Ok(tokens) => tokens,
    };
    match read_marks(alloc, &mut tokens) {
        Err(stop) => match stop {
            ParseErr::Memory => Err(ReadErr::NoMemory),
            ParseErr::Blocked => Err(fault(alloc, &tokens.cursor, false)),
            ParseErr::Deep => Err(fault(alloc, &tokens.cursor, true)),
        },
        Ok(marks) => match build(alloc, marks) {
            Err(_) => Err(ReadErr::NoMemory),
            Ok(commands) => Ok(Script { commands }),
        },
    }
}

fn answer(alloc: Global, text: &[u8]) -> Result<Script, ReadErr>
    ensures { IsAnswer text.now result }
{
    if text.len() > LONGEST {
        Err(ReadErr::Fault(ScriptFault {
            at: LONGEST,
            why: Why::Long,
        }))
    } else {
        read(alloc, text)
    }
}

/// Reads a text as a script (XCU 2.2 to 2.10). A fault tells the first place, in bytes, at which no script goes on with what
/// stands there; want of memory is told as such.
#[tactic(auto, using(crate::proofs::Whole::the_only_script, crate::proofs::Whole::the_only_fault))]
pub fn read_script(alloc: Global, text: &[u8]) -> Result<Script, ReadErr>
    // What is read is the script that the text is.
    ensures script { IfOk result (λ s. IsScript text.now (c.commands s.commands.value)) }
    // What is told is the text's fault, unless memory ran out.
    ensures fault { IfErr result (λ e. IsFaultTold text.now e) }
    // A text that is a script is read as it, unless memory runs out.
    ensures only_script { (s : c.CommandsTree) → IsScript text.now s → IsOnlyScript s result }
    // The fault of a faulty text is told, unless memory runs out.
    ensures only_fault { (f : faults.ScriptFault) → IsFaulty text.now f → IsOnlyFault f result }
{
    answer(alloc, text)
}
