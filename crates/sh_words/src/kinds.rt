// What a simple command is, by its fields.
ghost use Rattle.std.specs.Prelude.{◌≡◌, IfOk};
ghost use Rattle.std.specs.FinMap.{get};
ghost use Rattle.sh_means.specs.Simple.{kind_of, called_kind};
ghost use Rattle.sh_means.specs.Stack.{kind_of_code};
ghost use Rattle.sh_means.specs.Views.{functions_of};

use rk_base::{NoMemory, WordList};
use sh_builtin::is_builtin;
use sh_means::control::CommandKind;
use sh_means::functions::Functions;
use sh_special::order_of;
use std::alloc::Global;

fn called_kind(name: &[u8], functions: &Functions) -> Result<CommandKind, NoMemory>
    ensures { IfOk result (λ k. kind_of_code k ≡ called_kind name.now (get (functions_of functions.now) name.now)) }
{
    match functions.get(name) {
        Some(callee) => {
            let callee = callee.clone()?;
            Ok(CommandKind::Calls(callee))
        }
        None => {
            if is_builtin(name) {
                Ok(CommandKind::Builtin)
            } else {
                Ok(CommandKind::Launches)
            }
        }
    }
}

/// A special builtin stands before a function, a function before a builtin, and any other name is launched (XCU 2.9.1).
pub(crate) fn kind_of(
    alloc: Global,
    fields: &WordList,
    functions: &Functions,
) -> Result<CommandKind, NoMemory>
    ensures { IfOk result (λ k. kind_of_code k ≡ kind_of fields.now (functions_of functions.now)) }
{
    match fields.as_slice() {
        [] => Ok(CommandKind::Bare),
        [name, ..] => match order_of(alloc, fields)? {
            Some(order) => Ok(CommandKind::Special(order)),
            None => called_kind(name.as_slice(), functions),
        },
    }
}
