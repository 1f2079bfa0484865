//! The builtins of the shell that are utilities too: `cd`, `read`, `echo`, `printf`, `pwd`, `test`, `[`, `true` and
//! `false` (XCU 1.6, 2.14 and 4), as machines that are lent the shell's environment.
#![tactic(auto)]

mod builtin;
mod cd;
mod command;
mod echo;
mod fields;
mod laws;
mod line;
mod marks;
mod name;
mod options;
mod printf;
mod read;
mod stage;
mod telling;
mod test;

pub use builtin::Builtin;
pub use command::BuiltinCommand;
pub use laws::{
    builtins_by_name_say_what_commands_may, builtins_keep_what_is_alike,
    builtins_say_what_commands_may, one_line, one_value_each,
};
pub use name::is_builtin;
