//! Tokens of the shell, in a text that is read without its joined lines (XCU 2.2, 2.3).
#![tactic(auto)]

mod commands;
mod cursor;
mod documents;
mod levels;
mod lexeme;
mod lexer;
mod moves;
mod operators;
mod place;
mod queue;
mod table;
mod taken;
mod telling;

pub use cursor::TakeErr;
pub use lexer::{LexErr, Lexer, Token};
pub use place::Cursor;
pub use sh_token::effect::Effect;
pub use sh_token::fault::{ScriptFault, Why};
pub use sh_token::kinds::mode_of;
pub use sh_token::place::Words;
pub use taken::Taken;
