//! What the words of the command line ask for, read with `clap`.
#![tactic(auto)]

mod command_line;
mod decimal;
mod requests;
mod words;

pub use requests::{Request, RequestErr};
pub use words::{DEFAULT_STEPS, request};
