//! The evaluator of the shell (XCU 2.9): the machine that evaluates scripts.
#![tactic(auto)]

mod begins;
mod machine;
mod reading;
mod shell;

pub use shell::Shell;
