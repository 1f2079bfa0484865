//! The steps of words and redirections (XCU 2.9.1): what words expand to and are for, and redirections, one after another.
#![tactic(auto)]

mod kinds;
mod literal;
pub mod making;
pub mod words;
