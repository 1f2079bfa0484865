//! The steps of simple commands once they have their fields (XCU 2.9.1): assignments, and what a command does.
#![tactic(auto)]

pub mod assigning;
pub mod launching;
mod special;
