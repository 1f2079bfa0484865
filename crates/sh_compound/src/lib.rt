//! The steps of lists, pipelines and compound commands (XCU 2.9.2 to 2.9.5), and what a frame that is left leads to.
#![tactic(auto)]

pub mod commands;
pub mod compounds;
pub mod leaving;
mod undoing;
