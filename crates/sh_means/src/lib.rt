//! What the commands of the shell mean (XCU 2.9), the state of a shell, and what its machine keeps: what comes next, and the
//! control stack of what is left to do.
#![tactic(auto)]

pub mod control;
pub mod expanding;
pub mod expansion;
pub mod flow;
pub mod functions;
pub mod interpreter;
pub mod items;
mod laws;
pub mod resolved_command;
pub mod stack;
pub mod state;
pub mod steps;

pub use flow::{Flow, Place};
pub use laws::{
    loops_are_counted_far_enough, scripts_say_what_commands_may, shells_say_what_commands_may,
    what_is_evaluated_again_means_its_job,
};
