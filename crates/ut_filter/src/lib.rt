//! Filters: one machine that reads inputs, computes and writes, round a pure function.
#![tactic(auto)]

mod filter;
mod inputs;
mod laws;
mod lines;
mod made;
mod output;
mod parts;
mod reader;
mod refusals;
mod stage;
mod status;
mod telling;
mod work;

pub use filter::Filter;
pub use inputs::{or_dash, queue_of};
pub use laws::filters_say_what_commands_may;
pub use lines::{front_line, lines_without};
pub use made::{Input, InputList, Made, Measured};
pub use output::{Grown, HELD, Output};
pub use parts::{joined, joined_length};
pub use refusals::refusal_lines;
pub use status::status_of;
pub use work::Work;
