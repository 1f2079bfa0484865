//! What is told of records, byte for byte: the lines of the commands that a build ran, and why; a trace as lines, and as JSON.
#![tactic(auto)]

mod command;
mod json;
mod ran;
mod showing;
mod trace;

pub use json::trace_json;
pub use ran::{Why, add_launched, add_ran};
pub use showing::shown;
pub use trace::{records_text, trace_text};
