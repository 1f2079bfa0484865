//! A build as one call over a folder and two sinks, by the machines of any maker, and how it ends.
#![tactic(auto)]

mod after;
mod build;
mod checked;
mod entry;
mod exits;
mod explain;
mod found;
mod kept;
mod laws;
mod lines;
mod look;
mod options;
mod outcome;
mod prepare;
mod run;
mod stop;
mod texts;
mod work;

pub use entry::build_in;
pub use exits::exit_code;
pub use kept::tables_in;
pub use laws::{finds_next, fresh_spoken, refused_settle, spoken_settle, stays_well, stops_finish};
pub use lines::tell;
pub use outcome::{Outcome, StateFile};
pub use stop::{BuildErr, Refusal};
