//! The trace of a build: the records of its commands, in launch order.
#![tactic(auto)]

mod contents;
mod index;
mod kept;
mod known;
mod list;
mod pool;
mod records;
mod same;
mod steps;
mod table;
mod walk;

pub use contents::RecordedContents;
pub use kept::Kept;
pub use known::KnownHeads;
pub use list::StepList;
pub use pool::StepPool;
pub use records::Record;
pub use steps::Step;
pub use table::Table;
pub use walk::Walk;
