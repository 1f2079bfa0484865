//! Carries out sessions of edits and builds over folders in memory, by the builds of a program, and tells what came otherwise
//! than it is wanted.
#![tactic(auto)]

mod program;
mod session;
mod workload;

pub use program::{Built, End, Program};
pub use session::{Session, carried_out};
pub use workload::made;
