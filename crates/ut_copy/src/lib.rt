//! `mv` and `cp`, on the machine of file utilities.
#![tactic(auto)]

mod copy_task;
mod copying;
mod deep;
mod moving;
mod pair;
mod place;
mod utility;

pub use copy_task::CopyTask;
pub use pair::Pair;
pub use utility::{CopyUtility, Utility, start};
