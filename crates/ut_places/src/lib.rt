//! Sets of places of a line, and where relations between places lead from them.
#![tactic(auto)]

mod places;
mod steps;

pub use places::Places;
pub use steps::{counted, counted_each, image};
