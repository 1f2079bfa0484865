//! Runs of commands that launch commands, with their records, and whether records are what their commands say, over any
//! maker of machines and any world.
#![tactic(auto)]

mod active;
mod check;
mod difference;
mod feeding;
mod laws;
mod purse;
mod turns;

pub use active::{Active, Frame, ask, join};
pub use check::{CheckErr, check_record, check_with};
pub use difference::first_difference;
pub use feeding::{Fed, FeedErr, feed};
pub use laws::fresh_runs;
pub use purse::pay;
pub use turns::own;
