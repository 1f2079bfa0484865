//! What is asked of a folder's database alone: to check its records, to show them, to forget them. Of the folder only
//! `.rkr` and its state files are looked at.
#![tactic(auto)]

mod checking;
mod database;
mod forgetting;
mod output;
mod showing;
mod stop;

pub use checking::check;
pub use forgetting::forget;
pub use showing::trace;
pub use stop::{QueryErr, Said};
