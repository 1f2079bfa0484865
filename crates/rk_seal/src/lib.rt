//! The sealed list of an install's calls, as bytes: one spelling each.
#![tactic(auto)]

mod laws;
mod ops;
mod parts;
mod plan;
mod reading;
mod writing;

pub use laws::{one_list, read_back, spell_back};
pub use ops::{InstallList, Op};
pub use plan::Plan;
pub use reading::decode;
pub use writing::encode;
