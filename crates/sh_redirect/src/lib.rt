//! Redirections of the shell (XCU 2.7): its map of descriptors, and what a redirection does once its operand was expanded.
#![tactic(auto)]

mod answers;
mod descriptors;
mod kind;
mod laws;
mod redirecting;

pub use descriptors::DescriptorTable;
pub use kind::Redirect;
pub use laws::redirections_keep_what_is_alike;
pub use redirecting::{Redirecting, Turn};
