//! Contents by numbers: each stands once. Worlds that number the contents of their files.
#![tactic(auto)]

mod contents;
mod numbering;

pub use contents::{ContentId, Contents};
pub use numbering::Numbering;
