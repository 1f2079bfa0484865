//! The attributes of paths, as bytes: one spelling.
#![tactic(auto)]

mod attrs;
mod laws;

pub use attrs::{read_attrs, write_attrs};
pub use laws::{one_attrs, read_back_attrs};
