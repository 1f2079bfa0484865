//! Which script a text is, or which fault it has: definitions for what reads scripts and for what runs them, and their law;
//! and what the texts of tokens mean.
#![tactic(auto)]

mod law;
mod parameters;

pub use law::{documents_in_order, named_stands_there, one_script_or_fault, unclosed_is_outermost};
pub use parameters::{
    braced_parameter, byte_at, descriptor_of, operation, plain_parameter, removal, without_ends,
    without_first, without_last,
};
