//! The syntax tree of a script, out of the marks that its reading leaves.
#![tactic(auto)]

mod act;
mod builder;
mod building;
mod compounds;
mod lists;
mod parts;
mod rows;
mod simple;
mod taking;
mod value;
mod words;

pub use building::build;
