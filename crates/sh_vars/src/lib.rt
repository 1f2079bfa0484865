//! The variables of a shell with their flags, its positional parameters, and what else expansion and builtins are lent
//! (XCU 2.5).
#![tactic(auto)]

mod env;
mod numbers;
mod positional;
mod rows;
mod tree;
mod turns;
mod variable;
mod vars;

pub use env::Env;
pub use numbers::number_after;
pub use variable::Variable;
pub use vars::{Saved, VarErr, Vars};
