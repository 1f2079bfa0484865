//! The grammar of the shell as a table that a reader goes by: what each rule spells, and which rule a token chooses.
#![tactic(auto)]

mod choice;
mod mark;
mod part;
mod rule;
mod spelled;

pub use choice::{Begins, choose, mode, same_kind, same_mode};
pub use mark::{Mark, Marks};
pub use part::Part;
pub use rule::Rule;
pub use spelled::{Symbol, spelling};
