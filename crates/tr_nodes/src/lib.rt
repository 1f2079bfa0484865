//! Records whose ends are shared: nodes, each a step and the number of the rest. Definitions and laws; there is no code.
#![tactic(auto)]

mod laws;

pub use laws::{known_by_numbers, one_spelling};
