//! The special builtins of the shell (XCU 2.14): what their words order, and what they change of its variables.
#![tactic(auto)]

mod changes;
mod declaration;
mod invocation;
mod name;
mod options;
mod order;
mod ordering;
mod texts;

pub use changes::{declare_all, set_options, shift, unset_all};
pub use declaration::{Declaration, DeclarationList};
pub use invocation::{Start, copies, misused, read_options};
pub use options::Options;
pub use order::Order;
pub use ordering::order_of;
