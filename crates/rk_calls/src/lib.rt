//! What commands ask and are answered: calls, answers, keys, descriptors, and machines that ask.
#![tactic(auto)]

mod answer;
mod answerer;
mod answers;
mod call;
mod drive;
mod fitting;
mod key;
mod lines;
mod machine;
mod places;
mod refmap;
mod refs;
mod same;
mod turn;

pub use answer::Answer;
pub use answerer::Answerer;
pub use answers::{brought, joined};
pub use call::{Call, How};
pub use drive::{Spoke, advance};
pub use fitting::fits;
pub use key::Key;
pub use lines::{error_line, turns};
pub use machine::{Machine, Maker};
pub use places::absolute;
pub use refmap::RefMap;
pub use refs::Refs;
pub use same::{same_answer, same_call};
pub use turn::Turn;
