//! Text utilities: each is its options and its pure function.
#![tactic(auto)]

mod cat;
mod cmp;
mod count;
mod head;
mod laws;
mod start;
mod tail;
mod uniq;
mod utility;
mod wc;
mod work;

pub use cat::Cat;
pub use cmp::Cmp;
pub use head::Head;
pub use laws::text_utilities_say_what_commands_may;
pub use tail::Tail;
pub use uniq::Uniq;
pub use utility::TextUtility;
pub use wc::Wc;
pub use work::TextWork;
