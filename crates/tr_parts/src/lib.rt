//! What the spellings of files share: numbers and strings, and the digest at the end.
#![tactic(auto)]

mod fault;
mod pushing;
mod reading;
mod sealing;

pub use fault::{CodecErr, Damage, PartErr};
pub use pushing::{push_number, push_string};
pub use reading::{byte_of, cost_of, count_of, mode_of, number_of, path_of, string_of};
pub use sealing::{is_same, open_seal, seal};
