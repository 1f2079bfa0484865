//! The nodes of a script's syntax tree, as they are made: lists in no more room than they take, and what comes again shared.
#![tactic(auto)]

mod empties;
mod lists;
mod places;
mod row;
mod shared;
mod simple;
mod singles;
mod texts;
mod words;

pub use lists::{branches_of, case_items_of, commands_of, connectors_of, parts_of, words_of};
pub use places::{PLACES, place_of};
pub use row::Row;
pub use shared::Shared;
pub use singles::{Single, SingleKind};
pub use words::{NewWord, new_word, word_of};
