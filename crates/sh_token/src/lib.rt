//! What the tokens of the shell are made of, and what each of them is by definition.
#![tactic(auto)]

pub mod blanks;
pub mod body;
pub mod brackets;
pub mod bytes;
pub mod delimiter;
pub mod effect;
pub mod expansions;
pub mod extents;
pub mod fault;
pub mod folded;
pub mod front;
pub mod kinds;
pub mod laws;
pub mod place;
pub mod quotes;
pub mod recognizer;
pub mod reserved;
pub mod unread;
pub mod words;
