//! The options of utilities, read by a table.
#![tactic(auto)]

mod args;
mod complaint;
mod form;
mod letters;
mod numbers;
mod opts;
mod usage;
mod words;

pub use args::{Args, UsageOr};
pub use complaint::Complaint;
pub use form::{Form, Opt, unsigned};
pub use numbers::{number, number_or};
pub use opts::{Given, OptList};
pub use usage::begin;
pub use words::{copies, first_word, options};
