//! The syntax of the shell: words with the quoting of each part, redirections, and commands.
#![tactic(auto)]

mod command;
mod get;
mod parameter;
mod word;

pub use command::{
    Assignment, Assignments, Branch, Branches, CaseItem, CaseItems, Command, CommandList, Compound,
    Connector, Connectors, LoopKind, Redirect, RedirectOperator, Redirects, SimpleCommand, Word,
    Words,
};
pub use parameter::Parameter;
pub use word::{Condition, Part, Parts, Quoting, Removal, Substitute};
