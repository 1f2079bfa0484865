//! File utilities: one machine that does tasks in order, and the tasks of each utility.
#![tactic(auto)]

mod answers;
mod beginning;
mod complaints;
mod cost;
mod file_task;
mod first;
mod linking;
mod making;
mod manner;
mod modes;
mod operands;
mod removing;
mod step;
mod targets;
mod task;
mod utility;
mod worker;

pub use answers::{
    Stood, found, is_exists, is_no_entry, names_in, place_in, refusal, same_in, text_in,
};
pub use beginning::{Tasked, begin_found, first_word};
pub use complaints::{alone, bad_option, complain, complaint, refused, usage};
pub use file_task::FileTask;
pub use manner::Manner;
pub use modes::bits;
pub use operands::{basename, below, dirname};
pub use step::WorkItem;
pub use targets::{Aim, aim_at, goal, sources_of, target_of, the_target};
pub use task::Task;
pub use utility::{FileUtility, Utility, start};
pub use worker::Worker;
