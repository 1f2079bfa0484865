//! Byte strings, names and paths, refusals, the budget of turns and the count of steps.
#![tactic(auto)]

mod budget;
mod bytes;
mod errno;
mod file_type;
mod memory;
mod name;
mod names;
mod path;
mod shared;
mod sorting;
mod steps;
mod text;
mod variables;
mod vars;
mod words;
mod writing;

pub use budget::Budget;
pub use bytes::Bytes;
pub use errno::Errno;
pub use file_type::FileType;
pub use memory::NoMemory;
pub use name::Name;
pub use names::NameList;
pub use path::{Path, PathFault};
pub use shared::Shared;
pub use sorting::sort_texts;
pub use steps::Steps;
pub use text::{first_component, has_nul, is_name};
pub use variables::is_variable;
pub use vars::{Var, VarList};
pub use words::WordList;
