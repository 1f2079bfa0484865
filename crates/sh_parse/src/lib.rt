//! Scripts, read whole: a text is a script and has one tree, or it has one fault.
#![tactic(auto)]

mod ahead;
mod reader;
mod reading;
mod script;
mod source;
mod text;
mod texts;
mod todo;

pub use reader::{Read, read_text};
pub use script::{LONGEST, ReadErr, Script, read_script};
