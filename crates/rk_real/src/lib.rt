//! A directory of the machine as a folder, and its streams as sinks.
#![tactic(auto)]

mod folder;
mod lasting;
mod listing;
mod reading;
mod sink;

pub use folder::RealFolder;
pub use sink::RealSink;
