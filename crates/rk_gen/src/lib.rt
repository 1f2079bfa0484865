//! A workload that a seed makes: a folder with a build's script, the edits between its builds, and the line that tells what
//! they came to; the folder stands in memory.
#![tactic(auto)]

mod changing;
mod draws;
mod edits;
mod figures;
mod files;
mod laws;
mod lines;
mod scripts;
mod start;
mod workload;

pub use changing::{change, start_folder};
pub use draws::Draws;
pub use edits::Edit;
pub use figures::{Figures, summary};
pub use files::File;
pub use laws::{edits_plainly, starts_plainly};
pub use scripts::Script;
pub use start::{Start, generate};
pub use workload::Workload;
