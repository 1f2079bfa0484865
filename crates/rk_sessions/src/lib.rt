//! What sessions of builds are made of: the steps of their files, records as text, bytes that are altered, folders that are
//! copied, what came as text, and what is drawn for made ones.
#![tactic(auto)]

mod altering;
mod copying;
mod drawing;
mod numbers;
mod showing;
mod steps;
mod talks;

pub use altering::{altered, bytes_of, cut, turned};
pub use copying::copied;
pub use drawing::{Draws, SOURCES, script, source};
pub use numbers::{number, size, status};
pub use showing::{
    asks_change, calls_shown, changes_shown, contents, has_line, has_numbered, kind_at, ran,
    reads_list, rows_at, shown, text_at, unexplained,
};
pub use steps::{SessionStep, StepKind, steps_of};
pub use talks::db_of;
