//! What a folder holds, what of a snapshot it doesn't keep, and the plan that leads from what it holds to what it is to hold.
#![tactic(auto)]

mod attributes;
mod holding;
mod imported;
mod planning;
mod writing;

pub use attributes::{attrs_of, rows_keep};
pub use holding::Holding;
pub use imported::imported_holds;
pub use planning::{plan, planned_leads};
