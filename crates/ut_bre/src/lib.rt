//! Basic regular expressions (XBD 9.3): what a text reads as, and the leftmost longest match in a line.
#![tactic(auto)]

mod back;
mod bracket;
mod bre;
mod by_sets;
mod chosen;
mod ends;
mod error;
mod fault;
mod find;
mod fit;
mod flow;
mod group;
mod groups;
mod halt;
mod halves;
mod image;
mod interval;
mod last;
mod law;
mod mark;
mod needed;
mod parts;
mod pick;
mod place_rows;
mod reader;
mod relation;
mod row;
mod rows;
mod run;
mod search;
mod set;
mod size;
mod starts;
mod table;
mod tree;
mod turn_rows;

pub use bre::Bre;
pub use error::BreErr;
pub use group::{Found, GroupList, Span};
pub use law::{groups_have_places, one_match, spelling_reads_back};
pub use mark::Marks;
