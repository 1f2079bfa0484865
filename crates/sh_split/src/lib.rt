//! Field splitting (XCU 2.6.5): an expanded word, as bytes marked by where they come from, is cut into fields; and values
//! and texts as such bytes.
#![tactic(auto)]

mod joining;
mod laws;
mod mark;
mod marked;
mod pass;
mod split;

pub use joining::{first_byte, joined};
pub use laws::one_cutting;
pub use mark::{Field, Mark, MarkKind, kind_of_mark};
pub use marked::{captured, pattern_of, put_all, put_given, put_literal, text_of};
pub use split::split_fields;
