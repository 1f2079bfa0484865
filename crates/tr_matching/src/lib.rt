//! Commands matched with the records of their key, of all tables that are kept.
#![tactic(auto)]

mod answer_key;
mod cause;
mod common;
mod distinct;
mod earlier;
mod first;
mod group;
mod groups;
mod member;
mod next;
mod numbers;
mod part_index;
mod parting;
mod place;
mod talks;

pub use cause::Cause;
pub use distinct::distinct_talks;
pub use earlier::Earlier;
pub use first::{first_group, first_place};
pub use group::Group;
pub use member::{Member, MemberList};
pub use next::Next;
pub use part_index::PartIndex;
pub use place::{Place, Taken};
pub use talks::{next_from, take};
