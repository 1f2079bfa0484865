//! The world that commands ask: a tree, open descriptions, pipes, output and error text; numbers for what is read of it; and
//! what is fetched where a call looks at it first.
#![tactic(auto)]

mod answer_err;
mod cell;
mod description;
mod fetching_world;
mod foot;
mod numbered;
mod pipe;
mod spot;
mod world;

pub use answer_err::AnswerErr;
pub use cell::{Cell, CellList};
pub use description::{Description, Source};
pub use fetching_world::FetchingWorld;
pub use foot::Foot;
pub use numbered::NumberedWorld;
pub use world::World;
