//! Builds over the tables of earlier builds: what was recorded is asked again of the world, and a machine is
//! made only where no kept record goes on so.
#![tactic(auto)]

mod activity;
mod as_found;
mod build;
mod causes;
mod checking;
mod hearing;
mod known;
mod paying;
mod ran;
mod replay;
mod script;
mod still;
mod stop;
mod talks;
mod torn;

pub use as_found::is_as_found;
pub use build::{Built, build_with};
pub use checking::{check_with, record_count};
pub use paying::paid;
pub use ran::{Ran, RanList};
pub use script::script_key;
pub use stop::ReplayErr;
pub use tr_matching::Cause;
