//! The calls of an install, sealed, and finished from wherever they were stopped.
#![tactic(auto)]

mod calling;
mod fault;
mod finishing;
mod installation;
mod knowing;
mod laws;
mod looking;
mod places;
mod recovery;

pub use calling::InstallErr;
pub use fault::RecoverErr;
pub use installation::install;
pub use laws::{finishes, installs};
pub use recovery::recover;
