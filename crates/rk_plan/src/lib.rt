//! Which commands of a run don't depend on one another: its waves.
#![tactic(auto)]

mod event;
mod laws;
mod plan_err;
mod planning;
mod retrace;

pub use event::Event;
pub use laws::retraced;
pub use plan_err::PlanErr;
pub use planning::waves;
