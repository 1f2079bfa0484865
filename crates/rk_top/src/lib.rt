//! `rkr` as one call over a folder and two sinks.
#![tactic(auto)]

mod command;
mod commands;
mod generate;
mod in_memory;
mod laws;
mod queries;
mod recovering;
mod top;

pub use commands::Commands;
pub use in_memory::{rkr_in_memory, started_in_memory};
pub use laws::have_one_line;
pub use rk_build::{
    Outcome, StateFile, build_in, exit_code, finds_next, fresh_spoken, refused_settle,
    spoken_settle, stays_well, stops_finish,
};
pub use rk_request::{Request, RequestErr, request};
pub use top::rkr;
pub use tr_parts::Damage;
