//! Carries out files of steps for pieces of commands and their waves, and for plans of recorded runs, a step a line with what is wanted beside it, and
//! prints for each file how many steps there were, and what came otherwise.
#![tactic(auto)]

mod placed;
mod planned;

use crate::placed::Placed;
use crate::planned::Planned;
use rk_base::NoMemory;
use rk_steps::{Subjects, Told, run_files, steps_of, subject_of};
use std::process::ExitCode;

struct Program;

impl Subjects<HostRuntime> for Program {
    fn told_of(rt: &HostRuntime, name: &str, text: &str) -> Result<Option<Told>, NoMemory> {
        let alloc = rt.alloc();
        let told = match subject_of(text) {
            "pieces" => steps_of(alloc, name, text, Placed::new(alloc))?,
            "plans" => steps_of(alloc, name, text, Planned::new(alloc))?,
            _ => return Ok(None),
        };
        Ok(Some(told))
    }
}

fn main(rt: HostRuntime) -> ExitCode {
    run_files::<HostRuntime, Program>(&rt)
}
