//! Carries out files of steps for folders, plans, lists of calls that are finished, and made workloads, a step a line with what is wanted beside it, and prints
//! for each file how many steps there were, and what came otherwise.
#![tactic(auto)]

mod alternating;
mod folders;
mod made;
mod plans;
mod real;
mod recoveries;

use crate::alternating::Alternations;
use crate::folders::Held;
use crate::made::Made;
use crate::real::Real;
use crate::recoveries::Recoveries;
use rk_base::NoMemory;
use rk_steps::{Subjects, Told, run_files, steps_of, subject_of};
use std::process::ExitCode;

struct Program;

impl Subjects<HostRuntime> for Program {
    fn told_of(rt: &HostRuntime, name: &str, text: &str) -> Result<Option<Told>, NoMemory> {
        let alloc = rt.alloc();
        let told = match subject_of(text) {
            "alternations" => steps_of(alloc, name, text, Alternations::new(alloc))?,
            "folder" => steps_of(alloc, name, text, Held::new(alloc))?,
            "made" => steps_of(alloc, name, text, Made::new(alloc))?,
            "recoveries" => steps_of(alloc, name, text, Recoveries::new(alloc))?,
            "real" => steps_of(alloc, name, text, Real::new(rt.clone()?))?,
            _ => return Ok(None),
        };
        Ok(Some(told))
    }
}

fn main(rt: HostRuntime) -> ExitCode {
    run_files::<HostRuntime, Program>(&rt)
}
