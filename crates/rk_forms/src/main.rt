//! Carries out files of steps for records, attributes, the calls of installs and their spelling, a step a line with what is wanted
//! beside it, and prints for each file how many steps there were, and what came otherwise.
#![tactic(auto)]

mod attrs;
mod installs;
mod records;
mod spelling;

use crate::attrs::Attributes;
use crate::installs::Installs;
use crate::records::Records;
use rk_base::NoMemory;
use rk_steps::{Subjects, Told, run_files, steps_of, subject_of};
use std::process::ExitCode;

struct Program;

impl Subjects<HostRuntime> for Program {
    fn told_of(rt: &HostRuntime, name: &str, text: &str) -> Result<Option<Told>, NoMemory> {
        let alloc = rt.alloc();
        let told = match subject_of(text) {
            "attributes" => steps_of(alloc, name, text, Attributes::new(alloc))?,
            "install-lists" => steps_of(alloc, name, text, Installs::new(alloc))?,
            "records" => steps_of(alloc, name, text, Records::new(alloc))?,
            _ => return Ok(None),
        };
        Ok(Some(told))
    }
}

fn main(rt: HostRuntime) -> ExitCode {
    run_files::<HostRuntime, Program>(&rt)
}
