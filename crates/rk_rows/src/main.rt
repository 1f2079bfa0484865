//! Carries out files of steps for the public calls beneath builds, a step a line with what is wanted beside it, and prints
//! for each file how many steps there were, and what came otherwise.
#![tactic(auto)]

mod arithmetic;
mod expressions;
mod feet;
mod fetching;
mod names;
mod table;
mod tokens;
mod tree;
mod world;

use crate::arithmetic::Arithmetic;
use crate::expressions::Expressions;
use crate::fetching::Fetching;
use crate::names::Names;
use crate::tokens::Tokens;
use crate::tree::Grown;
use crate::world::Asked;
use rk_base::NoMemory;
use rk_steps::{Subjects, Told, run_files, steps_of, subject_of};
use std::process::ExitCode;

struct Program;

impl Subjects<HostRuntime> for Program {
    fn told_of(rt: &HostRuntime, name: &str, text: &str) -> Result<Option<Told>, NoMemory> {
        let alloc = rt.alloc();
        let told = match subject_of(text) {
            "arithmetic" => steps_of(alloc, name, text, Arithmetic::new(alloc))?,
            "expressions" => steps_of(alloc, name, text, Expressions::new(alloc))?,
            "fetching" => steps_of(alloc, name, text, Fetching::new(alloc))?,
            "names" => steps_of(alloc, name, text, Names::new(alloc))?,
            "tokens" => steps_of(alloc, name, text, Tokens::new(alloc))?,
            "tree" => steps_of(alloc, name, text, Grown::new(alloc))?,
            "world" => steps_of(alloc, name, text, Asked::new(alloc))?,
            _ => return Ok(None),
        };
        Ok(Some(told))
    }
}

fn main(rt: HostRuntime) -> ExitCode {
    run_files::<HostRuntime, Program>(&rt)
}
