//! Carries out sessions of edits and builds over folders in memory, and prints for each file of them how many builds there
//! were, and what wasn't as it is wanted. With `--shown FILE` it prints what a terminal shows where the lines of a file are typed.
#![tactic(auto)]

mod calls;
mod terminal;

use crate::calls::Rkr;
use crate::terminal::screen_of;
use rk_base::NoMemory;
use rk_runner::{Session, carried_out, made};
use std::process::ExitCode;
use std::{env, fs, io};

fn print(rt: &HostRuntime, name: &str, came: Result<Session<Rkr>, NoMemory>) -> io::Result<()> {
    match came {
        Ok(session) => {
            print!(rt; "{}", session.told())?;
            println!(rt;
                "{name}: {} builds, {} otherwise",
                session.builds(),
                session.otherwise()
            )
        }
        Err(_) => println!(rt; "{name}: out of memory"),
    }
}

// What a terminal shows where the lines of a file are typed.
fn show(rt: &HostRuntime, name: &str) -> io::Result<()> {
    let text = fs::read_to_string(rt, name)?;
    match screen_of(rt.alloc(), text.as_str()) {
        Ok(screen) => print!(rt; "{screen}"),
        Err(_) => println!(rt; "{name}: out of memory"),
    }
}

// The sessions of each of these files, and then made ones.
fn run(rt: &HostRuntime, names: &[String]) -> io::Result<()> {
    'names: for name in names {
        let text = fs::read_to_string(rt, name.as_str())?;
        print(
            rt,
            name.as_str(),
            carried_out(rt.alloc(), Rkr, text.as_str()),
        )?;
    }
    'seeds: for seed in 0..4u64 {
        let name = format!(in rt.alloc(); "seed {seed}")?;
        print(rt, name.as_str(), made(rt.alloc(), Rkr, seed, 8))?;
    }
    Ok(())
}

fn status_of(done: io::Result<()>) -> ExitCode {
    match done {
        Ok(()) => ExitCode::SUCCESS,
        Err(_) => ExitCode::from(1),
    }
}

fn main(rt: HostRuntime) -> ExitCode {
    let words: Vec<String> = match env::args(&rt) {
        Ok(words) => match words.collect(rt.alloc()) {
            Ok(words) => words,
            Err(_) => return ExitCode::from(1),
        },
        Err(_) => return ExitCode::from(1),
    };
    match words.as_slice() {
        [_, flag, name] if flag.as_str() == "--shown" => status_of(show(&rt, name.as_str())),
        [_, names @ ..] => status_of(run(&rt, names)),
        [] => ExitCode::SUCCESS,
    }
}
