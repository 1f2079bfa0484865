// Programs that carry out files of steps.
use crate::rows::{Subject, Told, carried_out};
use rk_base::NoMemory;
use std::alloc::Global;
use std::env::Env;
use std::fs::Files;
use std::io::Print;
use std::process::ExitCode;
use std::{env, fs, io};

/// What the files of a program are of.
pub trait Subjects<R> {
    /// Carries out the steps of a file of this name and text; `None` where it is of nothing known.
    fn told_of(rt: &R, name: &str, text: &str) -> Result<Option<Told>, NoMemory>;
}

/// Carries out the steps of a file, asked of this.
pub fn steps_of<S: Subject + Drop>(
    alloc: Global,
    name: &str,
    text: &str,
    subject: Result<S, NoMemory>,
) -> Result<Told, NoMemory> {
    let mut subject = subject?;
    carried_out(alloc, name, text, &mut subject)
}

fn print<R: Print>(rt: &R, name: &str, told: Result<Option<Told>, NoMemory>) -> io::Result<()> {
    match told {
        Ok(Some(told)) => {
            print!(rt; "{}", told.text())?;
            println!(rt;
                "{name}: {} steps, {} otherwise",
                told.steps(),
                told.otherwise()
            )
        }
        Ok(None) => println!(rt; "{name}: of nothing known"),
        Err(_) => println!(rt; "{name}: out of memory"),
    }
}

fn run<R: Files + Print + AllocGlobal, S: Subjects<R>>(rt: &R, names: &[String]) -> io::Result<()> {
    'names: for name in names {
        let text = fs::read_to_string(rt, name.as_str())?;
        let told = S::told_of(rt, name.as_str(), text.as_str());
        print(rt, name.as_str(), told)?;
    }
    Ok(())
}

/// The program: carries out the files that its words name, and prints for each how many steps there were, and what came
/// otherwise. Its status is 1 where a file can't be read or nothing be printed.
pub fn run_files<R: Env + Files + Print + AllocGlobal, S: Subjects<R>>(rt: &R) -> ExitCode {
    let words: Vec<String> = match env::args(rt) {
        Ok(words) => match words.collect(rt.alloc()) {
            Ok(words) => words,
            Err(_) => return ExitCode::from(1),
        },
        Err(_) => return ExitCode::from(1),
    };
    match words.as_slice() {
        [_, names @ ..] => match run::<R, S>(rt, names) {
            Ok(()) => ExitCode::SUCCESS,
            Err(_) => ExitCode::from(1),
        },
        [] => ExitCode::SUCCESS,
    }
}
