//! The program: the working directory, standard output and standard error, one call.
#![tactic(auto)]

ghost use Rattle.std.specs.Prelude.{◌≡◌, ◌<◌};

use rk_base::Steps;
use rk_real::{RealFolder, RealSink};
use rk_top::{exit_code, rkr};
use std::io::ErrorKind;
use std::marker::Brand;
use std::process::ExitCode;
use std::sync::ledger::{Blank, Ledger};
use std::{env, io};

// One call over the working directory; how many turns were paid is counted, and not told.
fn call<L: Ledger>(rt: &HostRuntime, blank: Blank) -> io::Result<u8>
    requires name { blank.name ≡ L.name }
    requires parts { blank.parts ≡ L.parts }
    requires some { 0 < L.parts }
{
    // Words that are no text are wrong words.
    let words: Vec<String> = match env::args(rt) {
        Ok(words) => words.collect(rt.alloc())?,
        Err(e) if e.kind() == ErrorKind::OutOfMemory => return Err(e),
        Err(_) => Vec::new(rt.alloc()),
    };
    let mut folder = RealFolder::new(rt.clone()?, String::from_str(rt.alloc(), ".")?);
    let mut out = RealSink::new(rt.stdout());
    let mut err = RealSink::new(rt.stderr());
    let mut live = Steps::<L>::new(blank);
    let outcome = rkr(
        rt.alloc(),
        &words,
        &mut folder,
        &mut out,
        &mut err,
        &mut live,
    );
    Ok(exit_code(&outcome))
}

fn run(rt: &HostRuntime) -> io::Result<u8> {
    call::<Brand>(rt, Blank::new(1))
}

fn main(rt: HostRuntime) -> ExitCode {
    match run(&rt) {
        Ok(code) => ExitCode::from(code),
        Err(_) => ExitCode::from(246),
    }
}
