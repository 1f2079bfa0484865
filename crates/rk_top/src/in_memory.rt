// The calls over a folder and sinks in memory, for programs that try the product. They have no clauses, so such a program
// loads nothing of what is proved of builds.
ghost use Rattle.std.specs.Prelude.{◌≡◌, ◌<◌};

use crate::commands::Commands;
use crate::top::rkr;
use rk_base::Steps;
use rk_build::{Outcome, build_in, exit_code};
use rk_folder::{MemFolder, MemSink};
use rk_request::{DEFAULT_STEPS, Request};
use std::alloc::Global;
use std::marker::Brand;
use std::sync::ledger::{Blank, Ledger};

fn counted<L: Ledger>(
    alloc: Global,
    words: &[String],
    folder: &mut MemFolder,
    out: &mut MemSink,
    err: &mut MemSink,
    blank: Blank,
) -> (Outcome, u8)
    requires name { blank.name ≡ L.name }
    requires parts { blank.parts ≡ L.parts }
    requires some { 0 < L.parts }
{
    let mut live = Steps::<L>::new(blank);
    let outcome = rkr(alloc, words, folder, out, err, &mut live);
    let status = exit_code(&outcome);
    (outcome, status)
}

/// What the words ask for, done by `rkr`: the outcome, and the status with which the program exits. The turns that commands
/// pay are not told.
pub fn rkr_in_memory(
    alloc: Global,
    words: &[String],
    folder: &mut MemFolder,
    out: &mut MemSink,
    err: &mut MemSink,
) -> (Outcome, u8) {
    counted::<Brand>(alloc, words, folder, out, err, Blank::new(1))
}

fn started<L: Ledger>(alloc: Global, check: bool, folder: &mut MemFolder, blank: Blank) -> u64
    requires name { blank.name ≡ L.name }
    requires parts { blank.parts ≡ L.parts }
    requires some { 0 < L.parts }
{
    let request = Request::Build {
        steps: DEFAULT_STEPS,
        explain: false,
        fresh: false,
        check,
    };
    let mut maker = Commands::new(alloc);
    let mut out = MemSink::new(alloc);
    let mut err = MemSink::new(alloc);
    let mut live = Steps::<L>::new(blank);
    let _outcome = build_in(
        alloc, &mut maker, &request, folder, &mut out, &mut err, &mut live,
    );
    maker.started()
}

/// How many commands a build with the default budget starts, which checks the records or doesn't.
pub fn started_in_memory(alloc: Global, check: bool, folder: &mut MemFolder) -> u64 {
    started::<Brand>(alloc, check, folder, Blank::new(1))
}
