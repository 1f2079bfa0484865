// The program's calls, as sessions make them.
use rk_folder::{MemFolder, MemSink};
use rk_runner::{Built, End, Program};
use rk_top::{Outcome, rkr_in_memory, started_in_memory};
use std::alloc::Global;

/// The program itself.
#[derive(Clone, Copy)]
pub(crate) struct Rkr;

fn end_of(outcome: &Outcome) -> End {
    match outcome {
        Outcome::Ended { launched, ran, .. } => End::Ended {
            launched: *launched,
            ran: *ran,
        },
        Outcome::Usage => End::Usage,
        Outcome::Spent => End::Spent,
        Outcome::Special(_) => End::Refused,
        Outcome::Damaged(_, _) => End::Refused,
        Outcome::Forged { .. } => End::Refused,
        Outcome::ReadFault => End::Refused,
        _ => End::Other,
    }
}

impl Program for Rkr {
    fn invoke(
        &self,
        alloc: Global,
        words: &[String],
        folder: &mut MemFolder,
        out: MemSink,
        err: MemSink,
    ) -> Built {
        let mut out = out;
        let mut err = err;
        let (outcome, status) = rkr_in_memory(alloc, words, folder, &mut out, &mut err);
        Built {
            end: end_of(&outcome),
            status,
            out,
            err,
        }
    }

    fn started(&self, alloc: Global, check: bool, folder: &mut MemFolder) -> u64 {
        started_in_memory(alloc, check, folder)
    }
}
