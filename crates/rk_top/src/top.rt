// The top call.
ghost use Rattle.std.specs.Prelude.{map, string_bytes};
ghost use Rattle.rk_top.specs.Recovers.{ServesAfter};

use crate::commands::Commands;
use crate::generate::tell_workload;
use crate::queries::{check_records, forget_records, show_records};
use crate::recovering::{finish, outcome_of_recovery};
use rk_base::Steps;
use rk_build::{Outcome, build_in, tell};
use rk_folder::{Folder, Sink};
use rk_request::{Request, RequestErr, request};
use std::alloc::Global;
use std::sync::ledger::Ledger;

/// The whole program as one call: reads the words, of which the first is the program's name, finishes a sealed list of calls
/// that an earlier call was stopped in, where one stands and the words ask for something of the folder, and does what they
/// ask for, over a folder and the two sinks for output and error text. `live` counts the turns that commands
/// which ran have paid.
pub fn rkr<F: Folder, O: Sink, E: Sink, L: Ledger>(
    alloc: Global,
    words: &[String],
    folder: &mut F,
    out: &mut O,
    err: &mut E,
    live: &mut Steps<L>,
) -> Outcome
    // What is outside before the call, what is there after it, and the outcome.
    ensures { ServesAfter (map string_bytes words.now)
        (record {
          reach = F.reach folder.old;
          held = F.told folder.old;
          schedule = F.schedule folder.old;
          reads = F.read_faults folder.old;
          writes = F.write_faults folder.old;
          memory = F.memory_failures folder.old;
          out = (record { so_far = O.so_far out.old; faults = O.faults out.old; memory = O.memory_failures out.old });
          err = (record { so_far = E.so_far err.old; faults = E.faults err.old; memory = E.memory_failures err.old });
          steady = (record { folder = F.steady folder.old; out = O.steady out.old; err = E.steady err.old });
          live = live.old;
        })
        (record {
          reach = F.reach folder.new;
          held = F.told folder.new;
          schedule = F.schedule folder.new;
          reads = F.read_faults folder.new;
          writes = F.write_faults folder.new;
          memory = F.memory_failures folder.new;
          out = (record { so_far = O.so_far out.new; faults = O.faults out.new; memory = O.memory_failures out.new });
          err = (record { so_far = E.so_far err.new; faults = E.faults err.new; memory = E.memory_failures err.new });
          steady = (record { folder = F.steady folder.new; out = O.steady out.new; err = E.steady err.new });
          live = live.new;
        })
        result }
{
    match request(alloc, words) {
        Ok(asked) => match finish(alloc, &asked, folder) {
            None => match &asked {
                Request::Build { .. } => {
                    let mut maker = Commands::new(alloc);
                    let outcome = build_in(alloc, &mut maker, &asked, folder, out, err, live);
                    tell(alloc, err, outcome)
                }
                Request::Check => {
                    let outcome = check_records(alloc, folder, out);
                    tell(alloc, err, outcome)
                }
                Request::Trace { json } => {
                    let outcome = show_records(alloc, *json, folder, out);
                    tell(alloc, err, outcome)
                }
                Request::Forget => {
                    let outcome = forget_records(alloc, folder, out);
                    tell(alloc, err, outcome)
                }
                Request::Gen(seed) => {
                    let outcome = tell_workload(alloc, *seed, out, live);
                    tell(alloc, err, outcome)
                }
            },
            Some(e) => {
                let outcome = outcome_of_recovery(e);
                tell(alloc, err, outcome)
            }
        },
        Err(RequestErr::Usage) => tell(alloc, err, Outcome::Usage),
        Err(RequestErr::NoMemory) => tell(alloc, err, Outcome::NoMemory),
    }
}
