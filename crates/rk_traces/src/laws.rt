// Laws of runs.
ghost use Rattle.rk_traces.specs.Laws.{LeavesSpoken, PaysItsRecords};
ghost use Rattle.rk_traces.specs.Run.{environment};

use rk_calls::{Answerer, Maker};

/// Each record that a fresh run leaves is what its command says again, and together they paid what the run paid. It
/// does nothing.
pub fn fresh_runs<K: Maker, W: Answerer>()
    ensures spoken { LeavesSpoken (environment K.first W.given) }
    ensures paid { PaysItsRecords (environment K.first W.given) }
{}
