// Texts on the output.
ghost use Rattle.std.specs.Prelude.{◌≡◌, true};
ghost use Rattle.rk_database.specs.Answers.{IsNoFault, PutSo, PutsNone, WritesCounted};

use crate::stop::{QueryErr, Said};
use rk_base::Bytes;
use rk_folder::{Sink, SinkErr};

/// Puts a text.
pub(crate) fn put<O: Sink>(out: &mut O, text: &Bytes) -> Result<(), QueryErr>
    ensures put { PutSo text.now (O.so_far out.old) (O.so_far out.new) result }
    ensures count { WritesCounted (O.faults out.old) (O.faults out.new) result }
    ensures steady { O.steady out.new ≡ O.steady out.old }
    ensures no_fault { O.steady out.old ≡ true → IsNoFault result }
{
    match out.put(text.as_slice()) {
        Ok(()) => Ok(()),
        Err(SinkErr::Failed) => Err(QueryErr::WriteFault),
        Err(SinkErr::NoMemory) => Err(QueryErr::NoMemory),
    }
}

/// Says that there is no database.
pub(crate) fn say_none<O: Sink>(out: &mut O) -> Result<Said, QueryErr>
    ensures puts { PutsNone (O.so_far out.old) (O.so_far out.new) result }
    ensures count { WritesCounted (O.faults out.old) (O.faults out.new) result }
    ensures steady { O.steady out.new ≡ O.steady out.old }
    ensures no_fault { O.steady out.old ≡ true → IsNoFault result }
{
    match out.put(b"no trace\n") {
        Ok(()) => Ok(Said::NoTrace),
        Err(SinkErr::Failed) => Err(QueryErr::WriteFault),
        Err(SinkErr::NoMemory) => Err(QueryErr::NoMemory),
    }
}
