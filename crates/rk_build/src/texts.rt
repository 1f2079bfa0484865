// The output and the error text, put out.
ghost use Rattle.std.specs.Prelude.{◌≡◌, true};
ghost use Rattle.rk_build.specs.Telling.{PutSo, PutsOutput, PutsErrors, PutsInOrder};
ghost use Rattle.rk_build.specs.Texts.{Counted, MemoryCounted, BothCounted, IsNoFault};

use crate::stop::BuildErr;
use rk_folder::{Sink, SinkErr};

// Puts a text, where there is something to put.
fn put<S: Sink>(sink: &mut S, text: &[u8]) -> Result<(), BuildErr>
    ensures put { PutSo text.now (record { so_far = S.so_far sink.old; faults = S.faults sink.old; memory = S.memory_failures sink.old }) (record { so_far = S.so_far sink.new; faults = S.faults sink.new; memory = S.memory_failures sink.new }) result }
    ensures count { Counted (S.faults sink.old) (S.faults sink.new) result }
    ensures memory { MemoryCounted (S.memory_failures sink.old) (S.memory_failures sink.new) result }
    ensures steady { S.steady sink.new ≡ S.steady sink.old }
    ensures no_fault { S.steady sink.old ≡ true → IsNoFault result }
{
    if text.is_empty() {
        return Ok(());
    }
    match sink.put(text) {
        Ok(()) => Ok(()),
        Err(SinkErr::Failed) => Err(BuildErr::WriteFault),
        Err(SinkErr::NoMemory) => Err(BuildErr::NoMemory),
    }
}

/// Puts the output, and then the error text.
pub(crate) fn put_texts<O: Sink, E: Sink>(
    out: &mut O,
    err: &mut E,
    output: &[u8],
    error_text: &[u8],
) -> Result<(), BuildErr>
    ensures output { PutsOutput output.now (record { so_far = O.so_far out.old; faults = O.faults out.old; memory = O.memory_failures out.old }) (record { so_far = O.so_far out.new; faults = O.faults out.new; memory = O.memory_failures out.new }) result }
    ensures errors { PutsErrors error_text.now (record { so_far = E.so_far err.old; faults = E.faults err.old; memory = E.memory_failures err.old }) (record { so_far = E.so_far err.new; faults = E.faults err.new; memory = E.memory_failures err.new }) result }
    ensures order { PutsInOrder output.now (record { so_far = O.so_far out.old; faults = O.faults out.old; memory = O.memory_failures out.old }) (record { so_far = O.so_far out.new; faults = O.faults out.new; memory = O.memory_failures out.new }) (record { so_far = E.so_far err.old; faults = E.faults err.old; memory = E.memory_failures err.old }) (record { so_far = E.so_far err.new; faults = E.faults err.new; memory = E.memory_failures err.new }) }
    ensures memory { MemoryCounted (E.memory_failures err.old) (E.memory_failures err.new) result }
    ensures steady { E.steady err.new ≡ E.steady err.old }
    ensures no_fault { O.steady out.old ≡ true → E.steady err.old ≡ true → IsNoFault result }
    ensures counts { BothCounted (O.faults out.old) (O.faults out.new) (E.faults err.old) (E.faults err.new) result }
{
    put(out, output)?;
    put(err, error_text)
}
