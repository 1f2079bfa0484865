// Making what is still to be made.
ghost use Rattle.std.specs.Prelude.{◌≡◌, IfSome, OnOk, OnErr, false, option_map};
ghost use Rattle.rk_base.specs.Text.{is_root};
ghost use Rattle.rk_seal.specs.Ops.{path_of};
ghost use Rattle.rk_install.specs.Calls.{DamagedBy, MayMake, allowed, step};
ghost use Rattle.rk_install.specs.Halfway.{IsCut, finished, pass};
ghost use Rattle.rk_install.specs.Known.{KnowsTold};
ghost use Rattle.rk_install.specs.Recovery.{ReadCaused, WriteCaused, MemoryCounted, Steadily, AreBelowRoot, IsStop};

use crate::calling::{InstallErr, call};
use crate::fault::RecoverErr;
use crate::knowing::Known;
use crate::looking::LookErr;
use crate::places::may;
use rk_folder::Folder;
use rk_seal::Op;
use std::alloc::Global;

/// Makes a call that the folder allows.
pub(crate) fn make<F: Folder>(alloc: Global, folder: &mut F, op: &Op) -> Result<(), RecoverErr>
    requires { MayMake (F.told folder.old) op.now }
    ensures held { OnOk result (F.told folder.new ≡ option_map (step op.now) (F.told folder.old)) }
    ensures left { OnErr result (DamagedBy op.now (F.told folder.old) (F.told folder.new)) }
    ensures cause { ReadCaused (F.read_faults folder.old) (F.read_faults folder.new) result }
    ensures writes { WriteCaused (F.write_faults folder.old) (F.write_faults folder.new) result }
    ensures memory { MemoryCounted (F.memory_failures folder.old) (F.memory_failures folder.new) result }
    ensures steady { Steadily (F.steady folder.old) (F.steady folder.new) result }
    ensures stop { IsStop result }
{
    match call(alloc, folder, op) {
        Ok(()) => Ok(()),
        Err(InstallErr::WriteFault) => Err(RecoverErr::WriteFault),
        Err(InstallErr::NoMemory) => Err(RecoverErr::NoMemory),
    }
}

// Makes a call that the folder allows, and keeps what it leaves. The memory for that is taken before the call.
fn make_known<F: Folder>(
    alloc: Global,
    folder: &mut F,
    known: &mut Known,
    op: &Op,
) -> Result<(), RecoverErr>
    requires may { MayMake (F.told folder.old) op.now }
    requires known { KnowsTold (F.told folder.old) known.old }
    ensures known { OnOk result (KnowsTold (F.told folder.new) known.new) }
    ensures held { OnOk result (F.told folder.new ≡ option_map (step op.now) (F.told folder.old)) }
    ensures left { OnErr result (DamagedBy op.now (F.told folder.old) (F.told folder.new)) }
    ensures cause { ReadCaused (F.read_faults folder.old) (F.read_faults folder.new) result }
    ensures writes { WriteCaused (F.write_faults folder.old) (F.write_faults folder.new) result }
    ensures memory { MemoryCounted (F.memory_failures folder.old) (F.memory_failures folder.new) result }
    ensures steady { Steadily (F.steady folder.old) (F.steady folder.new) result }
    ensures stop { IsStop result }
{
    known.put_call(op)?;
    make(alloc, folder, op)?;
    Ok(())
}

// Makes a call where it is allowed, and passes it over elsewhere.
fn make_where<F: Folder>(
    alloc: Global,
    folder: &mut F,
    known: &mut Known,
    op: &Op,
    is_allowed: bool,
) -> Result<(), RecoverErr>
    requires allowed { IfSome (F.told folder.old) (λ held. is_allowed ≡ allowed op.now held) }
    requires known { KnowsTold (F.told folder.old) known.old }
    ensures known { OnOk result (KnowsTold (F.told folder.new) known.new) }
    ensures held { OnOk result (F.told folder.new ≡ option_map (pass op.now) (F.told folder.old)) }
    ensures left { OnErr result (DamagedBy op.now (F.told folder.old) (F.told folder.new)) }
    ensures cause { ReadCaused (F.read_faults folder.old) (F.read_faults folder.new) result }
    ensures writes { WriteCaused (F.write_faults folder.old) (F.write_faults folder.new) result }
    ensures memory { MemoryCounted (F.memory_failures folder.old) (F.memory_failures folder.new) result }
    ensures steady { Steadily (F.steady folder.old) (F.steady folder.new) result }
    ensures stop { IsStop result }
{
    if !is_allowed {
        return Ok(());
    }
    make_known(alloc, folder, known, op)?;
    Ok(())
}

// Makes a call where the folder allows it now, and passes it over elsewhere.
fn pass<F: Folder>(
    alloc: Global,
    folder: &mut F,
    known: &mut Known,
    op: &Op,
) -> Result<(), RecoverErr>
    requires below_root { is_root (path_of op.now) ≡ false }
    requires known { KnowsTold (F.told folder.old) known.old }
    ensures known { OnOk result (KnowsTold (F.told folder.new) known.new) }
    ensures held { OnOk result (F.told folder.new ≡ option_map (pass op.now) (F.told folder.old)) }
    ensures left { OnErr result (DamagedBy op.now (F.told folder.old) (F.told folder.new)) }
    ensures cause { ReadCaused (F.read_faults folder.old) (F.read_faults folder.new) result }
    ensures writes { WriteCaused (F.write_faults folder.old) (F.write_faults folder.new) result }
    ensures memory { MemoryCounted (F.memory_failures folder.old) (F.memory_failures folder.new) result }
    ensures steady { Steadily (F.steady folder.old) (F.steady folder.new) result }
    ensures stop { IsStop result }
{
    match may(alloc, folder, known, op) {
        Ok(is_allowed) => make_where(alloc, folder, known, op, is_allowed),
        Err(LookErr::ReadFault) => Err(RecoverErr::ReadFault),
        Err(LookErr::NoMemory) => Err(RecoverErr::NoMemory),
    }
}

// Makes each call that is still to be made, in their order.
fn finish_known<F: Folder>(
    alloc: Global,
    folder: &mut F,
    known: &mut Known,
    ops: &[Op],
) -> Result<(), RecoverErr>
    requires below_root { AreBelowRoot ops.now }
    requires known { KnowsTold (F.told folder.old) known.old }
    ensures held { OnOk result (F.told folder.new ≡ option_map (finished ops.now) (F.told folder.old)) }
    ensures left { OnErr result (IsCut ops.now (F.told folder.old) (F.told folder.new)) }
    ensures cause { ReadCaused (F.read_faults folder.old) (F.read_faults folder.new) result }
    ensures writes { WriteCaused (F.write_faults folder.old) (F.write_faults folder.new) result }
    ensures memory { MemoryCounted (F.memory_failures folder.old) (F.memory_failures folder.new) result }
    ensures steady { Steadily (F.steady folder.old) (F.steady folder.new) result }
    ensures stop { IsStop result }
{
    for op in ops {
        pass(alloc, folder, known, op)?;
    }
    Ok(())
}

/// Makes each call that is still to be made, in their order. Each directory above their paths is listed once, and one that is
/// to be removed once more.
///
/// What was listed before the list was read isn't made use of: the real folder syncs each directory that is listed from there
/// on, and so what a call that was killed has done in it.
pub(crate) fn finish<F: Folder>(alloc: Global, folder: &mut F, ops: &[Op]) -> Result<(), RecoverErr>
    requires { AreBelowRoot ops.now }
    ensures held { OnOk result (F.told folder.new ≡ option_map (finished ops.now) (F.told folder.old)) }
    ensures left { OnErr result (IsCut ops.now (F.told folder.old) (F.told folder.new)) }
    ensures cause { ReadCaused (F.read_faults folder.old) (F.read_faults folder.new) result }
    ensures writes { WriteCaused (F.write_faults folder.old) (F.write_faults folder.new) result }
    ensures memory { MemoryCounted (F.memory_failures folder.old) (F.memory_failures folder.new) result }
    ensures steady { Steadily (F.steady folder.old) (F.steady folder.new) result }
    ensures stop { IsStop result }
{
    let mut known = Known::new(alloc);
    finish_known(alloc, folder, &mut known, ops)
}
