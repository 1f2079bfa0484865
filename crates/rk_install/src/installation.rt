// An install that is sealed.
ghost use Rattle.std.specs.Prelude.{◌≡◌, Some, IfSome, IfOk, OnOk, OnErr, option_map, true, false};
ghost use Rattle.std.specs.List.{list_any};
ghost use Rattle.rk_folder.specs.Hidden as hidden;
ghost use Rattle.rk_folder.specs.Told.{can_make_dir, can_remove_file, can_rename, renamed};
ghost use Rattle.rk_folder.specs.declared.folder.FolderCall.TheVariants as asks;
ghost use Rattle.rk_install.specs.Asked.{CallsInOrder, CallsOrNone, IsAsked, calls_by, calls_of, clearing_calls, hidden_calls, install_calls, other_calls, plan_calls};
ghost use Rattle.rk_install.specs.Calls.{AllowsAll, Caused, DamagedBy, MemoryCaused, OnNoMemory, Steadily, after_all, allowed};
ghost use Rattle.rk_install.specs.Halfway.{IsFront, IsStopped};
ghost use Rattle.rk_install.specs.Install.{AllowsCalls, AllowsInstall, AllowsPlan, IsSealOps, IsMoment, IsMomentOf, IsReadable, MomentOf, OwnOrCaused, ReadableOrNone, StopsCalls, StopsPlan, StopsSo, carried, carried_out, cleared, installed, makes_hidden, others, rooted, step_other};

use crate::calling::{InstallErr, call};
use rk_base::{NoMemory, Path};
use rk_folder::{Folder, FolderErr, LONGEST_FILE, fresh_list_file, hidden_dir, install_file};
use rk_seal::{InstallList, Op, Plan, encode};
use std::alloc::Global;

// The calls that seal a list and unseal it, around those of the list, with all memory of an install's own.
#[derive(Drop)]
struct SealOps {
    making: Op,
    draft: Op,
    fresh: Path,
    seal: Path,
    unsealing: Op,
}

fn seal_ops(alloc: Global, list: &InstallList) -> Result<SealOps, NoMemory>
    ensures around { IfOk result (IsSealOps list.now) }
    ensures readable { IfOk result (λ _. IsReadable (Some list.now)) }
{
    let bytes = encode(alloc, list)?;
    if bytes.len() as u64 > LONGEST_FILE {
        return Err(NoMemory);
    }
    Ok(SealOps {
        making: Op::MakeDir(hidden_dir(alloc)?),
        draft: Op::Write(fresh_list_file(alloc)?, bytes),
        fresh: fresh_list_file(alloc)?,
        seal: install_file(alloc)?,
        unsealing: Op::RemoveFile(install_file(alloc)?),
    })
}

// Whether a call makes the hidden directory.
#[tactic(auto, unfolding(rk_base::specs::Text::join))]
fn makes_hidden(op: &Op) -> bool
    ensures { result ≡ makes_hidden op.now }
{
    match op {
        Op::RemoveFile(_) => false,
        Op::RemoveDir(_) => false,
        Op::MakeDir(path) => path.text() == b"/.rkr".as_slice(),
        Op::Write(_, _) => false,
    }
}

// Whether one of the calls makes it.
fn has_hidden(ops: &[Op]) -> bool
    ensures { result ≡ list_any makes_hidden ops.now }
{
    ops.iter().any(|op| makes_hidden(op))
}

// Makes the hidden directory, where that is among the calls.
fn make_hidden<F: Folder>(
    alloc: Global,
    folder: &mut F,
    ops: &[Op],
    around: &SealOps,
) -> Result<(), InstallErr>
    requires around { IsSealOps ops.now around.now }
    requires may { IfSome (F.told folder.old) (λ held. list_any makes_hidden ops.now ≡ true → can_make_dir hidden.hidden_dir held ≡ true) }
    ensures held { OnOk result (F.told folder.new ≡ option_map (rooted ops.now) (F.told folder.old)) }
    ensures left { OnErr result (F.told folder.new ≡ F.told folder.old) }
    ensures cause { Caused (F.write_faults folder.old) (F.write_faults folder.new) result }
    ensures memory { MemoryCaused (F.memory_failures folder.old) (F.memory_failures folder.new) result }
    ensures steady { Steadily (F.steady folder.old) (F.steady folder.new) result }
    ensures calls { CallsInOrder (hidden_calls ops.now) (F.schedule folder.old) (F.schedule folder.new) result }
    ensures reads { F.read_faults folder.new ≡ F.read_faults folder.old }
{
    if !has_hidden(ops) {
        return Ok(());
    }
    call(alloc, folder, &around.making)
}

// Seals the list that was written, by a rename.
fn seal<F: Folder>(alloc: Global, folder: &mut F, around: &SealOps) -> Result<(), InstallErr>
    requires { IfSome (F.told folder.old) (λ held. can_rename around.now.fresh around.now.seal held ≡ true) }
    ensures held { OnOk result (F.told folder.new ≡ option_map (renamed around.now.fresh around.now.seal) (F.told folder.old)) }
    ensures left { OnErr result (F.told folder.new ≡ F.told folder.old) }
    ensures cause { Caused (F.write_faults folder.old) (F.write_faults folder.new) result }
    ensures memory { MemoryCaused (F.memory_failures folder.old) (F.memory_failures folder.new) result }
    ensures steady { Steadily (F.steady folder.old) (F.steady folder.new) result }
    ensures calls { IsAsked (asks.Rename around.now.fresh around.now.seal) (F.schedule folder.old) (F.schedule folder.new) result }
    ensures reads { F.read_faults folder.new ≡ F.read_faults folder.old }
{
    match folder.rename(alloc, &around.fresh, &around.seal) {
        Ok(()) => Ok(()),
        Err(FolderErr::Failed) => Err(InstallErr::WriteFault),
        Err(FolderErr::NoMemory) => Err(InstallErr::NoMemory),
    }
}

// Makes a call that isn't the making of the hidden directory.
fn make_other<F: Folder>(alloc: Global, folder: &mut F, op: &Op) -> Result<(), InstallErr>
    requires { IfSome (F.told folder.old) (λ held. makes_hidden op.now ≡ false → allowed op.now held ≡ true) }
    ensures held { OnOk result (F.told folder.new ≡ option_map (step_other op.now) (F.told folder.old)) }
    ensures left { OnErr result ((makes_hidden op.now ≡ false) × DamagedBy op.now (F.told folder.old) (F.told folder.new)) }
    ensures cause { Caused (F.write_faults folder.old) (F.write_faults folder.new) result }
    ensures memory { MemoryCaused (F.memory_failures folder.old) (F.memory_failures folder.new) result }
    ensures steady { Steadily (F.steady folder.old) (F.steady folder.new) result }
    ensures clean { OnNoMemory result (F.told folder.new ≡ F.told folder.old) }
    ensures calls { CallsInOrder (other_calls op.now) (F.schedule folder.old) (F.schedule folder.new) result }
    ensures reads { F.read_faults folder.new ≡ F.read_faults folder.old }
{
    if makes_hidden(op) {
        return Ok(());
    }
    call(alloc, folder, op)?;
    Ok(())
}

// Makes the other calls, one after another, up to the first that fails.
fn make_others<F: Folder>(alloc: Global, folder: &mut F, ops: &[Op]) -> Result<(), InstallErr>
    requires { IfSome (F.told folder.old) (AllowsAll (others ops.now)) }
    ensures held { OnOk result (F.told folder.new ≡ option_map (after_all (others ops.now)) (F.told folder.old)) }
    ensures left { OnErr result (IsStopped (others ops.now) (F.told folder.old) (F.told folder.new)) }
    ensures cause { Caused (F.write_faults folder.old) (F.write_faults folder.new) result }
    ensures memory { MemoryCaused (F.memory_failures folder.old) (F.memory_failures folder.new) result }
    ensures steady { Steadily (F.steady folder.old) (F.steady folder.new) result }
    ensures clean { OnNoMemory result (IsFront (others ops.now) (F.told folder.old) (F.told folder.new)) }
    ensures calls { CallsInOrder (calls_of (others ops.now)) (F.schedule folder.old) (F.schedule folder.new) result }
    ensures reads { F.read_faults folder.new ≡ F.read_faults folder.old }
{
    for op in ops {
        make_other(alloc, folder, op)?;
    }
    Ok(())
}

// Makes the calls of a list, and those around them.
fn install_around<F: Folder>(
    alloc: Global,
    folder: &mut F,
    ops: &[Op],
    around: &SealOps,
) -> Result<(), InstallErr>
    requires around { IsSealOps ops.now around.now }
    requires may { IfSome (F.told folder.old) (AllowsInstall ops.now) }
    ensures held { OnOk result (F.told folder.new ≡ option_map (installed ops.now) (F.told folder.old)) }
    ensures stops { OnErr result (IfSome (F.told folder.old) (λ held. StopsSo ops.now held (F.told folder.new))) }
    ensures cause { Caused (F.write_faults folder.old) (F.write_faults folder.new) result }
    ensures memory { MemoryCaused (F.memory_failures folder.old) (F.memory_failures folder.new) result }
    ensures steady { Steadily (F.steady folder.old) (F.steady folder.new) result }
    ensures clean { OnNoMemory result (IfSome (F.told folder.old) (λ held. IsMoment ops.now held (F.told folder.new))) }
    ensures calls { CallsInOrder (install_calls ops.now) (F.schedule folder.old) (F.schedule folder.new) result }
    ensures reads { F.read_faults folder.new ≡ F.read_faults folder.old }
{
    make_hidden(alloc, folder, ops, around)?;
    call(alloc, folder, &around.draft)?;
    seal(alloc, folder, around)?;
    make_others(alloc, folder, ops)?;
    let done = call(alloc, folder, &around.unsealing)?;
    Ok(done)
}

// Makes the calls of a list, and those around them. All memory that is its own is taken before its first call.
fn install_list<F: Folder>(
    alloc: Global,
    folder: &mut F,
    list: &InstallList,
) -> Result<(), InstallErr>
    requires { IfSome (F.told folder.old) (AllowsInstall list.now) }
    ensures held { OnOk result (F.told folder.new ≡ option_map (installed list.now) (F.told folder.old)) }
    ensures stops { OnErr result (IfSome (F.told folder.old) (λ held. StopsSo list.now held (F.told folder.new))) }
    ensures cause { Caused (F.write_faults folder.old) (F.write_faults folder.new) result }
    ensures memory { OwnOrCaused (F.told folder.old) (F.told folder.new) (F.memory_failures folder.old) (F.memory_failures folder.new) result }
    ensures steady { Steadily (F.steady folder.old) (F.steady folder.new) result }
    ensures clean { OnNoMemory result (IfSome (F.told folder.old) (λ held. IsMoment list.now held (F.told folder.new))) }
    ensures calls { CallsOrNone (install_calls list.now) (F.schedule folder.old) (F.schedule folder.new) result }
    ensures readable { ReadableOrNone (Some list.now) (F.memory_failures folder.old) (F.memory_failures folder.new) result }
    ensures reads { F.read_faults folder.new ≡ F.read_faults folder.old }
{
    let around = seal_ops(alloc, list)?;
    install_around(alloc, folder, list.as_slice(), &around)
}

// Removes a list that isn't sealed, where one stands.
fn clear<F: Folder>(alloc: Global, folder: &mut F, fresh_list: bool) -> Result<(), InstallErr>
    requires { IfSome (F.told folder.old) (λ held. fresh_list ≡ true → can_remove_file hidden.fresh_list_file held ≡ true) }
    ensures held { OnOk result (F.told folder.new ≡ option_map (cleared fresh_list) (F.told folder.old)) }
    ensures left { OnErr result (F.told folder.new ≡ F.told folder.old) }
    ensures cause { Caused (F.write_faults folder.old) (F.write_faults folder.new) result }
    ensures memory { OwnOrCaused (F.told folder.old) (F.told folder.new) (F.memory_failures folder.old) (F.memory_failures folder.new) result }
    ensures steady { Steadily (F.steady folder.old) (F.steady folder.new) result }
    ensures calls { CallsOrNone (clearing_calls fresh_list) (F.schedule folder.old) (F.schedule folder.new) result }
    ensures reads { F.read_faults folder.new ≡ F.read_faults folder.old }
{
    if !fresh_list {
        return Ok(());
    }
    let path = fresh_list_file(alloc)?;
    let clearing = Op::RemoveFile(path);
    call(alloc, folder, &clearing)
}

// Makes the calls of a plan.
fn make_calls<F: Folder>(
    alloc: Global,
    folder: &mut F,
    calls: &Option<InstallList>,
    fresh_list: bool,
) -> Result<(), InstallErr>
    requires { IfSome (F.told folder.old) (AllowsCalls calls.now fresh_list) }
    ensures held { OnOk result (F.told folder.new ≡ option_map (carried_out calls.now fresh_list) (F.told folder.old)) }
    ensures stops { OnErr result (IfSome (F.told folder.old) (λ held. StopsCalls calls.now held (F.told folder.new))) }
    ensures cause { Caused (F.write_faults folder.old) (F.write_faults folder.new) result }
    ensures memory { OwnOrCaused (F.told folder.old) (F.told folder.new) (F.memory_failures folder.old) (F.memory_failures folder.new) result }
    ensures steady { Steadily (F.steady folder.old) (F.steady folder.new) result }
    ensures clean { OnNoMemory result (IfSome (F.told folder.old) (λ held. MomentOf calls.now held (F.told folder.new))) }
    ensures calls { CallsOrNone (calls_by calls.now fresh_list) (F.schedule folder.old) (F.schedule folder.new) result }
    ensures readable { ReadableOrNone calls.now (F.memory_failures folder.old) (F.memory_failures folder.new) result }
    ensures reads { F.read_faults folder.new ≡ F.read_faults folder.old }
{
    match calls {
        None => clear(alloc, folder, fresh_list),
        Some(list) => install_list(alloc, folder, list),
    }
}

/// Makes the calls of a plan, so that a stop at any of them loses nothing: the hidden directory is made, where that is among
/// them; the list is written there, and sealed by a rename; then come the other calls, in their order; and then the seal is
/// taken away. All memory that is its own is taken before its first call. Of a plan without calls a list that isn't sealed is
/// removed, where one stands, and nothing else is done.
///
/// `WriteFault` where a call of the folder was a fault, `NoMemory` where one had no memory, or the install itself had none, as
/// for a list that is longer than what a folder reads.
/// The folder is then as before, but that the hidden directory and a list that isn't sealed may stand; or the list is sealed,
/// and `recover` finishes it.
pub fn install<F: Folder>(alloc: Global, folder: &mut F, plan: &Plan) -> Result<(), InstallErr>
    requires { IfSome (F.told folder.old) (AllowsPlan plan.now) }
    ensures held { OnOk result (F.told folder.new ≡ option_map (carried plan.now) (F.told folder.old)) }
    ensures stops { OnErr result (IfSome (F.told folder.old) (λ held. StopsPlan plan.now held (F.told folder.new))) }
    ensures cause { Caused (F.write_faults folder.old) (F.write_faults folder.new) result }
    // Want of memory is its own, and then no call was made, or the folder's count of it rose.
    ensures memory { OwnOrCaused (F.told folder.old) (F.told folder.new) (F.memory_failures folder.old) (F.memory_failures folder.new) result }
    ensures steady { Steadily (F.steady folder.old) (F.steady folder.new) result }
    // A call that had no memory did nothing.
    ensures clean { OnNoMemory result (IfSome (F.told folder.old) (λ held. IsMomentOf plan.now held (F.told folder.new))) }
    // Each call is made once, in their order; at an error up to the one that failed.
    ensures calls { CallsOrNone (plan_calls plan.now) (F.schedule folder.old) (F.schedule folder.new) result }
    // What is written is read again: no list is longer than what a folder reads.
    ensures readable { ReadableOrNone plan.now.calls (F.memory_failures folder.old) (F.memory_failures folder.new) result }
    ensures reads { F.read_faults folder.new ≡ F.read_faults folder.old }
{
    make_calls(alloc, folder, &plan.calls, plan.fresh_list)
}
