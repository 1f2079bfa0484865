// Finishing a sealed list of calls.
ghost use Rattle.std.specs.Prelude.{◌≡◌, Some, None, IfSome, OnOk, OnErr, option_map, true};
ghost use Rattle.rk_folder.specs.Hidden as hidden;
ghost use Rattle.rk_folder.specs.Looks.{state_listings};
ghost use Rattle.rk_folder.specs.Schedule.{MakesCalls};
ghost use Rattle.rk_folder.specs.Told.{is_file, standing};
ghost use Rattle.rk_seal.specs.Ops.{are_calls};
ghost use Rattle.rk_seal.specs.Spelling.{install_spelling};
ghost use Rattle.rk_install.specs.Halfway.{IsCut, finished};
ghost use Rattle.rk_install.specs.Looks as looks;
ghost use Rattle.rk_install.specs.Recovery.{ReadCaused, WriteCaused, MemoryCounted, Steadily, IsStop, RecoversTold, seal_looks, sealed_in, unsealed};

use crate::fault::{RecoverErr, of_codec};
use crate::finishing::{finish, make};
use crate::looking::{LookErr, bytes_of, place_listed};
use rk_base::{Bytes, Path};
use rk_folder::{Folder, hidden_dir, install_file};
use rk_seal::{InstallList, Op, decode};
use std::alloc::Global;

// Whether a file stands at this path, that of the sealed list, in a directory `.rkr`.
fn is_sealed<F: Folder>(alloc: Global, folder: &mut F, path: &Path) -> Result<bool, LookErr>
    requires { path.now ≡ hidden.install_file }
    ensures told { looks.Tells (F.told folder.old) (λ held is. is ≡ is_file (standing held hidden.install_file)) result }
    ensures cause { looks.ReadCaused (F.read_faults folder.old) (F.read_faults folder.new) result }
    ensures memory { looks.MemoryCounted (F.memory_failures folder.old) (F.memory_failures folder.new) result }
    ensures steady { looks.Steadily (F.steady folder.old) (F.steady folder.new) result }
    ensures held { F.told folder.new ≡ F.told folder.old }
    ensures writes { F.write_faults folder.new ≡ F.write_faults folder.old }
    ensures calls { MakesCalls state_listings (F.schedule folder.old) (F.schedule folder.new) }
{
    let dir = hidden_dir(alloc)?;
    let place = place_listed(alloc, folder, &dir)?;
    if !place.is_dir() {
        return Ok(false);
    }
    let place = place_listed(alloc, folder, path)?;
    Ok(place.is_file())
}

// The bytes of the sealed list; `None` where no file `install` stands in a directory `.rkr`.
fn sealed<F: Folder>(alloc: Global, folder: &mut F) -> Result<Option<Bytes>, LookErr>
    ensures told { looks.Tells (F.told folder.old) (λ held bytes. bytes ≡ sealed_in held) result }
    ensures cause { looks.ReadCaused (F.read_faults folder.old) (F.read_faults folder.new) result }
    ensures memory { looks.MemoryCounted (F.memory_failures folder.old) (F.memory_failures folder.new) result }
    ensures steady { looks.Steadily (F.steady folder.old) (F.steady folder.new) result }
    ensures held { F.told folder.new ≡ F.told folder.old }
    ensures writes { F.write_faults folder.new ≡ F.write_faults folder.old }
    ensures calls { MakesCalls seal_looks (F.schedule folder.old) (F.schedule folder.new) }
{
    let path = install_file(alloc)?;
    if !is_sealed(alloc, folder, &path)? {
        return Ok(None);
    }
    let bytes = bytes_of(alloc, folder, &path)?;
    Ok(bytes)
}

// Takes the seal away.
fn unseal<F: Folder>(alloc: Global, folder: &mut F) -> Result<(), RecoverErr>
    requires { IfSome (F.told folder.old) (λ held. is_file (standing held hidden.install_file) ≡ true) }
    ensures held { OnOk result (F.told folder.new ≡ option_map unsealed (F.told folder.old)) }
    ensures left { OnErr result (F.told folder.new ≡ F.told folder.old) }
    ensures cause { ReadCaused (F.read_faults folder.old) (F.read_faults folder.new) result }
    ensures writes { WriteCaused (F.write_faults folder.old) (F.write_faults folder.new) result }
    ensures memory { MemoryCounted (F.memory_failures folder.old) (F.memory_failures folder.new) result }
    ensures steady { Steadily (F.steady folder.old) (F.steady folder.new) result }
    ensures stop { IsStop result }
{
    let path = install_file(alloc)?;
    let seal = Op::RemoveFile(path);
    make(alloc, folder, &seal)
}

// Makes the calls of a list that stands, and takes its seal away.
fn carry_out<F: Folder>(alloc: Global, folder: &mut F, list: &InstallList) -> Result<(), RecoverErr>
    requires { IfSome (F.told folder.old) (λ held. is_file (standing held hidden.install_file) ≡ true) }
    ensures held { OnOk result (F.told folder.new ≡ option_map (λ held. unsealed (finished list.now held)) (F.told folder.old)) }
    ensures left { OnErr result (IsCut list.now (F.told folder.old) (F.told folder.new)) }
    ensures cause { ReadCaused (F.read_faults folder.old) (F.read_faults folder.new) result }
    ensures writes { WriteCaused (F.write_faults folder.old) (F.write_faults folder.new) result }
    ensures memory { MemoryCounted (F.memory_failures folder.old) (F.memory_failures folder.new) result }
    ensures steady { Steadily (F.steady folder.old) (F.steady folder.new) result }
    ensures stop { IsStop result }
{
    match finish(alloc, folder, list.as_slice()) {
        Ok(()) => unseal(alloc, folder),
        Err(e) => Err(e),
    }
}

// Finishes a list that these bytes spell.
fn finish_list<F: Folder>(
    alloc: Global,
    folder: &mut F,
    bytes: &[u8],
    list: &InstallList,
) -> Result<(), RecoverErr>
    requires seal { IfSome (F.told folder.old) (λ held. sealed_in held ≡ Some bytes.now) }
    requires calls { are_calls list.now ≡ true }
    requires spelt { bytes.now ≡ install_spelling list.now }
    ensures told { RecoversTold (F.told folder.old) (F.told folder.new) result }
    ensures cause { ReadCaused (F.read_faults folder.old) (F.read_faults folder.new) result }
    ensures writes { WriteCaused (F.write_faults folder.old) (F.write_faults folder.new) result }
    ensures memory { MemoryCounted (F.memory_failures folder.old) (F.memory_failures folder.new) result }
    ensures steady { Steadily (F.steady folder.old) (F.steady folder.new) result }
{
    match carry_out(alloc, folder, list) {
        Ok(()) => Ok(()),
        Err(e) => Err(e),
    }
}

// Finishes the list that these bytes are to spell.
fn recover_from<F: Folder>(alloc: Global, folder: &mut F, bytes: &[u8]) -> Result<(), RecoverErr>
    requires { IfSome (F.told folder.old) (λ held. sealed_in held ≡ Some bytes.now) }
    ensures told { RecoversTold (F.told folder.old) (F.told folder.new) result }
    ensures cause { ReadCaused (F.read_faults folder.old) (F.read_faults folder.new) result }
    ensures writes { WriteCaused (F.write_faults folder.old) (F.write_faults folder.new) result }
    ensures memory { MemoryCounted (F.memory_failures folder.old) (F.memory_failures folder.new) result }
    ensures steady { Steadily (F.steady folder.old) (F.steady folder.new) result }
{
    match decode(alloc, bytes) {
        Ok(list) => finish_list(alloc, folder, bytes, &list),
        Err(e) => Err(of_codec(e)),
    }
}

// Finishes the list that is sealed, where one stands.
fn recover_seal<F: Folder>(
    alloc: Global,
    folder: &mut F,
    seal: Option<Bytes>,
) -> Result<(), RecoverErr>
    requires { IfSome (F.told folder.old) (λ held. seal ≡ sealed_in held) }
    ensures told { RecoversTold (F.told folder.old) (F.told folder.new) result }
    ensures cause { ReadCaused (F.read_faults folder.old) (F.read_faults folder.new) result }
    ensures writes { WriteCaused (F.write_faults folder.old) (F.write_faults folder.new) result }
    ensures memory { MemoryCounted (F.memory_failures folder.old) (F.memory_failures folder.new) result }
    ensures steady { Steadily (F.steady folder.old) (F.steady folder.new) result }
    ensures calls { seal ≡ None → F.schedule folder.new ≡ F.schedule folder.old }
{
    match seal {
        None => Ok(()),
        Some(bytes) => recover_from(alloc, folder, bytes.as_slice()),
    }
}

/// Finishes a sealed list of calls, where one stands: a file `install` in a directory `.rkr`. Each of its calls that the
/// folder allows now is made, in their order, and any other is passed over; so each of its files is written whole. Then the
/// file is removed. What the folder allows is looked at by listings alone, from the root on, of each directory once.
///
/// `Damaged` exactly where it stands and is the spelling of no list, unless it couldn't be looked at. At a fault, or want of
/// memory, some of the calls are made, and the file still stands.
pub fn recover<F: Folder>(alloc: Global, folder: &mut F) -> Result<(), RecoverErr>
    // Nothing is changed where none stands; else what its calls come to, without the seal. At an error, how far it came.
    ensures told { RecoversTold (F.told folder.old) (F.told folder.new) result }

    // A fault comes only where the count of its kind rose.
    ensures cause { ReadCaused (F.read_faults folder.old) (F.read_faults folder.new) result }
    ensures writes { WriteCaused (F.write_faults folder.old) (F.write_faults folder.new) result }
    ensures memory { MemoryCounted (F.memory_failures folder.old) (F.memory_failures folder.new) result }
    ensures steady { Steadily (F.steady folder.old) (F.steady folder.new) result }

    // Where no list stands, the root and `.rkr` are listed at most.
    ensures calls { IfSome (F.told folder.old) (λ held. sealed_in held ≡ None → MakesCalls seal_looks (F.schedule folder.old) (F.schedule folder.new)) }
{
    match sealed(alloc, folder) {
        Ok(seal) => recover_seal(alloc, folder, seal),
        Err(LookErr::ReadFault) => Err(RecoverErr::ReadFault),
        Err(LookErr::NoMemory) => Err(RecoverErr::NoMemory),
    }
}
