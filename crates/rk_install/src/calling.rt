// Making one call.
ghost use Rattle.std.specs.Prelude.{◌≡◌, OnOk, OnErr, option_map};
ghost use Rattle.rk_install.specs.declared.calling.InstallErr.TheVariants as err;
ghost use Rattle.rk_install.specs.Asked.{IsAsked, asked_by};
ghost use Rattle.rk_install.specs.Calls.{step, MayMake, Caused, MemoryCaused, OnNoMemory, Steadily, DamagedBy};

use rk_base::NoMemory;
use rk_folder::{Folder, FolderErr};
use rk_seal::Op;
use std::alloc::Global;

/// Why calls were not all made.
#[derive(Clone, Copy, Debug, PartialEq, Eq)]
pub enum InstallErr {
    /// A call of the folder was a fault.
    WriteFault,
    NoMemory,
}

impl From<NoMemory> for InstallErr {
    ghost from_gives = { λ _ e. e ≡ err.NoMemory };

    fn from(_: NoMemory) -> InstallErr {
        InstallErr::NoMemory
    }
}

/// Makes one call, which the folder allows.
pub(crate) fn call<F: Folder>(alloc: Global, folder: &mut F, op: &Op) -> Result<(), InstallErr>
    requires { MayMake (F.told folder.old) op.now }
    ensures held { OnOk result (F.told folder.new ≡ option_map (step op.now) (F.told folder.old)) }
    ensures left { OnErr result (DamagedBy op.now (F.told folder.old) (F.told folder.new)) }
    ensures cause { Caused (F.write_faults folder.old) (F.write_faults folder.new) result }
    ensures memory { MemoryCaused (F.memory_failures folder.old) (F.memory_failures folder.new) result }
    ensures steady { Steadily (F.steady folder.old) (F.steady folder.new) result }
    // want of memory changes nothing
    ensures clean { OnNoMemory result (F.told folder.new ≡ F.told folder.old) }
    ensures calls { IsAsked (asked_by op.now) (F.schedule folder.old) (F.schedule folder.new) result }
    ensures reads { F.read_faults folder.new ≡ F.read_faults folder.old }
{
    let done = match op {
        Op::RemoveFile(path) => folder.remove_file(alloc, path),
        Op::RemoveDir(path) => folder.remove_dir(alloc, path),
        Op::MakeDir(path) => folder.make_dir(alloc, path),
        Op::Write(path, bytes) => folder.write(alloc, path, bytes.as_slice()),
    };
    match done {
        Ok(()) => Ok(()),
        Err(FolderErr::Failed) => Err(InstallErr::WriteFault),
        Err(FolderErr::NoMemory) => Err(InstallErr::NoMemory),
    }
}
