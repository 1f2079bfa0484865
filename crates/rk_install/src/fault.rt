// Why a sealed list was not finished.
ghost use Rattle.std.specs.Prelude.{◌≡◌};
ghost use Rattle.rk_install.specs.Recovery.{of_codec};
ghost use Rattle.rk_install.specs.declared.fault.RecoverErr.TheVariants as err;

use rk_base::NoMemory;
use tr_parts::{CodecErr, Damage};

/// Why a sealed list was not finished.
#[derive(Clone, Copy, Debug, PartialEq, Eq)]
pub enum RecoverErr {
    /// `.rkr/install` is the spelling of no list: how it is damaged.
    Damaged(Damage),
    /// A list or a read of the folder was a fault.
    ReadFault,
    /// Another call of the folder was a fault.
    WriteFault,
    NoMemory,
}

impl From<NoMemory> for RecoverErr {
    ghost from_gives = { λ _ e. e ≡ err.NoMemory };

    fn from(_: NoMemory) -> RecoverErr {
        RecoverErr::NoMemory
    }
}

/// Why bytes were not read as a list.
pub(crate) fn of_codec(e: CodecErr) -> RecoverErr
    ensures { result ≡ of_codec e }
{
    match e {
        CodecErr::Damaged(damage) => RecoverErr::Damaged(damage),
        CodecErr::NoMemory => RecoverErr::NoMemory,
    }
}
