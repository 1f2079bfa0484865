// Why bytes could not be read.
ghost use Rattle.std.specs.Prelude.{◌≡◌};
ghost use Rattle.tr_parts.specs.declared.fault.PartErr.TheVariants as part;
ghost use Rattle.tr_parts.specs.declared.fault.CodecErr.TheVariants as fault;
ghost use Rattle.tr_parts.specs.Whole.{whole};

use rk_base::NoMemory;
use std::alloc::{AllocError, AllocFailed};

/// What is wrong with the bytes of a file: they are too short (their length is told), their last 32 bytes aren't
/// the SHA-256 of those before, or nothing has them as its spelling.
#[derive(Clone, Copy, Debug, PartialEq, Eq)]
pub enum Damage {
    Short(u64),
    Digest { kept: [u8; 32], computed: [u8; 32] },
    Form,
}

/// Why nothing was read.
#[derive(Clone, Copy, Debug, PartialEq, Eq)]
pub enum CodecErr {
    Damaged(Damage),
    NoMemory,
}

/// Why a part was not read.
#[derive(Clone, Copy, Debug)]
pub enum PartErr {
    Form,
    NoMemory,
}

impl From<NoMemory> for PartErr {
    ghost from_gives = { λ _ e. e ≡ part.NoMemory };

    fn from(_: NoMemory) -> PartErr {
        PartErr::NoMemory
    }
}

impl From<AllocError> for PartErr {
    ghost from_gives = { λ _ e. e ≡ part.NoMemory };

    fn from(_: AllocError) -> PartErr {
        PartErr::NoMemory
    }
}

impl<T: Drop> From<AllocFailed<T>> for PartErr {
    ghost from_gives = { λ _ e. e ≡ part.NoMemory };

    fn from(_: AllocFailed<T>) -> PartErr {
        PartErr::NoMemory
    }
}

impl From<Damage> for CodecErr {
    ghost from_gives = { λ damage e. e ≡ fault.Damaged damage };

    fn from(damage: Damage) -> CodecErr {
        CodecErr::Damaged(damage)
    }
}

impl From<PartErr> for CodecErr {
    ghost from_gives = { λ part e. e ≡ whole part };

    fn from(part: PartErr) -> CodecErr {
        match part {
            PartErr::Form => CodecErr::Damaged(Damage::Form),
            PartErr::NoMemory => CodecErr::NoMemory,
        }
    }
}
