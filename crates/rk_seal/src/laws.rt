// Laws of the spelling.
ghost use Rattle.std.specs.Prelude.{◌≡◌, List, IfOk, true};
ghost use Rattle.tr_parts.specs.Reads.{Finds, Tells};
ghost use Rattle.rk_seal.specs.declared.ops.Op.{Op as Call};
ghost use Rattle.rk_seal.specs.Laws.{OneList};
ghost use Rattle.rk_seal.specs.Ops.{are_calls};
ghost use Rattle.rk_seal.specs.Spelling.{install_spelling};

use crate::ops::InstallList;
use crate::reading::decode;
use crate::writing::encode;
use rk_base::Bytes;
use std::alloc::Global;
use tr_parts::CodecErr;

/// No two lists of calls have one spelling. It does nothing.
pub fn one_list()
    ensures { OneList }
{}

/// What is spelt is read back.
pub fn read_back(alloc: Global, list: &InstallList) -> Result<InstallList, CodecErr>
    ensures { Finds result list.now }
{
    match encode(alloc, list) {
        Ok(bytes) => decode(alloc, bytes.as_slice()),
        Err(_) => Err(CodecErr::NoMemory),
    }
}

/// What is read is spelt back by the same bytes; else what is damaged, as `decode` tells it.
pub fn spell_back(alloc: Global, bytes: &[u8]) -> Result<Bytes, CodecErr>
    ensures same { IfOk result (λ again. again ≡ bytes.now) }
    ensures only { (calls : List Call) → are_calls calls ≡ true → bytes.now ≡ install_spelling calls → Finds result bytes.now }
    ensures damage { Tells 44 bytes.now result }
{
    match decode(alloc, bytes) {
        Ok(list) => match encode(alloc, &list) {
            Ok(again) => Ok(again),
            Err(_) => Err(CodecErr::NoMemory),
        },
        Err(fault) => Err(fault),
    }
}
