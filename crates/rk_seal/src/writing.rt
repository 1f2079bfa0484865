// The spelling of a list of calls.
ghost use Rattle.std.specs.Prelude.{◌≡◌, ◌<◌, ◌^◌, ◌++◌, ◌∷◌, length, true, IfOk, OnOk};
ghost use Rattle.std.specs.List.{flat_map};
ghost use Rattle.tr_parts.specs.Piece.{string};
ghost use Rattle.rk_seal.specs.Ops.{are_calls};
ghost use Rattle.rk_seal.specs.Spelling.{op_spelling, list_body, install_spelling};

use crate::ops::{InstallList, Op};
use rk_base::{Bytes, NoMemory, Path};
use std::alloc::Global;
use tr_parts::{push_number, push_string, seal};

// The kind of a call, and its path.
fn push_call(out: &mut Vec<u8>, kind: u8, path: &Path) -> Result<(), NoMemory>
    ensures { OnOk result (out.new.items ≡ out.old.items ++ (kind ∷ string path.now)) }
{
    out.push(kind)?;
    push_string(out, path.text())?;
    Ok(())
}

fn push_op(out: &mut Vec<u8>, op: &Op) -> Result<(), NoMemory>
    ensures { OnOk result (out.new.items ≡ out.old.items ++ op_spelling op.now) }
{
    match op {
        Op::RemoveFile(path) => push_call(out, 1, path),
        Op::RemoveDir(path) => push_call(out, 2, path),
        Op::MakeDir(path) => push_call(out, 3, path),
        Op::Write(path, bytes) => {
            push_call(out, 4, path)?;
            push_string(out, bytes.as_slice())?;
            Ok(())
        }
    }
}

fn push_ops(out: &mut Vec<u8>, ops: &[Op]) -> Result<(), NoMemory>
    ensures { OnOk result (out.new.items ≡ out.old.items ++ flat_map op_spelling ops.now) }
{
    'ops: for op in ops {
        push_op(out, op)?;
    }
    Ok(())
}

/// All but the digest.
pub(crate) fn list_body(alloc: Global, list: &InstallList) -> Result<Vec<u8>, NoMemory>
    ensures body { IfOk result (λ out. out.items ≡ list_body list.now) }
    ensures calls { are_calls list.now ≡ true }
{
    let ops = list.as_slice();
    let mut out = Vec::from_slice(alloc, b"RKI1")?;
    push_number(&mut out, ops.len() as u64)?;
    push_ops(&mut out, ops)?;
    Ok(out)
}

/// The one spelling of a list of calls, sealed by its SHA-256 (FIPS 180-4). It fails for want of memory alone.
pub fn encode(alloc: Global, list: &InstallList) -> Result<Bytes, NoMemory>
    ensures bytes { IfOk result (λ bytes. bytes ≡ install_spelling list.now) }
    ensures calls { are_calls list.now ≡ true }
    ensures memory { IfOk result (λ bytes. length bytes < 2 ^ 64) }
{
    let out = list_body(alloc, list)?;
    seal(out)
}
