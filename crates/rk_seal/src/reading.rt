// Reading a list of calls: what the bytes may spell, spelt again and compared.
ghost use Rattle.std.specs.Prelude.{◌≡◌, ◌≢◌, ◌<◌, ◌≤◌, ◌^◌, [], List, length, drop, true, Some, IfOk, IfSome};
ghost use Rattle.sha2.specs.Sha256.{sha256};
ghost use Rattle.rk_base.specs.Canonical.{is_canonical};
ghost use Rattle.tr_parts.specs.Reading.{given, many_at, counted_at};
ghost use Rattle.tr_parts.specs.Reading.{path_at};
ghost use Rattle.tr_parts.specs.Reads.{Tells, Finds, front_of, seal_of};
ghost use Rattle.rk_seal.specs.declared.ops.Op.{Op as Call};
ghost use Rattle.rk_seal.specs.Ops.{are_calls};
ghost use Rattle.rk_seal.specs.Spelling.{list_body, install_spelling};
ghost use Rattle.rk_seal.specs.Reading.{Gives, written_at, op_from, op_at, calls_at};

use crate::ops::{InstallList, Op};
use crate::parts::{byte_of, count_of, string_of};
use crate::writing::list_body;
use rk_base::{Bytes, NoMemory, Path, PathFault};
use std::alloc::Global;
use tr_parts::{CodecErr, Damage, is_same, open_seal};

fn path_from(alloc: Global, text: &[u8]) -> Result<Option<Path>, NoMemory>
    ensures { IfOk result (λ path. path ≡ given (is_canonical text.now) text.now) }
{
    match Path::parse(alloc, text) {
        Ok(path) => Ok(Some(path)),
        Err(PathFault::Invalid) => Ok(None),
        Err(PathFault::NoMemory) => Err(NoMemory),
    }
}

// A path behind the length of its text.
#[tactic(auto, unfolding(tr_parts::specs::Reading::path_at))]
fn path_of(alloc: Global, bytes: &[u8]) -> Result<Option<(Path, &[u8])>, NoMemory>
    ensures { IfOk result (λ r. Gives (λ x. (x.0, x.1.now)) r (path_at bytes.now)) }
{
    match string_of(bytes) {
        None => Ok(None),
        Some((text, rest)) => match path_from(alloc, text)? {
            None => Ok(None),
            Some(path) => Ok(Some((path, rest))),
        },
    }
}

// A write, of what stands behind its path.
#[tactic(auto, unfolding(crate::specs::Reading::written_at))]
fn write_of(alloc: Global, path: Path, bytes: &[u8]) -> Result<Option<(Op, &[u8])>, NoMemory>
    ensures { IfOk result (λ r. Gives (λ x. (x.0, x.1.now)) r (written_at path bytes.now)) }
{
    match string_of(bytes) {
        None => Ok(None),
        Some((text, rest)) => {
            let text = Bytes::from_slice(alloc, text)?;
            Ok(Some((Op::Write(path, text), rest)))
        }
    }
}

// The call of this kind at a path, and what stands behind it.
fn op_from(
    alloc: Global,
    kind: u8,
    path: Path,
    bytes: &[u8],
) -> Result<Option<(Op, &[u8])>, NoMemory>
    ensures { IfOk result (λ r. Gives (λ x. (x.0, x.1.now)) r (op_from kind path bytes.now)) }
{
    match kind {
        1 => Ok(Some((Op::RemoveFile(path), bytes))),
        2 => Ok(Some((Op::RemoveDir(path), bytes))),
        3 => Ok(Some((Op::MakeDir(path), bytes))),
        4 => write_of(alloc, path, bytes),
        _ => Ok(None),
    }
}

#[tactic(auto, unfolding(crate::specs::Reading::op_at))]
fn op_of(alloc: Global, bytes: &[u8]) -> Result<Option<(Op, &[u8])>, NoMemory>
    ensures { IfOk result (λ r. Gives (λ x. (x.0, x.1.now)) r (op_at bytes.now)) }
{
    match byte_of(bytes) {
        None => Ok(None),
        Some((kind, rest)) => match path_of(alloc, rest)? {
            None => Ok(None),
            Some((path, rest)) => op_from(alloc, kind, path, rest),
        },
    }
}

// So many calls.
fn so_many_ops(
    alloc: Global,
    count: u64,
    bytes: &[u8],
) -> Result<Option<(Vec<Op>, &[u8])>, NoMemory>
    ensures { IfOk result (λ r. Gives (λ x. (x.0.items, x.1.now)) r (many_at (λ front. op_at) count [] bytes.now)) }
{
    let mut ops = Vec::new(alloc);
    let mut rest = bytes;
    'ops: for _ in 0..count {
        match op_of(alloc, rest)? {
            None => return Ok(None),
            Some((op, after)) => {
                ops.push(op)?;
                rest = after;
            }
        }
    }
    Ok(Some((ops, rest)))
}

fn counted_ops(alloc: Global, bytes: &[u8]) -> Result<Option<(Vec<Op>, &[u8])>, NoMemory>
    ensures { IfOk result (λ r. Gives (λ x. (x.0.items, x.1.now)) r (counted_at (λ front. op_at) bytes.now)) }
{
    match count_of(bytes) {
        None => Ok(None),
        Some((count, rest)) => so_many_ops(alloc, count, rest),
    }
}

// The calls that a body may spell, after its magic. What stands after them isn't looked at.
#[tactic(auto, unfolding(crate::specs::Reading::calls_at))]
fn calls_of(alloc: Global, bytes: &[u8]) -> Result<Option<InstallList>, NoMemory>
    ensures { IfOk result (λ calls. calls ≡ calls_at bytes.now) }
{
    match counted_ops(alloc, bytes)? {
        None => Ok(None),
        Some((ops, _)) => Ok(InstallList::from_vec(ops)),
    }
}

// What a body may spell. The four bytes at its front are not looked at.
fn candidate(alloc: Global, front: &[u8]) -> Result<Option<InstallList>, NoMemory>
    requires { 4 ≤ length front.now }
    ensures { IfOk result (λ calls. calls ≡ calls_at (drop 4 front.now)) }
{
    let (_, rest) = front.split_at(4);
    calls_of(alloc, rest)
}

// What a body spells: what it may spell is spelt again and compared.
fn body_list(alloc: Global, front: &[u8]) -> Result<Option<InstallList>, NoMemory>
    requires { 4 ≤ length front.now }
    ensures found { IfOk result (λ list. IfSome list (λ calls. (are_calls calls ≡ true) × (front.now ≡ list_body calls))) }
    ensures only { (calls : List Call) → are_calls calls ≡ true → front.now ≡ list_body calls → IfOk result (λ list. list ≡ Some calls) }
{
    match candidate(alloc, front)? {
        None => Ok(None),
        Some(list) => {
            let again = list_body(alloc, &list)?;
            if is_same(&again, front) {
                Ok(Some(list))
            } else {
                Ok(None)
            }
        }
    }
}

/// The list of calls that the bytes spell. Where they are damaged it tells how: `Short`, with their length, below 44 bytes;
/// else `Digest`, with both, where the last 32 bytes aren't the SHA-256 of those before; else `Form`.
pub fn decode(alloc: Global, bytes: &[u8]) -> Result<InstallList, CodecErr>
    // What is read has these bytes as its spelling.
    ensures found { IfOk result (λ calls. (are_calls calls ≡ true) × (bytes.now ≡ install_spelling calls)) }
    // Calls that have these bytes as their spelling are read, unless memory runs out.
    ensures only { (calls : List Call) → are_calls calls ≡ true → bytes.now ≡ install_spelling calls → Finds result calls }
    // Which damage it is, and when it is one of the first two.
    ensures damage { Tells 44 bytes.now result }
    ensures short { length bytes.now < 44 → result ≡ Err (CodecErr.Damaged (Damage.Short (length bytes.now))) }
    ensures digest { 44 ≤ length bytes.now → seal_of bytes.now ≢ sha256 (front_of bytes.now) → result ≡ Err (CodecErr.Damaged (Damage.Digest (seal_of bytes.now) (sha256 (front_of bytes.now)))) }
{
    let front = open_seal(bytes, 44)?;
    match body_list(alloc, front) {
        Ok(Some(list)) => Ok(list),
        Ok(None) => Err(CodecErr::Damaged(Damage::Form)),
        Err(_) => Err(CodecErr::NoMemory),
    }
}
