// Reading what is kept from its one spelling.
ghost use Rattle.std.specs.Prelude.{◌≡◌, ◌≢◌, ◌↔◌, ◌<◌, ◌≤◌, length, take, List, IfOk, IsTrue};
ghost use Rattle.sha2.specs.Sha256.{sha256};
ghost use Rattle.tr_record.specs.declared.records.Record.{Record as Rec};
ghost use Rattle.tr_kept.specs.KeptReading.{any_at};
ghost use Rattle.tr_kept.specs.KeptSpelling.{magic, kept_spelling, FitsKept, IsKeptSpelling, IsKeptBody};
ghost use Rattle.tr_parts.specs.Reads.{Gives, Tells, Finds, FindsPart, front_of, seal_of};

use crate::generations::kept_of;
use crate::kept::ReadKept;
use std::alloc::Global;
use tr_codec::table_in;
use tr_parts::{CodecErr, Damage, PartErr, is_same, open_seal};

// What is spelt behind the magic, by the version that the magic names.
fn kept_in(alloc: Global, front: &[u8]) -> Result<ReadKept, PartErr>
    requires { 4 ≤ length front.now }
    ensures { Gives (λ x. x) result (any_at front.now) }
{
    let (magic, rest) = front.split_at(4);
    if is_same(magic, b"RKR3") {
        return kept_of(alloc, rest);
    }
    let table = table_in(alloc, front)?;
    let kept = ReadKept::one(alloc, table)?;
    Ok(kept)
}

// What a body spells.
fn body_kept(alloc: Global, front: &[u8]) -> Result<ReadKept, PartErr>
    requires { 4 ≤ length front.now }
    ensures found { IfOk result (λ kept. IsKeptBody front.now kept) }
    ensures only { (kept : List (List Rec)) → IsKeptBody front.now kept → FindsPart result kept }
{
    kept_in(alloc, front)
}

/// Whether bytes begin as those that are written now, and not as those of an earlier version.
pub fn is_latest(bytes: &[u8]) -> bool
    ensures begins { IsTrue result ↔ (take 4 bytes.now ≡ magic) }
    ensures spelling { IsTrue result → (kept : List (List Rec)) → IsKeptSpelling bytes.now kept → FitsKept kept × (bytes.now ≡ kept_spelling kept) }
{
    if bytes.len() < 4 {
        return false;
    }
    let (front, _) = bytes.split_at(4);
    is_same(front, b"RKR3")
}

/// What the bytes keep, as this version spells it; or the one table that an earlier version spelt.
pub fn read_kept(alloc: Global, bytes: &[u8]) -> Result<ReadKept, CodecErr>
    // What is read has these bytes as its spelling.
    ensures found { IfOk result (λ kept. IsKeptSpelling bytes.now kept) }
    // What has these bytes as its spelling is read, unless memory runs out.
    ensures only { (kept : List (List Rec)) → IsKeptSpelling bytes.now kept → Finds result kept }
    // Which damage it is, and when it is one of the first two.
    ensures damage { Tells 52 bytes.now result }
    ensures short { length bytes.now < 52 → result ≡ Err (CodecErr.Damaged (Damage.Short (length bytes.now))) }
    ensures digest { 52 ≤ length bytes.now → seal_of bytes.now ≢ sha256 (front_of bytes.now) → result ≡ Err (CodecErr.Damaged (Damage.Digest (seal_of bytes.now) (sha256 (front_of bytes.now)))) }
{
    let front = open_seal(bytes, 52)?;
    let kept = body_kept(alloc, front)?;
    Ok(kept)
}
