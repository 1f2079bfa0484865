// The digest at the end of a file.
ghost use Rattle.std.specs.Prelude.{◌≡◌, ◌↔◌, ◌<◌, ◌≤◌, ◌^◌, IsTrue, IfOk, length};
ghost use Rattle.tr_parts.specs.Sealed.{sealed};
ghost use Rattle.tr_parts.specs.Reads.{Opens};

use crate::fault::Damage;
use rk_base::{Bytes, NoMemory};
use sha2::{Digest, Sha256};

/// The bytes, and behind them their SHA-256 (FIPS 180-4). It fails for want of memory alone.
pub fn seal(mut out: Vec<u8>) -> Result<Bytes, NoMemory>
    ensures bytes { IfOk result (λ bytes. bytes ≡ sealed out.items) }
    ensures memory { IfOk result (λ bytes. length bytes < 2 ^ 64) }
{
    let digest = Sha256::digest(out.as_slice());
    out.extend_from_slice(&digest)?;
    let alloc = *out.allocator();
    let bytes = Bytes::new(alloc, out)?;
    Ok(bytes)
}

/// Whether both are the same bytes.
pub fn is_same(a: &[u8], b: &[u8]) -> bool
    ensures { IsTrue result ↔ (a.now ≡ b.now) }
{
    a == b
}

fn digest_of(bytes: &[u8]) -> [u8; 32]
    requires { length bytes.now ≡ 32 }
    ensures { result ≡ bytes.now }
{
    let mut digest = [0u8; 32];
    digest.copy_from_slice(bytes);
    digest
}

/// What stands before the digest, where that is right; else `Short`, with the length, below the least one, or `Digest`, with
/// both.
pub fn open_seal(bytes: &[u8], least: usize) -> Result<&[u8], Damage>
    requires { 32 ≤ least }
    ensures { Opens least bytes.now result }
{
    if bytes.len() < least {
        return Err(Damage::Short(bytes.len() as u64));
    }
    let (front, kept) = bytes.split_at(bytes.len() - 32);
    let computed = Sha256::digest(front);
    let kept = digest_of(kept);
    if is_same(&kept, &computed) {
        Ok(front)
    } else {
        Err(Damage::Digest { kept, computed })
    }
}
