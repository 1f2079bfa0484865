// Parts of what is read, each with the bytes behind it: numbers, strings and paths.
ghost use Rattle.std.specs.Prelude.{◌≡◌};
ghost use Rattle.std.specs.Int.{w16, w32, w64};
ghost use Rattle.rk_base.specs.Canonical.{is_canonical};
ghost use Rattle.tr_parts.specs.Reading.{given, number_at, byte_at, count_at, string_at};
ghost use Rattle.tr_parts.specs.Reads.{Gives};

use crate::fault::PartErr;
use rk_base::{Bytes, Path, PathFault};
use std::alloc::Global;

/// A number of eight bytes, the greatest first, and the bytes behind it.
#[tactic(auto, unfolding(crate::specs::Reading::number_at))]
pub fn number_of(bytes: &[u8]) -> Result<(u64, &[u8]), PartErr>
    ensures { Gives (λ x. (x.0, x.1.now)) result (number_at w64 bytes.now) }
{
    if bytes.len() < 8 {
        return Err(PartErr::Form);
    }
    let (front, rest) = bytes.split_at(8);
    let number = u64::from_be_bytes([
        front[0], front[1], front[2], front[3], front[4], front[5], front[6], front[7],
    ]);
    Ok((number, rest))
}

/// A number of four bytes.
#[tactic(auto, unfolding(crate::specs::Reading::number_at))]
pub fn cost_of(bytes: &[u8]) -> Result<(u32, &[u8]), PartErr>
    ensures { Gives (λ x. (x.0, x.1.now)) result (number_at w32 bytes.now) }
{
    if bytes.len() < 4 {
        return Err(PartErr::Form);
    }
    let (front, rest) = bytes.split_at(4);
    let number = u32::from_be_bytes([front[0], front[1], front[2], front[3]]);
    Ok((number, rest))
}

/// A number of two bytes.
#[tactic(auto, unfolding(crate::specs::Reading::number_at))]
pub fn mode_of(bytes: &[u8]) -> Result<(u16, &[u8]), PartErr>
    ensures { Gives (λ x. (x.0, x.1.now)) result (number_at w16 bytes.now) }
{
    if bytes.len() < 2 {
        return Err(PartErr::Form);
    }
    let (front, rest) = bytes.split_at(2);
    let number = u16::from_be_bytes([front[0], front[1]]);
    Ok((number, rest))
}

/// A number of one byte.
#[tactic(auto, unfolding(crate::specs::Reading::byte_at))]
pub fn byte_of(bytes: &[u8]) -> Result<(u8, &[u8]), PartErr>
    ensures { Gives (λ x. (x.0, x.1.now)) result (byte_at bytes.now) }
{
    match bytes {
        [] => Err(PartErr::Form),
        [b, rest @ ..] => Ok((*b, rest)),
    }
}

/// How many there are: no more than the bytes after it, so that no memory is asked for more.
#[tactic(auto, unfolding(crate::specs::Reading::count_at))]
pub fn count_of(bytes: &[u8]) -> Result<(u64, &[u8]), PartErr>
    ensures { Gives (λ x. (x.0, x.1.now)) result (count_at bytes.now) }
{
    let (n, rest) = number_of(bytes)?;
    if (rest.len() as u64) < n {
        return Err(PartErr::Form);
    }
    Ok((n, rest))
}

/// A text behind its length.
#[tactic(auto, unfolding(crate::specs::Reading::string_at))]
pub fn string_of(alloc: Global, bytes: &[u8]) -> Result<(Bytes, &[u8]), PartErr>
    ensures { Gives (λ x. (x.0, x.1.now)) result (string_at bytes.now) }
{
    let (len, rest) = number_of(bytes)?;
    let len = len as usize;
    if rest.len() < len {
        return Err(PartErr::Form);
    }
    let (text, rest) = rest.split_at(len);
    Ok((Bytes::from_slice(alloc, text)?, rest))
}

/// The path that a text is, where it is canonical.
pub fn path_of(alloc: Global, text: &[u8]) -> Result<Path, PartErr>
    ensures { Gives (λ p. p) result (given (is_canonical text.now) text.now) }
{
    match Path::parse(alloc, text) {
        Ok(path) => Ok(path),
        Err(PathFault::Invalid) => Err(PartErr::Form),
        Err(PathFault::NoMemory) => Err(PartErr::NoMemory),
    }
}
