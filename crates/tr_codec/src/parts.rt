// Parts of what is read: modes, truth values and blobs.
ghost use Rattle.std.specs.Prelude.{◌≡◌, ◌==◌, ◌≤◌, ◌<◌, ◌+◌, ◌^◌, ◌∷◌, ◌++◌, ◌&&◌, ℕ, List, [], fold, length, IfOk};
ghost use Rattle.rk_base.specs.Canonical.{is_canonical};
ghost use Rattle.tr_codec.specs.Reading.{given, mode_at, flag_of, flag_at, many_at, fresh_at, blob_at};
ghost use Rattle.tr_codec.specs.Used.{used_with, used_by, all_used};
ghost use Rattle.tr_parts.specs.Reads.{Gives};

use rk_base::{Bytes, Path};
use rk_content::Contents;
use std::alloc::Global;
use tr_parts::{PartErr, byte_of, mode_of, number_of, string_of};

/// Room for so many things of at least so many bytes each, as far as there are bytes for them: no more memory is asked for than
/// what these can need.
pub(crate) fn room_for(count: u64, least: usize, bytes: &[u8]) -> usize
    requires { 0 < least }
    ensures { result ≤ length bytes.now }
{
    let most = bytes.len() / least;
    if count < most as u64 {
        count as usize
    } else {
        most
    }
}

/// A mode, to 0777.
#[tactic(auto, unfolding(tr_parts::specs::Reading::mode_at))]
pub(crate) fn permissions_of(bytes: &[u8]) -> Result<(u16, &[u8]), PartErr>
    ensures { Gives (λ x. (x.0, x.1.now)) result (mode_at bytes.now) }
{
    let (mode, rest) = mode_of(bytes)?;
    if mode <= 0o777 {
        Ok((mode, rest))
    } else {
        Err(PartErr::Form)
    }
}

/// The path that a text is, where it is canonical. It shares the text's bytes.
pub(crate) fn path_from(text: &Bytes) -> Result<Path, PartErr>
    ensures { Gives (λ p. p) result (given (is_canonical text.now) text.now) }
{
    match Path::from_text(text)? {
        Some(path) => Ok(path),
        None => Err(PartErr::Form),
    }
}

fn flag_from(code: u8) -> Result<bool, PartErr>
    ensures { Gives (λ flag. flag) result (flag_of code) }
{
    match code {
        0 => Ok(false),
        1 => Ok(true),
        _ => Err(PartErr::Form),
    }
}

/// A truth value.
#[tactic(auto, unfolding(tr_parts::specs::Reading::flag_at))]
pub(crate) fn flag_of(bytes: &[u8]) -> Result<(bool, &[u8]), PartErr>
    ensures { Gives (λ x. (x.0, x.1.now)) result (flag_at bytes.now) }
{
    let (code, rest) = byte_of(bytes)?;
    let flag = flag_from(code)?;
    Ok((flag, rest))
}

// How many blobs are in use after a use of the one with this number, unless others were skipped.
#[tactic(auto, unfolding(crate::specs::Used::used_with))]
fn used_with(used: Option<usize>, n: usize) -> Option<usize>
    requires { n + 1 < 2 ^ 64 }
    ensures { result ≡ used_with used n }
{
    let used = used?;
    if n < used {
        Some(used)
    } else if n == used {
        Some(n + 1)
    } else {
        None
    }
}

/// The text of the blob with the number that stands there, which is in use then.
#[tactic(auto, unfolding(tr_parts::specs::Reading::blob_at))]
pub(crate) fn blob_of<'a>(
    blobs: &Contents,
    used: &mut Option<usize>,
    bytes: &'a [u8],
) -> Result<(Bytes, &'a [u8]), PartErr>
    ensures gives { Gives (λ x. (x.0, x.1.now)) result (blob_at blobs.now bytes.now) }
    ensures used { IfOk result (λ x. used.new ≡ used_by blobs.now used.old x.0) }
{
    let (n, rest) = number_of(bytes)?;
    let n = n as usize;
    match blobs.as_slice().get(n) {
        None => Err(PartErr::Form),
        Some(blob) => {
            let text = blob.copy()?;
            *used = used_with(*used, n);
            Ok((text, rest))
        }
    }
}

// One blob more: a text that isn't one of those before. It is hashed once.
#[tactic(auto, unfolding(crate::specs::Reading::fresh_at))]
fn fresh_of<'a>(
    alloc: Global,
    blobs: &mut Contents,
    bytes: &'a [u8],
) -> Result<(Bytes, &'a [u8]), PartErr>
    ensures gives { Gives (λ x. (x.0, x.1.now)) result (fresh_at blobs.old bytes.now) }
    ensures blobs { IfOk result (λ x. blobs.new ≡ blobs.old ++ x.0 ∷ []) }
{
    let (text, rest) = string_of(alloc, bytes)?;
    let before = blobs.as_slice().len();
    blobs.put(&text)?;
    if blobs.as_slice().len() == before {
        return Err(PartErr::Form);
    }
    Ok((text, rest))
}

/// The blobs of a table, each once.
pub fn fresh_blobs(alloc: Global, count: u64, bytes: &[u8]) -> Result<(Contents, &[u8]), PartErr>
    ensures { Gives (λ x. (x.0, x.1.now)) result (many_at fresh_at count [] bytes.now) }
{
    let mut blobs = Contents::new(alloc);
    let mut rest = bytes;
    'blobs: for _ in 0..count {
        let (_, after) = fresh_of(alloc, &mut blobs, rest)?;
        rest = after;
    }
    Ok((blobs, rest))
}

/// So many blobs.
pub(crate) fn blobs_of<'a>(
    alloc: Global,
    blobs: &Contents,
    used: &mut Option<usize>,
    count: u64,
    bytes: &'a [u8],
) -> Result<(Vec<Bytes>, &'a [u8]), PartErr>
    ensures gives { Gives (λ x. (x.0.items, x.1.now)) result (many_at (λ front. blob_at blobs.now) count [] bytes.now) }
    ensures used { IfOk result (λ x. used.new ≡ fold (used_by blobs.now) used.old x.0.items) }
{
    // The number of a blob has eight bytes.
    let mut texts = Vec::with_capacity(alloc, room_for(count, 8, bytes))?;
    let mut rest = bytes;
    'texts: for _ in 0..count {
        let (text, after) = blob_of(blobs, used, rest)?;
        texts.push(text)?;
        rest = after;
    }
    Ok((texts, rest))
}

/// Whether all of so many are in use.
pub(crate) fn all_used(used: Option<usize>, many: usize) -> bool
    ensures { result ≡ all_used used many }
{
    match used {
        None => false,
        Some(used) => used == many,
    }
}

/// Whether so many blobs are all in use, and nothing stands behind them.
pub(crate) fn all_read(used: Option<usize>, blobs: usize, rest: &[u8]) -> bool
    ensures { result ≡ (all_used used blobs && (length rest.now == 0)) }
{
    all_used(used, blobs) && rest.is_empty()
}
