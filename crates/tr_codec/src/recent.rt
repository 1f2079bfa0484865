// Keys and maps of descriptors that stand as some did that were read before: these share their memory.
ghost use Rattle.std.specs.Prelude.{◌≡◌, ℕ, List, [], Some, fold, length, IfOk, IfSome, IfNone};
ghost use Rattle.rk_base.specs.Text.{Text};
ghost use Rattle.tr_codec.specs.Reading.{many_at, counted_at, blob_at, var_at, key_at, pair_at, map_at};
ghost use Rattle.tr_codec.specs.Used.{used_by, var_used, key_used};

use crate::keys::pair_of;
use crate::parts::blob_of;
use indexmap::IndexMap;
use rk_base::{Bytes, NoMemory, Var};
use rk_calls::{Key, RefMap};
use rk_content::Contents;
use std::alloc::Global;
use tr_parts::{count_of, number_of};

/// The keys that were read before, each by a mark of its bytes, and the last map of descriptors. Nothing rests on the mark: what is
/// found by it is compared with the bytes that stand there.
#[derive(Drop)]
pub struct Recent {
    pub(crate) keys: IndexMap<u64, Key>,
    pub(crate) map: Option<RefMap>,
}

impl Recent {
    /// Nothing was read.
    pub fn new(alloc: Global) -> Recent {
        Recent {
            keys: IndexMap::new(alloc),
            map: None,
        }
    }
}

// A mark of the words and of the working directory of the key that stands there, by their numbers.
pub(crate) fn mark_of(bytes: &[u8]) -> u64 {
    let Ok((count, mut rest)) = count_of(bytes) else {
        return 0;
    };
    let mut mark = count;
    'numbers: for _ in 0..=count {
        let Ok((n, after)) = number_of(rest) else {
            return mark;
        };
        mark = mark.wrapping_mul(0x9e37_79b9_7f4a_7c15).rotate_left(5) ^ n;
        rest = after;
    }
    mark
}

// What follows this text, where its blob's number stands there; the blob is in use then.
fn past_text<'a>(
    blobs: &Contents,
    used: &mut Option<usize>,
    text: &Bytes,
    bytes: &'a [u8],
) -> Option<&'a [u8]>
    ensures text { IfSome result (λ rest. blob_at blobs.now bytes.now ≡ Some (text.now, rest.now)) }
    ensures used { IfSome result (λ rest. used.new ≡ used_by blobs.now used.old text.now) }
{
    match blob_of(blobs, used, bytes) {
        Ok((there, rest)) => { if there.same(text) { Some(rest) } else { None } }
        Err(_) => None,
    }
}

// What follows these texts.
fn past_texts<'a>(
    blobs: &Contents,
    used: &mut Option<usize>,
    texts: &[Bytes],
    bytes: &'a [u8],
) -> Option<&'a [u8]>
    ensures texts { IfSome result (λ rest. many_at (λ front. blob_at blobs.now) (length texts.now) [] bytes.now ≡ Some (texts.now, rest.now)) }
    ensures used { IfSome result (λ rest. used.new ≡ fold (used_by blobs.now) used.old texts.now) }
{
    let mut rest = bytes;
    'texts: for text in texts {
        rest = past_text(blobs, used, text, rest)?;
    }
    Some(rest)
}

// What follows the words of a key.
fn past_words<'a>(
    blobs: &Contents,
    used: &mut Option<usize>,
    words: &[Bytes],
    bytes: &'a [u8],
) -> Option<&'a [u8]>
    ensures words { IfSome result (λ rest. counted_at (λ front. blob_at blobs.now) bytes.now ≡ Some (words.now, rest.now)) }
    ensures used { IfSome result (λ rest. used.new ≡ fold (used_by blobs.now) used.old words.now) }
{
    match count_of(bytes) {
        Ok((count, rest)) if count == words.len() as u64 => {
            let rest = past_texts(blobs, used, words, rest)?;
            Some(rest)
        }
        _ => None,
    }
}

#[tactic(auto, unfolding(crate::specs::Reading::var_at))]
fn past_var<'a>(
    blobs: &Contents,
    used: &mut Option<usize>,
    var: &Var,
    bytes: &'a [u8],
) -> Option<&'a [u8]>
    ensures var { IfSome result (λ rest. var_at blobs.now bytes.now ≡ Some (var.now, rest.now)) }
    ensures used { IfSome result (λ rest. used.new ≡ var_used blobs.now used.old var.now) }
{
    let rest = past_text(blobs, used, &var.name, bytes)?;
    let rest = past_text(blobs, used, &var.value, rest)?;
    Some(rest)
}

fn past_each_var<'a>(
    blobs: &Contents,
    used: &mut Option<usize>,
    vars: &[Var],
    bytes: &'a [u8],
) -> Option<&'a [u8]>
    ensures vars { IfSome result (λ rest. many_at (λ front. var_at blobs.now) (length vars.now) [] bytes.now ≡ Some (vars.now, rest.now)) }
    ensures used { IfSome result (λ rest. used.new ≡ fold (var_used blobs.now) used.old vars.now) }
{
    let mut rest = bytes;
    'vars: for var in vars {
        rest = past_var(blobs, used, var, rest)?;
    }
    Some(rest)
}

// What follows the variables of a key.
fn past_vars<'a>(
    blobs: &Contents,
    used: &mut Option<usize>,
    vars: &[Var],
    bytes: &'a [u8],
) -> Option<&'a [u8]>
    ensures vars { IfSome result (λ rest. counted_at (λ front. var_at blobs.now) bytes.now ≡ Some (vars.now, rest.now)) }
    ensures used { IfSome result (λ rest. used.new ≡ fold (var_used blobs.now) used.old vars.now) }
{
    match count_of(bytes) {
        Ok((count, rest)) if count == vars.len() as u64 => {
            let rest = past_each_var(blobs, used, vars, rest)?;
            Some(rest)
        }
        _ => None,
    }
}

// What follows this key, where it stands there; its blobs are in use then.
#[tactic(auto, unfolding(crate::specs::Reading::key_at))]
fn past_key<'a>(
    blobs: &Contents,
    used: &mut Option<usize>,
    key: &Key,
    bytes: &'a [u8],
) -> Option<&'a [u8]>
    ensures key { IfSome result (λ rest. key_at blobs.now bytes.now ≡ Some (key.now, rest.now)) }
    ensures used { IfSome result (λ rest. used.new ≡ key_used blobs.now used.old key.now) }
{
    let rest = past_words(blobs, used, key.argv().as_slice(), bytes)?;
    let rest = past_text(blobs, used, key.wd().bytes(), rest)?;
    let rest = past_vars(blobs, used, key.vars().as_slice(), rest)?;
    Some(rest)
}

// The key of these that stands there, and what follows it; nothing more is in use where there is none.
pub(crate) fn recent_key<'a>(
    key: Option<&Key>,
    blobs: &Contents,
    used: &mut Option<usize>,
    bytes: &'a [u8],
) -> Result<Option<(Key, &'a [u8])>, NoMemory>
    ensures key { IfOk result (λ it. IfSome it (λ x. key_at blobs.now bytes.now ≡ Some (x.0, x.1.now))) }
    ensures used { IfOk result (λ it. IfSome it (λ x. used.new ≡ key_used blobs.now used.old x.0)) }
    ensures none { IfOk result (λ it. IfNone it (used.new ≡ used.old)) }
{
    let Some(key) = key else {
        return Ok(None);
    };
    let mut now = *used;
    let Some(rest) = past_key(blobs, &mut now, key, bytes) else {
        return Ok(None);
    };
    let key = key.copy()?;
    *used = now;
    Ok(Some((key, rest)))
}

// What follows this pair, where it stands there.
fn past_pair(pair: (u8, u64), bytes: &[u8]) -> Option<&[u8]>
    ensures { IfSome result (λ rest. pair_at bytes.now ≡ Some (pair, rest.now)) }
{
    match pair_of(bytes) {
        Ok((there, rest)) if there == pair => Some(rest),
        _ => None,
    }
}

fn past_pairs<'a>(pairs: &[(u8, u64)], bytes: &'a [u8]) -> Option<&'a [u8]>
    ensures { IfSome result (λ rest. many_at (λ front. pair_at) (length pairs.now) [] bytes.now ≡ Some (pairs.now, rest.now)) }
{
    let mut rest = bytes;
    'pairs: for pair in pairs {
        rest = past_pair(*pair, rest)?;
    }
    Some(rest)
}

// What follows this map, where it stands there.
#[tactic(auto, unfolding(crate::specs::Reading::map_at))]
fn past_map<'a>(map: &RefMap, bytes: &'a [u8]) -> Option<&'a [u8]>
    ensures { IfSome result (λ rest. map_at bytes.now ≡ Some (map.now, rest.now)) }
{
    let pairs = map.as_slice();
    match count_of(bytes) {
        Ok((count, rest)) if count == pairs.len() as u64 => {
            let rest = past_pairs(pairs, rest)?;
            Some(rest)
        }
        _ => None,
    }
}

// This map, where it stands there, and what follows it.
pub(crate) fn recent_map<'a>(
    map: &Option<RefMap>,
    bytes: &'a [u8],
) -> Result<Option<(RefMap, &'a [u8])>, NoMemory>
    ensures { IfOk result (λ it. IfSome it (λ x. map_at bytes.now ≡ Some (x.0, x.1.now))) }
{
    let Some(map) = map else {
        return Ok(None);
    };
    let Some(rest) = past_map(map, bytes) else {
        return Ok(None);
    };
    let map = map.copy()?;
    Ok(Some((map, rest)))
}
