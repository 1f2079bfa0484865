// Keys and descriptors that are read.
ghost use Rattle.std.specs.Prelude.{◌≡◌, ℕ, List, [], fold, IfOk};
ghost use Rattle.rk_base.specs.Variables.{are_variables};
ghost use Rattle.rk_calls.specs.Keys.{is_key};
ghost use Rattle.rk_calls.specs.RefMaps.{is_refmap};
ghost use Rattle.tr_codec.specs.Reading.{counted_at, given, many_at, blob_at, var_at, key_from, key_at, pair_at, map_at};
ghost use Rattle.tr_codec.specs.Used.{used_by, var_used, key_used};
ghost use Rattle.tr_parts.specs.Reads.{Gives};

use crate::parts::{blob_of, blobs_of, path_from, room_for};
use crate::recent::{Recent, mark_of, recent_key, recent_map};
use rk_base::{Bytes, Path, Var, VarList, WordList};
use rk_calls::{Key, RefMap};
use rk_content::Contents;
use std::alloc::Global;
use tr_parts::{PartErr, byte_of, count_of, number_of};

fn words_of<'a>(
    alloc: Global,
    blobs: &Contents,
    used: &mut Option<usize>,
    bytes: &'a [u8],
) -> Result<(Vec<Bytes>, &'a [u8]), PartErr>
    ensures gives { Gives (λ x. (x.0.items, x.1.now)) result (counted_at (λ front. blob_at blobs.now) bytes.now) }
    ensures used { IfOk result (λ x. used.new ≡ fold (used_by blobs.now) used.old x.0.items) }
{
    let (count, rest) = count_of(bytes)?;
    let (words, rest) = blobs_of(alloc, blobs, used, count, rest)?;
    Ok((words, rest))
}

#[tactic(auto, unfolding(crate::specs::Reading::var_at))]
fn var_of<'a>(
    blobs: &Contents,
    used: &mut Option<usize>,
    bytes: &'a [u8],
) -> Result<(Var, &'a [u8]), PartErr>
    ensures gives { Gives (λ x. (x.0, x.1.now)) result (var_at blobs.now bytes.now) }
    ensures used { IfOk result (λ x. used.new ≡ var_used blobs.now used.old x.0) }
{
    let (name, rest) = blob_of(blobs, used, bytes)?;
    let (value, rest) = blob_of(blobs, used, rest)?;
    Ok((Var { name, value }, rest))
}

fn so_many_vars<'a>(
    alloc: Global,
    blobs: &Contents,
    used: &mut Option<usize>,
    count: u64,
    bytes: &'a [u8],
) -> Result<(Vec<Var>, &'a [u8]), PartErr>
    ensures gives { Gives (λ x. (x.0.items, x.1.now)) result (many_at (λ front. var_at blobs.now) count [] bytes.now) }
    ensures used { IfOk result (λ x. used.new ≡ fold (var_used blobs.now) used.old x.0.items) }
{
    let mut vars = Vec::new(alloc);
    let mut rest = bytes;
    'vars: for _ in 0..count {
        let (var, after) = var_of(blobs, used, rest)?;
        vars.push(var)?;
        rest = after;
    }
    Ok((vars, rest))
}

fn vars_of<'a>(
    alloc: Global,
    blobs: &Contents,
    used: &mut Option<usize>,
    bytes: &'a [u8],
) -> Result<(Vec<Var>, &'a [u8]), PartErr>
    ensures gives { Gives (λ x. (x.0.items, x.1.now)) result (counted_at (λ front. var_at blobs.now) bytes.now) }
    ensures used { IfOk result (λ x. used.new ≡ fold (var_used blobs.now) used.old x.0.items) }
{
    let (count, rest) = count_of(bytes)?;
    let (vars, rest) = so_many_vars(alloc, blobs, used, count, rest)?;
    Ok((vars, rest))
}

fn var_list_of(vars: Vec<Var>) -> Result<VarList, PartErr>
    ensures { Gives (λ l. l) result (given (are_variables vars.items) vars.items) }
{
    match VarList::from_vec(vars) {
        Some(vars) => Ok(vars),
        None => Err(PartErr::Form),
    }
}

fn whole_key(alloc: Global, argv: Vec<Bytes>, wd: Path, vars: VarList) -> Result<Key, PartErr>
    ensures { Gives (λ k. k) result (given (is_key argv.items vars) (record { argv = argv.items; wd = wd; vars = vars })) }
{
    match Key::from_parts(alloc, WordList::new(argv), wd, vars)? {
        Some(key) => Ok(key),
        None => Err(PartErr::Form),
    }
}

// The key of these parts, where they are parts of one.
fn key_from(alloc: Global, argv: Vec<Bytes>, wd: &Bytes, vars: Vec<Var>) -> Result<Key, PartErr>
    ensures { Gives (λ k. k) result (key_from argv.items wd.now vars.items) }
{
    let wd = path_from(wd)?;
    let vars = var_list_of(vars)?;
    whole_key(alloc, argv, wd, vars)
}

// A key of its own, of the parts that stand there.
#[tactic(auto, unfolding(crate::specs::Reading::key_at))]
fn own_key<'a>(
    alloc: Global,
    blobs: &Contents,
    used: &mut Option<usize>,
    bytes: &'a [u8],
) -> Result<(Key, &'a [u8]), PartErr>
    ensures gives { Gives (λ x. (x.0, x.1.now)) result (key_at blobs.now bytes.now) }
    ensures used { IfOk result (λ x. used.new ≡ key_used blobs.now used.old x.0) }
{
    let (argv, rest) = words_of(alloc, blobs, used, bytes)?;
    let (wd, rest) = blob_of(blobs, used, rest)?;
    let (vars, rest) = vars_of(alloc, blobs, used, rest)?;
    let key = key_from(alloc, argv, &wd, vars)?;
    Ok((key, rest))
}

/// The key that stands there: a copy of the one that was read before, where it was.
pub(crate) fn key_of<'a>(
    alloc: Global,
    blobs: &Contents,
    used: &mut Option<usize>,
    recent: &mut Recent,
    bytes: &'a [u8],
) -> Result<(Key, &'a [u8]), PartErr>
    ensures gives { Gives (λ x. (x.0, x.1.now)) result (key_at blobs.now bytes.now) }
    ensures used { IfOk result (λ x. used.new ≡ key_used blobs.now used.old x.0) }
{
    let mark = mark_of(bytes);
    let known = recent_key(recent.keys.get(&mark), blobs, used, bytes)?;
    if let Some(known) = known {
        return Ok(known);
    }
    let (key, rest) = own_key(alloc, blobs, used, bytes)?;
    recent.keys.insert(mark, key.copy()?)?;
    Ok((key, rest))
}

#[tactic(auto, unfolding(crate::specs::Reading::pair_at))]
pub(crate) fn pair_of(bytes: &[u8]) -> Result<((u8, u64), &[u8]), PartErr>
    ensures { Gives (λ x. (x.0, x.1.now)) result (pair_at bytes.now) }
{
    let (d, rest) = byte_of(bytes)?;
    let (n, rest) = number_of(rest)?;
    Ok(((d, n), rest))
}

fn so_many_pairs(
    alloc: Global,
    count: u64,
    bytes: &[u8],
) -> Result<(Vec<(u8, u64)>, &[u8]), PartErr>
    ensures { Gives (λ x. (x.0.items, x.1.now)) result (many_at (λ front. pair_at) count [] bytes.now) }
{
    // A pair has nine bytes.
    let mut pairs = Vec::with_capacity(alloc, room_for(count, 9, bytes))?;
    let mut rest = bytes;
    'pairs: for _ in 0..count {
        let (pair, after) = pair_of(rest)?;
        pairs.push(pair)?;
        rest = after;
    }
    Ok((pairs, rest))
}

fn map_from(alloc: Global, pairs: Vec<(u8, u64)>) -> Result<RefMap, PartErr>
    ensures { Gives (λ m. m) result (given (is_refmap pairs.items) pairs.items) }
{
    match RefMap::from_vec(alloc, pairs)? {
        Some(map) => Ok(map),
        None => Err(PartErr::Form),
    }
}

// A map of its own, of the pairs that stand there.
#[tactic(auto, unfolding(crate::specs::Reading::map_at))]
fn own_map(alloc: Global, bytes: &[u8]) -> Result<(RefMap, &[u8]), PartErr>
    ensures { Gives (λ x. (x.0, x.1.now)) result (map_at bytes.now) }
{
    let (count, rest) = count_of(bytes)?;
    let (pairs, rest) = so_many_pairs(alloc, count, rest)?;
    let map = map_from(alloc, pairs)?;
    Ok((map, rest))
}

/// The map of descriptors that stands there: a copy of the last one that was read, where it is equal to that.
pub(crate) fn map_of<'a>(
    alloc: Global,
    recent: &mut Recent,
    bytes: &'a [u8],
) -> Result<(RefMap, &'a [u8]), PartErr>
    ensures { Gives (λ x. (x.0, x.1.now)) result (map_at bytes.now) }
{
    let known = recent_map(&recent.map, bytes)?;
    if let Some(known) = known {
        return Ok(known);
    }
    let (map, rest) = own_map(alloc, bytes)?;
    recent.map = Some(map.copy()?);
    Ok((map, rest))
}
