// Calls that are read.
ghost use Rattle.std.specs.Prelude.{◌≡◌, ℕ, List, Option, IfOk};
ghost use Rattle.rk_base.specs.Text.{Text};
ghost use Rattle.rk_calls.specs.declared.call.Call.TheVariants as call;
ghost use Rattle.tr_codec.specs.Reading.{how_of, number_call_at, path_call_at, texts_call_at, mode_call_at, open_at, write_at, stat_at, launch_at, call_of, call_at};
ghost use Rattle.tr_codec.specs.Used.{call_used};
ghost use Rattle.tr_parts.specs.Reads.{Gives};

use crate::keys::{key_of, map_of};
use crate::parts::{blob_of, flag_of, permissions_of};
use crate::recent::Recent;
use rk_calls::{Call, How};
use rk_content::Contents;
use std::alloc::Global;
use tr_parts::{PartErr, byte_of, number_of};

fn how_of(code: u8) -> Result<How, PartErr>
    ensures { Gives (λ how. how) result (how_of code) }
{
    match code {
        0 => Ok(How::Read),
        1 => Ok(How::Make),
        2 => Ok(How::Append),
        _ => Err(PartErr::Form),
    }
}

#[tactic(auto, unfolding(crate::specs::Reading::open_at))]
fn open_of<'a>(
    blobs: &Contents,
    used: &mut Option<usize>,
    bytes: &'a [u8],
) -> Result<(Call, &'a [u8]), PartErr>
    ensures gives { Gives (λ x. (x.0, x.1.now)) result (open_at blobs.now bytes.now) }
    ensures used { IfOk result (λ x. used.new ≡ call_used blobs.now used.old x.0) }
{
    let (path, rest) = blob_of(blobs, used, bytes)?;
    let (code, rest) = byte_of(rest)?;
    let how = how_of(code)?;
    Ok((Call::Open(path, how), rest))
}

#[tactic(auto, unfolding(crate::specs::Reading::number_call_at))]
fn read_of(bytes: &[u8]) -> Result<(Call, &[u8]), PartErr>
    ensures gives { Gives (λ x. (x.0, x.1.now)) result (number_call_at call.Read bytes.now) }
    ensures none { (blobs : List Text) (used : Option ℕ) → IfOk result (λ x. used ≡ call_used blobs used x.0) }
{
    let (r, rest) = number_of(bytes)?;
    Ok((Call::Read(r), rest))
}

#[tactic(auto, unfolding(crate::specs::Reading::number_call_at))]
fn read_line_of(bytes: &[u8]) -> Result<(Call, &[u8]), PartErr>
    ensures gives { Gives (λ x. (x.0, x.1.now)) result (number_call_at call.ReadLine bytes.now) }
    ensures none { (blobs : List Text) (used : Option ℕ) → IfOk result (λ x. used ≡ call_used blobs used x.0) }
{
    let (r, rest) = number_of(bytes)?;
    Ok((Call::ReadLine(r), rest))
}

#[tactic(auto, unfolding(crate::specs::Reading::write_at))]
fn write_of<'a>(
    blobs: &Contents,
    used: &mut Option<usize>,
    bytes: &'a [u8],
) -> Result<(Call, &'a [u8]), PartErr>
    ensures gives { Gives (λ x. (x.0, x.1.now)) result (write_at blobs.now bytes.now) }
    ensures used { IfOk result (λ x. used.new ≡ call_used blobs.now used.old x.0) }
{
    let (r, rest) = number_of(bytes)?;
    let (text, rest) = blob_of(blobs, used, rest)?;
    Ok((Call::Write(r, text), rest))
}

#[tactic(auto, unfolding(crate::specs::Reading::stat_at))]
fn stat_of<'a>(
    blobs: &Contents,
    used: &mut Option<usize>,
    bytes: &'a [u8],
) -> Result<(Call, &'a [u8]), PartErr>
    ensures gives { Gives (λ x. (x.0, x.1.now)) result (stat_at blobs.now bytes.now) }
    ensures used { IfOk result (λ x. used.new ≡ call_used blobs.now used.old x.0) }
{
    let (path, rest) = blob_of(blobs, used, bytes)?;
    let (follow, rest) = flag_of(rest)?;
    Ok((Call::Stat(path, follow), rest))
}

#[tactic(auto, unfolding(crate::specs::Reading::path_call_at))]
fn list_of<'a>(
    blobs: &Contents,
    used: &mut Option<usize>,
    bytes: &'a [u8],
) -> Result<(Call, &'a [u8]), PartErr>
    ensures gives { Gives (λ x. (x.0, x.1.now)) result (path_call_at call.List blobs.now bytes.now) }
    ensures used { IfOk result (λ x. used.new ≡ call_used blobs.now used.old x.0) }
{
    let (path, rest) = blob_of(blobs, used, bytes)?;
    Ok((Call::List(path), rest))
}

#[tactic(auto, unfolding(crate::specs::Reading::path_call_at))]
fn read_link_of<'a>(
    blobs: &Contents,
    used: &mut Option<usize>,
    bytes: &'a [u8],
) -> Result<(Call, &'a [u8]), PartErr>
    ensures gives { Gives (λ x. (x.0, x.1.now)) result (path_call_at call.ReadLink blobs.now bytes.now) }
    ensures used { IfOk result (λ x. used.new ≡ call_used blobs.now used.old x.0) }
{
    let (path, rest) = blob_of(blobs, used, bytes)?;
    Ok((Call::ReadLink(path), rest))
}

#[tactic(auto, unfolding(crate::specs::Reading::path_call_at))]
fn walk_of<'a>(
    blobs: &Contents,
    used: &mut Option<usize>,
    bytes: &'a [u8],
) -> Result<(Call, &'a [u8]), PartErr>
    ensures gives { Gives (λ x. (x.0, x.1.now)) result (path_call_at call.Walk blobs.now bytes.now) }
    ensures used { IfOk result (λ x. used.new ≡ call_used blobs.now used.old x.0) }
{
    let (path, rest) = blob_of(blobs, used, bytes)?;
    Ok((Call::Walk(path), rest))
}

#[tactic(auto, unfolding(crate::specs::Reading::texts_call_at))]
fn same_of<'a>(
    blobs: &Contents,
    used: &mut Option<usize>,
    bytes: &'a [u8],
) -> Result<(Call, &'a [u8]), PartErr>
    ensures gives { Gives (λ x. (x.0, x.1.now)) result (texts_call_at call.Same blobs.now bytes.now) }
    ensures used { IfOk result (λ x. used.new ≡ call_used blobs.now used.old x.0) }
{
    let (a, rest) = blob_of(blobs, used, bytes)?;
    let (b, rest) = blob_of(blobs, used, rest)?;
    Ok((Call::Same(a, b), rest))
}

#[tactic(auto, unfolding(crate::specs::Reading::mode_call_at))]
fn mkdir_of<'a>(
    blobs: &Contents,
    used: &mut Option<usize>,
    bytes: &'a [u8],
) -> Result<(Call, &'a [u8]), PartErr>
    ensures gives { Gives (λ x. (x.0, x.1.now)) result (mode_call_at call.Mkdir blobs.now bytes.now) }
    ensures used { IfOk result (λ x. used.new ≡ call_used blobs.now used.old x.0) }
{
    let (path, rest) = blob_of(blobs, used, bytes)?;
    let (mode, rest) = permissions_of(rest)?;
    Ok((Call::Mkdir(path, mode), rest))
}

#[tactic(auto, unfolding(crate::specs::Reading::path_call_at))]
fn rmdir_of<'a>(
    blobs: &Contents,
    used: &mut Option<usize>,
    bytes: &'a [u8],
) -> Result<(Call, &'a [u8]), PartErr>
    ensures gives { Gives (λ x. (x.0, x.1.now)) result (path_call_at call.Rmdir blobs.now bytes.now) }
    ensures used { IfOk result (λ x. used.new ≡ call_used blobs.now used.old x.0) }
{
    let (path, rest) = blob_of(blobs, used, bytes)?;
    Ok((Call::Rmdir(path), rest))
}

#[tactic(auto, unfolding(crate::specs::Reading::path_call_at))]
fn unlink_of<'a>(
    blobs: &Contents,
    used: &mut Option<usize>,
    bytes: &'a [u8],
) -> Result<(Call, &'a [u8]), PartErr>
    ensures gives { Gives (λ x. (x.0, x.1.now)) result (path_call_at call.Unlink blobs.now bytes.now) }
    ensures used { IfOk result (λ x. used.new ≡ call_used blobs.now used.old x.0) }
{
    let (path, rest) = blob_of(blobs, used, bytes)?;
    Ok((Call::Unlink(path), rest))
}

#[tactic(auto, unfolding(crate::specs::Reading::texts_call_at))]
fn rename_of<'a>(
    blobs: &Contents,
    used: &mut Option<usize>,
    bytes: &'a [u8],
) -> Result<(Call, &'a [u8]), PartErr>
    ensures gives { Gives (λ x. (x.0, x.1.now)) result (texts_call_at call.Rename blobs.now bytes.now) }
    ensures used { IfOk result (λ x. used.new ≡ call_used blobs.now used.old x.0) }
{
    let (a, rest) = blob_of(blobs, used, bytes)?;
    let (b, rest) = blob_of(blobs, used, rest)?;
    Ok((Call::Rename(a, b), rest))
}

#[tactic(auto, unfolding(crate::specs::Reading::texts_call_at))]
fn symlink_of<'a>(
    blobs: &Contents,
    used: &mut Option<usize>,
    bytes: &'a [u8],
) -> Result<(Call, &'a [u8]), PartErr>
    ensures gives { Gives (λ x. (x.0, x.1.now)) result (texts_call_at call.Symlink blobs.now bytes.now) }
    ensures used { IfOk result (λ x. used.new ≡ call_used blobs.now used.old x.0) }
{
    let (text, rest) = blob_of(blobs, used, bytes)?;
    let (path, rest) = blob_of(blobs, used, rest)?;
    Ok((Call::Symlink(text, path), rest))
}

#[tactic(auto, unfolding(crate::specs::Reading::texts_call_at))]
fn link_of<'a>(
    blobs: &Contents,
    used: &mut Option<usize>,
    bytes: &'a [u8],
) -> Result<(Call, &'a [u8]), PartErr>
    ensures gives { Gives (λ x. (x.0, x.1.now)) result (texts_call_at call.Link blobs.now bytes.now) }
    ensures used { IfOk result (λ x. used.new ≡ call_used blobs.now used.old x.0) }
{
    let (a, rest) = blob_of(blobs, used, bytes)?;
    let (b, rest) = blob_of(blobs, used, rest)?;
    Ok((Call::Link(a, b), rest))
}

#[tactic(auto, unfolding(crate::specs::Reading::mode_call_at))]
fn chmod_of<'a>(
    blobs: &Contents,
    used: &mut Option<usize>,
    bytes: &'a [u8],
) -> Result<(Call, &'a [u8]), PartErr>
    ensures gives { Gives (λ x. (x.0, x.1.now)) result (mode_call_at call.Chmod blobs.now bytes.now) }
    ensures used { IfOk result (λ x. used.new ≡ call_used blobs.now used.old x.0) }
{
    let (path, rest) = blob_of(blobs, used, bytes)?;
    let (mode, rest) = permissions_of(rest)?;
    Ok((Call::Chmod(path, mode), rest))
}

#[tactic(auto, unfolding(crate::specs::Reading::launch_at))]
fn launch_of<'a>(
    alloc: Global,
    blobs: &Contents,
    used: &mut Option<usize>,
    recent: &mut Recent,
    bytes: &'a [u8],
) -> Result<(Call, &'a [u8]), PartErr>
    ensures gives { Gives (λ x. (x.0, x.1.now)) result (launch_at blobs.now bytes.now) }
    ensures used { IfOk result (λ x. used.new ≡ call_used blobs.now used.old x.0) }
{
    let (key, rest) = key_of(alloc, blobs, used, recent, bytes)?;
    let (map, rest) = map_of(alloc, recent, rest)?;
    Ok((Call::Launch(key, map), rest))
}

fn call_after<'a>(
    alloc: Global,
    blobs: &Contents,
    used: &mut Option<usize>,
    recent: &mut Recent,
    kind: u8,
    bytes: &'a [u8],
) -> Result<(Call, &'a [u8]), PartErr>
    ensures gives { Gives (λ x. (x.0, x.1.now)) result (call_of blobs.now kind bytes.now) }
    ensures used { IfOk result (λ x. used.new ≡ call_used blobs.now used.old x.0) }
{
    match kind {
        1 => open_of(blobs, used, bytes),
        2 => read_of(bytes),
        3 => read_line_of(bytes),
        4 => write_of(blobs, used, bytes),
        5 => stat_of(blobs, used, bytes),
        6 => list_of(blobs, used, bytes),
        7 => read_link_of(blobs, used, bytes),
        8 => walk_of(blobs, used, bytes),
        9 => same_of(blobs, used, bytes),
        10 => mkdir_of(blobs, used, bytes),
        11 => rmdir_of(blobs, used, bytes),
        12 => unlink_of(blobs, used, bytes),
        13 => rename_of(blobs, used, bytes),
        14 => symlink_of(blobs, used, bytes),
        15 => link_of(blobs, used, bytes),
        16 => chmod_of(blobs, used, bytes),
        17 => Ok((Call::Pipe, bytes)),
        18 => launch_of(alloc, blobs, used, recent, bytes),
        _ => Err(PartErr::Form),
    }
}

#[tactic(auto, unfolding(crate::specs::Reading::call_at))]
pub(crate) fn call_of<'a>(
    alloc: Global,
    blobs: &Contents,
    used: &mut Option<usize>,
    recent: &mut Recent,
    bytes: &'a [u8],
) -> Result<(Call, &'a [u8]), PartErr>
    ensures gives { Gives (λ x. (x.0, x.1.now)) result (call_at blobs.now bytes.now) }
    ensures used { IfOk result (λ x. used.new ≡ call_used blobs.now used.old x.0) }
{
    let (kind, rest) = byte_of(bytes)?;
    let (call, rest) = call_after(alloc, blobs, used, recent, kind, rest)?;
    Ok((call, rest))
}
