// Places of directories.
ghost use Rattle.std.specs.Prelude.{◌≡◌, IfOk};
ghost use Rattle.rk_base.specs.Text.{begins_with, stem, is_within};
ghost use Rattle.ut_copy.specs.Places.{begins_below};
ghost use Rattle.ut_copy.specs.Deep.{parent};

use rk_base::{Bytes, NoMemory, Path};
use rk_calls::absolute;
use std::alloc::Global;
use ut_files::{Manner, dirname};

/// The directory that a target is to stand in.
pub(crate) fn parent(alloc: Global, manner: &Manner, target: &Bytes) -> Result<Bytes, NoMemory>
    ensures { IfOk result (λ path. path ≡ parent manner.now target.now) }
{
    let path = absolute(alloc, &manner.wd, target.as_slice())?;
    Bytes::from_slice(alloc, dirname(path.as_slice()))
}

fn stem(path: &Path) -> &[u8]
    ensures { result.now ≡ stem path.now }
{
    if path.is_root() { b"" } else { path.text() }
}

fn begins_with(text: &[u8], front: &[u8]) -> bool
    ensures { result ≡ begins_with text.now front.now }
{
    if text.len() < front.len() {
        return text == front;
    }
    text.split_at(front.len()).0 == front
}

fn begins_below(alloc: Global, above: &Path, path: &Path) -> Result<bool, NoMemory>
    ensures { IfOk result (λ is. is ≡ begins_below above.now path.now) }
{
    let mut front = Vec::from_slice(alloc, stem(above))?;
    front.push(b'/')?;
    Ok(begins_with(path.text(), front.as_slice()))
}

/// Whether a path is this one or stands anywhere below it.
#[tactic(auto, unfolding(rk_base::specs::Text::is_within))]
pub(crate) fn is_within(alloc: Global, above: &Path, path: &Path) -> Result<bool, NoMemory>
    ensures { IfOk result (λ is. is ≡ is_within above.now path.now) }
{
    let below = begins_below(alloc, above, path)?;
    Ok(path.text() == above.text() || below)
}
