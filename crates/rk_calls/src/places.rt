// Operands as the texts of paths.
ghost use Rattle.std.specs.Prelude.{◌≡◌, IfOk};
ghost use Rattle.rk_base.specs.Text.{stem, join};
ghost use Rattle.rk_calls.specs.Places.{absolute};

use rk_base::{Bytes, NoMemory, Path};
use std::alloc::Global;

// A path as what a slash and an operand are put after.
fn stem(wd: &Path) -> &[u8]
    ensures { result.now ≡ stem wd.now }
{
    if wd.is_root() { b"" } else { wd.text() }
}

#[tactic(auto, unfolding(rk_base::specs::Text::join))]
fn join(alloc: Global, wd: &Path, operand: &[u8]) -> Result<Bytes, NoMemory>
    ensures { IfOk result (λ path. path ≡ join wd.now operand.now) }
{
    let mut path = Vec::from_slice(alloc, stem(wd))?;
    path.push(b'/')?;
    path.extend_from_slice(operand)?;
    let path = Bytes::new(alloc, path)?;
    Ok(path)
}

/// The text of the path that an operand names, from a working directory. An empty operand stays empty.
#[tactic(auto, unfolding(crate::specs::Places::absolute))]
pub fn absolute(alloc: Global, wd: &Path, operand: &[u8]) -> Result<Bytes, NoMemory>
    ensures { IfOk result (λ path. path ≡ absolute wd.now operand.now) }
{
    match operand {
        [] => Bytes::from_slice(alloc, b""),
        [b'/', ..] => Bytes::from_slice(alloc, operand),
        [_, ..] => join(alloc, wd, operand),
    }
}
