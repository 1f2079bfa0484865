// Files of a made folder.
ghost use Rattle.std.specs.Prelude.{◌≡◌, IfOk, true};
ghost use Rattle.rk_base.specs.Canonical.{is_canonical};

use rk_base::{Bytes, NoMemory, Path, PathFault};
use std::alloc::Global;

/// A file: where it stands, and its bytes.
#[derive(Debug, Drop)]
pub struct File {
    pub path: Path,
    pub bytes: Bytes,
}

/// The path of a canonical text.
pub(crate) fn path_of(alloc: Global, text: &str) -> Result<Path, NoMemory>
    requires { is_canonical text.now ≡ true }
    ensures { IfOk result (λ p. p ≡ text.now) }
{
    match Path::parse(alloc, text.as_bytes()) {
        Ok(path) => Ok(path),
        Err(PathFault::NoMemory) => Err(NoMemory),
        Err(PathFault::Invalid) => unreachable!(),
    }
}
