// How a utility works.
ghost use Rattle.std.specs.Prelude.{◌≡◌, IfOk};
ghost use Rattle.rk_calls.specs.Places.{absolute};

use rk_base::{Bytes, NoMemory, Path};
use rk_calls::absolute;
use std::alloc::Global;

/// How a utility works: its name, its working directory, and what its options say.
#[derive(Drop)]
pub struct Manner {
    pub name: Bytes,
    pub wd: Path,
    /// Whether what stands in the way is removed, or what isn't there is passed over.
    pub force: bool,
    /// Whether what is in a directory is meant too.
    pub recursive: bool,
    /// Whether links are symbolic.
    pub symbolic: bool,
}

impl Manner {
    /// The text of the path that an operand names.
    pub fn at(&self, alloc: Global, operand: &Bytes) -> Result<Bytes, NoMemory>
        ensures { IfOk result (λ path. path ≡ absolute self.now.wd operand.now) }
    {
        absolute(alloc, &self.wd, operand.as_slice())
    }
}
