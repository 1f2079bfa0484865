// The script's key.
ghost use Rattle.std.specs.Prelude.{◌≡◌, IfOk};
ghost use Rattle.rk_replay.specs.Script.{script_key};

use rk_base::{Bytes, NoMemory, Path, VarList, WordList};
use rk_calls::Key;
use std::alloc::Global;

/// The key of the script: `sh Rikerfile` in the root, without variables.
pub fn script_key(alloc: Global) -> Result<Key, NoMemory>
    ensures { IfOk result (λ key. key ≡ script_key) }
{
    let mut words = WordList::new(Vec::new(alloc));
    words.push(Bytes::from_slice(alloc, b"sh")?)?;
    words.push(Bytes::from_slice(alloc, b"Rikerfile")?)?;
    let wd = Path::root(alloc)?;
    Key::new(alloc, words, wd, VarList::new(alloc))
}
