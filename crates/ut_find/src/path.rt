// Paths of names in directories.
ghost use Rattle.std.specs.Prelude.{◌≡◌, IfOk};
ghost use Rattle.ut_find.specs.Finds.{joined, last_byte};

use rk_base::{Bytes, NoMemory};
use std::alloc::Global;

// The last byte of a text, or else 0.
fn last_byte(text: &[u8]) -> u8
    ensures { result ≡ last_byte 0 text.now }
{
    let mut last = 0;
    'bytes: for b in text {
        last = *b;
    }
    last
}

/// A name in a directory, after a slash where the directory's path doesn't end with one.
pub(crate) fn joined(alloc: Global, path: &[u8], name: &[u8]) -> Result<Bytes, NoMemory>
    ensures { IfOk result (λ text. text ≡ joined path.now name.now) }
{
    let mut text = Vec::from_slice(alloc, path)?;
    if last_byte(path) != b'/' {
        text.push(b'/')?;
    }
    text.extend_from_slice(name)?;
    Bytes::new(alloc, text)
}
