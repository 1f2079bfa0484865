// Whether a pattern stands in a text.
ghost use Rattle.std.specs.Prelude.{◌≡◌, map, OnOk};
ghost use Rattle.rk_base.specs.Text.{same_text};
ghost use Rattle.ut_grep.specs.Greps.{occurs, lower};

use memchr::memmem;
use rk_base::NoMemory;

/// Whether a pattern stands at some place of a text.
pub(crate) fn occurs(pattern: &[u8], text: &[u8]) -> bool
    ensures { result ≡ occurs pattern.now text.now }
{
    match memmem::find(text, pattern) {
        None => false,
        Some(_) => true,
    }
}

pub(crate) fn is_same(a: &[u8], b: &[u8]) -> bool
    ensures { result ≡ same_text a.now b.now }
{
    a == b
}

fn lower(b: u8) -> u8
    ensures { result ≡ lower b }
{
    if b >= b'A' && b <= b'Z' { b + 32 } else { b }
}

/// A text in small letters, in place of what was there.
pub(crate) fn lower_all(text: &[u8], small: &mut Vec<u8>) -> Result<(), NoMemory>
    ensures { OnOk result (small.new.items ≡ map lower text.now) }
{
    small.clear();
    for b in text {
        small.push(lower(*b))?;
    }
    Ok(())
}
