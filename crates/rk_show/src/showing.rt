// Texts as lines show them.
ghost use Rattle.std.specs.Prelude.{◌≡◌, ◌++◌, ◌<◌, OnOk, IfOk, IsAscii};
ghost use Rattle.rk_show.specs.Shown.{digit, is_plain, shown, shown_byte, shown_bytes};

use rk_base::{Bytes, NoMemory};
use std::alloc::Global;

// A hexadecimal digit, in lower case.
fn digit(n: u8) -> u8
    requires { n < 16 }
    ensures digit { result ≡ digit n }
    ensures ascii { result < 128 }
{
    if n < 10 { b'0' + n } else { b'a' + (n - 10) }
}

fn is_plain(b: u8) -> bool
    ensures { result ≡ is_plain b }
{
    0x21 <= b && b <= 0x7e && b != b'\\'
}

fn add_byte(out: &mut Vec<u8>, b: u8) -> Result<(), NoMemory>
    ensures shown { OnOk result (out.new.items ≡ out.old.items ++ shown_byte b) }
    ensures ascii { OnOk result (IsAscii out.old.items → IsAscii out.new.items) }
{
    if is_plain(b) {
        out.push(b)?;
        return Ok(());
    }
    out.extend_from_slice(&[b'\\', b'x', digit(b / 16), digit(b % 16)])?;
    Ok(())
}

fn add_bytes(out: &mut Vec<u8>, text: &[u8]) -> Result<(), NoMemory>
    ensures shown { OnOk result (out.new.items ≡ out.old.items ++ shown_bytes text.now) }
    ensures ascii { OnOk result (IsAscii out.old.items → IsAscii out.new.items) }
{
    for b in text {
        add_byte(out, *b)?;
    }
    Ok(())
}

/// A word or a path as lines show it, put after a text.
pub(crate) fn add_shown(out: &mut Vec<u8>, text: &[u8]) -> Result<(), NoMemory>
    ensures shown { OnOk result (out.new.items ≡ out.old.items ++ shown text.now) }
    ensures ascii { OnOk result (IsAscii out.old.items → IsAscii out.new.items) }
{
    match text {
        [] => {
            out.extend_from_slice(b"''")?;
            Ok(())
        }
        [..] => add_bytes(out, text),
    }
}

/// A word or a path as lines show it: printable ASCII but the backslash as it is, every other byte as `\x` and
/// two hexadecimal digits, and nothing as `''`.
pub fn shown(alloc: Global, text: &[u8]) -> Result<Bytes, NoMemory>
    ensures shown { IfOk result (λ b. b ≡ shown text.now) }
    ensures ascii { IfOk result IsAscii }
{
    let mut out = Vec::new(alloc);
    add_shown(&mut out, text)?;
    Bytes::new(alloc, out)
}
