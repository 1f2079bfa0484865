// How many bytes of a text a token has.
ghost use Rattle.std.specs.Prelude.{◌≡◌, ◌≤◌, length, false};
ghost use Rattle.sh_token.specs.Bytes.{is_tab};
ghost use Rattle.sh_token.specs.Folded.{folded, run as run_lem};
ghost use Rattle.sh_token.specs.Lexemes as lem;

use crate::bytes::Class;
use crate::folded::{run, skip};

/// How many bytes of a text a token has that is so long, as the text is read or as it stands.
pub fn extent(raw: bool, n: usize, text: &[u8]) -> usize
    ensures count { result ≡ lem.extent raw n text.now }
    ensures within { result ≤ length text.now }
{
    if raw {
        if n < text.len() { n } else { text.len() }
    } else {
        text.len() - skip(text, n).len()
    }
}

/// How many bytes of a text are tabs in front.
pub fn tabs_extent(text: &[u8]) -> usize
    ensures count { result ≡ lem.extent false (run_lem is_tab (folded text.now)) text.now }
    ensures within { result ≤ length text.now }
{
    let n = run(Class::Tab, text);
    extent(false, n, text)
}
