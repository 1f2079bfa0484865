// Patterns that are more than a text.
ghost use Rattle.std.specs.Prelude.{false, ◌≡◌, ◌++◌, ◌==◌, ◌&&◌, ◌||◌, is_some, IfOk};
ghost use Rattle.sh_pattern.specs.Sets.{set_of, has_close};
ghost use Rattle.sh_pattern.specs.Special.{is_closed, is_special, has_special, unquoted};

use crate::front::front;
use crate::set::{extra, may_close_behind, scan, value};
use rk_base::{Bytes, NoMemory};
use std::alloc::Global;

fn has_end(text: &[u8]) -> bool
    ensures { result ≡ is_some (set_of text.now) }
{
    match scan(text, 0) {
        None => false,
        Some(_) => true,
    }
}

fn is_closed(text: &[u8]) -> bool
    ensures { result ≡ is_closed text.now }
{
    match text {
        [] => false,
        [first, rest @ ..] => if *first == b'!' {
            has_end(rest)
        } else {
            has_end(text)
        },
    }
}

#[tactic(auto, using(crate::proofs::CloseLemmas::not_closed))]
fn is_special(b: u8, text: &[u8], may_close: bool) -> bool
    requires { may_close ≡ false → has_close text.now ≡ false }
    ensures { result ≡ is_special b text.now }
{
    if b == b'*' {
        return true;
    }
    if b == b'?' {
        return true;
    }
    if b == b'[' {
        may_close && is_closed(text)
    } else {
        false
    }
}

/// Whether a pattern has something that makes it more than a text: a `*`, a `?` or a bracket expression that is closed,
/// each not quoted (XCU 2.13.3).
pub fn has_special(pattern: &[u8]) -> bool
    ensures { result ≡ has_special pattern.now }
{
    let mut at = 0;
    let mut may_close = true;
    'bytes: while let Some((b, rest)) = front(pattern.split_at(at).1) {
        if is_special(b, rest, may_close) {
            return true;
        }
        may_close = may_close_behind(may_close, b == b'[', rest);
        at += 1 + extra(b, rest);
    }
    false
}

/// The text that a pattern without anything special matches: each byte, one behind a backslash without that.
pub fn unquoted(alloc: Global, pattern: &[u8]) -> Result<Bytes, NoMemory>
    ensures { IfOk result (λ text. text ≡ unquoted pattern.now) }
{
    let mut text = Vec::new(alloc);
    let mut at = 0;
    'bytes: while let Some((b, rest)) = front(pattern.split_at(at).1) {
        text.push(value(b, rest))?;
        at += 1 + extra(b, rest);
    }
    let text = Bytes::new(alloc, text)?;
    Ok(text)
}
