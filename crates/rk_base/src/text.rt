// Names and the texts of paths.
ghost use Rattle.std.specs.Prelude.{◌≡◌, ◌<◌, ◌∷◌, ◌++◌, [], IfSome, IfNone, length, position};
ghost use Rattle.std.specs.Str.{is_utf8};
ghost use Rattle.std.specs.List.{list_all, list_any};
ghost use Rattle.rk_base.specs.Text.{is_slash, components};
ghost use Rattle.rk_base.specs.Canonical.{has_nul, is_barred, is_name, is_canonical};

use std::str;

fn is_utf8(bytes: &[u8]) -> bool
    ensures { result ≡ is_utf8 bytes.now }
{
    str::from_utf8(bytes).is_ok()
}

fn has_barred(bytes: &[u8]) -> bool
    ensures { result ≡ list_any is_barred bytes.now }
{
    bytes.iter().any(|b| *b == b'/' || *b == 0)
}

/// Whether a NUL stands among the bytes.
pub fn has_nul(bytes: &[u8]) -> bool
    ensures { result ≡ has_nul bytes.now }
{
    bytes.iter().any(|b| *b == 0)
}

/// Whether the bytes are a name: UTF-8 of 1 to 255 bytes, without a slash or a NUL, and not `.` or `..`.
#[tactic(auto, unfolding(crate::specs::Canonical::is_name))]
pub fn is_name(bytes: &[u8]) -> bool
    ensures { result ≡ is_name bytes.now }
{
    !bytes.is_empty()
        && bytes.len() < 256
        && is_utf8(bytes)
        && !has_barred(bytes)
        && bytes != b".".as_slice()
        && bytes != b"..".as_slice()
}

/// Whether a text is that of a path: `/`, or names each after one slash.
#[tactic(auto, unfolding(crate::specs::Canonical::is_canonical))]
pub(crate) fn is_canonical(text: &[u8]) -> bool
    ensures { result ≡ is_canonical text.now }
{
    match text {
        [] => false,
        [first, rest @ ..] => *first == b'/' && (rest.is_empty() || all_names(rest)),
    }
}

fn first_slash(text: &[u8]) -> Option<usize>
    ensures place { result ≡ position is_slash text.now }
    ensures within { IfSome result (λ i. i < length text.now) }
{
    text.iter().position(|b| *b == b'/')
}

/// What stands before the first slash of a text, and what stands after it; `None` where it has none.
#[tactic(auto, using(crate::proofs::CanonicalLemmas::components_alone, crate::proofs::CanonicalLemmas::components_first))]
pub fn first_component(text: &[u8]) -> Option<(&[u8], &[u8])>
    ensures found { IfSome result (λ cut. components text.now ≡ cut.0.now ∷ components cut.1.now) }
    ensures shorter { IfSome result (λ cut. length cut.1.now < length text.now) }
    ensures alone { IfNone result (components text.now ≡ text.now ∷ []) }
{
    let i = first_slash(text)?;
    let (name, rest) = text.split_at(i);
    Some((name, rest.split_at(1).1))
}

fn all_names(text: &[u8]) -> bool
    ensures { result ≡ list_all is_name (components text.now) }
{
    let mut rest = text;
    'names: while let Some((name, after)) = first_component(rest) {
        if !is_name(name) {
            return false;
        }
        rest = after;
    }
    is_name(rest)
}

/// What stands before the last slash, and what stands after it.
pub(crate) fn last_component(text: &[u8]) -> Option<(&[u8], &[u8])>
    ensures found { IfSome result (λ cut. components text.now ≡ components cut.0.now ++ cut.1.now ∷ []) }
    ensures alone { IfNone result (components text.now ≡ text.now ∷ []) }
{
    match text.iter().rposition(|b| *b == b'/') {
        Some(i) => Some((&text[..i], &text[i + 1..])),
        None => None,
    }
}
