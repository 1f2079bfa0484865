// The fields of a text, one by one.
ghost use Rattle.std.specs.Prelude.{◌≡◌, ◌∷◌, ◌<◌, ◌≤◌, ◌==◌, [], length, drop, IfSome, option_copied};
ghost use Rattle.std.specs.List.{position_or_len, before_first, after_first};
ghost use Rattle.ut_select.specs.Fields.{fields, fields_left};

use memchr::memchr;

// Where a byte stands first, or else the length.
fn place(text: &[u8], at: u8) -> usize
    ensures place { result ≡ position_or_len (λ b. b == at) text.now }
    ensures within { result ≤ length text.now }
{
    match memchr(at, text) {
        None => text.len(),
        Some(place) => place,
    }
}

fn without_first(text: &[u8]) -> &[u8]
    ensures { result.now ≡ drop 1 text.now }
{
    match text {
        [] => &[],
        [_, rest @ ..] => rest,
    }
}

/// What stands before the first of these bytes.
pub(crate) fn before(text: &[u8], at: u8) -> &[u8]
    ensures { result.now ≡ before_first (λ b. b == at) text.now }
{
    text.split_at(place(text, at)).0
}

/// What stands after the first of these bytes.
pub(crate) fn after(text: &[u8], at: u8) -> &[u8]
    ensures { result.now ≡ after_first (λ b. b == at) text.now }
{
    without_first(text.split_at(place(text, at)).1)
}

/// What stands before the first of these bytes, and what stands after it where there is one.
pub(crate) fn front_field(text: &[u8], at: u8) -> (&[u8], Option<&[u8]>)
    ensures cut { fields at text.now ≡ result.0.now ∷ fields_left at (option_copied result.1) }
    ensures shorter { IfSome result.1 (λ rest. length rest.now < length text.now) }
{
    if place(text, at) < text.len() {
        return (before(text, at), Some(after(text, at)));
    }
    (text, None)
}
