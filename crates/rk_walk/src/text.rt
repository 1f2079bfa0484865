// Components of a text.
ghost use Rattle.std.specs.Prelude.{◌≡◌, ◌<◌, ◌≤◌, ℕ, List, ◌∷◌, ◌++◌, length, true, false, MatchOption};
ghost use Rattle.rk_base.specs.Canonical.{is_empty};
ghost use Rattle.rk_walk.specs.Course.{has_slash, is_after, IsFirst};
ghost use Rattle.rk_walk.specs.Walk.{parts, Part};

// What stands after the slashes that a text begins with.
pub(crate) fn skip_slashes(text: &[u8]) -> &[u8]
    ensures parts { (more : List ℕ) → parts (text.now ++ more) ≡ parts (result.now ++ more) }
    ensures shorter { length result.now ≤ length text.now }
    ensures starts { is_empty result.now ≡ false → is_after result.now ≡ false }
{
    for (i, b) in text.iter().enumerate() {
        if *b != b'/' {
            return text.split_at(i).1;
        }
    }
    text.split_at(text.len()).1
}

// A name up to the first slash, and the rest.
pub(crate) fn split_name(text: &[u8]) -> (&[u8], &[u8])
    ensures whole { text.now ≡ result.0.now ++ result.1.now }
    ensures name { has_slash result.0.now ≡ false }
    ensures rest { is_after result.1.now ≡ true }
{
    for (i, b) in text.iter().enumerate() {
        if *b == b'/' {
            return text.split_at(i);
        }
    }
    text.split_at(text.len())
}

// The first component of a text, and what stands after it; none where there are only slashes.
pub(crate) fn first_part(text: &[u8]) -> Option<(&[u8], &[u8])>
    ensures { MatchOption result ((more : List ℕ) → parts (text.now ++ more) ≡ parts more) (λ r. IsFirst text.now r.0.now r.1.now) }
{
    let (name, rest) = split_name(skip_slashes(text));
    if name.is_empty() {
        None
    } else {
        Some((name, rest))
    }
}
