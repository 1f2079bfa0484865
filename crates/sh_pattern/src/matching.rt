// Whether a pattern matches, and what parts of a text it matches.
ghost use Rattle.std.specs.Prelude.{◌≡◌, ◌↔◌, ◌≤◌, IsTrue, IfSome, length};
ghost use Rattle.sh_pattern.specs.Matching.{Matches, TellsBest, MatchesPrefix, MatchesSuffix};
ghost use Rattle.sh_pattern.specs.Best.{best_prefix, best_suffix};
ghost use Rattle.sh_pattern.specs.Decided.{is_matched};
ghost use Rattle.sh_pattern.specs.Parts.{parts};
ghost use Rattle.sh_pattern.specs.Walking.{TellsEnd};

use crate::walk::Place;

// How many bytes are left at the best end.
fn end(pattern: &[u8], bytes: &[u8], longest: bool) -> Option<usize>
    ensures { TellsEnd longest (parts pattern.now) bytes.now result }
{
    Place::new(pattern, bytes).end(longest)
}

fn matches_all(pattern: &[u8], bytes: &[u8]) -> bool
    ensures { IsTrue result ↔ Matches pattern.now bytes.now }
{
    match end(pattern, bytes, true) {
        None => false,
        Some(left) => left == 0,
    }
}

fn best_prefix(pattern: &[u8], bytes: &[u8], longest: bool) -> Option<usize>
    ensures { TellsBest longest (length bytes.now) (MatchesPrefix pattern.now bytes.now) result }
{
    match end(pattern, bytes, longest) {
        None => None,
        Some(left) => Some(bytes.len() - left),
    }
}

fn best_suffix(pattern: &[u8], bytes: &[u8], longest: bool) -> Option<usize>
    ensures { TellsBest longest (length bytes.now) (MatchesSuffix pattern.now bytes.now) result }
{
    Place::new(pattern, bytes).suffix(longest)
}

/// Whether the pattern matches the whole text (XCU 2.13.1 and 2.13.2). `*` matches any bytes, `?` one byte, a bracket
/// expression one byte of its own, and a backslash quotes the byte after it. It takes no memory and never comes back
/// to a star.
pub fn matches(pattern: &[u8], bytes: &[u8]) -> bool
    ensures matches { IsTrue result ↔ Matches pattern.now bytes.now }
    ensures decided { result ≡ is_matched pattern.now bytes.now }
{
    matches_all(pattern, bytes)
}

/// The length in bytes of the longest or the shortest prefix of the text that the pattern matches, as `${x##pattern}`
/// and `${x#pattern}` take away (XCU 2.6.2); `None` exactly where it matches none.
pub fn prefix(pattern: &[u8], bytes: &[u8], longest: bool) -> Option<usize>
    ensures best { TellsBest longest (length bytes.now) (MatchesPrefix pattern.now bytes.now) result }
    ensures value { result ≡ best_prefix pattern.now bytes.now longest }
    ensures within { IfSome result (λ k. k ≤ length bytes.now) }
{
    best_prefix(pattern, bytes, longest)
}

/// The length in bytes of the longest or the shortest suffix of the text that the pattern matches, as
/// `${x%%pattern}` and `${x%pattern}` take away (XCU 2.6.2); `None` exactly where it matches none. What settles a
/// suffix is looked for once, by halving, so that no suffix is matched anew.
pub fn suffix(pattern: &[u8], bytes: &[u8], longest: bool) -> Option<usize>
    ensures best { TellsBest longest (length bytes.now) (MatchesSuffix pattern.now bytes.now) result }
    ensures value { result ≡ best_suffix pattern.now bytes.now longest }
    ensures within { IfSome result (λ k. k ≤ length bytes.now) }
{
    best_suffix(pattern, bytes, longest)
}
