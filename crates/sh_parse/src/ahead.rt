// What was found at a place, kept as long as reading stays there.
ghost use Rattle.std.specs.Prelude.{◌≡◌, IfSome};
ghost use Rattle.sh_rules.specs.Modes.{mode as mode_lem};
ghost use Rattle.sh_grammar.specs.Named.{part_named};
ghost use Rattle.sh_token.specs.Places.{Place};
ghost use Rattle.sh_script.specs.TextReader.{StandsThere};
ghost use Rattle.sh_parse.specs.Finding.{Ahead, IsFound};

use crate::source::Source;
use sh_grammar::{Part, mode, same_kind, same_mode};
use sh_rules::{Mode, TokenKind};

/// The token that was found at a place in a mode: its kind, and how many bytes of the text it has.
#[derive(Clone, Copy)]
pub struct Found {
    pub mode: Mode,
    pub kind: TokenKind,
    pub length: usize,
}

/// How many bytes the token has that was found, where it is of a kind.
pub fn length_ahead(kind: TokenKind, ahead: Option<Found>) -> Option<usize>
    ensures { (p : Place) → Ahead ahead p → IfSome result (λ n. StandsThere kind n p) }
{
    match ahead {
        None => None,
        Some(found) => {
            if same_kind(found.kind, kind) {
                Some(found.length)
            } else {
                None
            }
        }
    }
}

// What was found in a mode.
fn found_in(mode: Mode, ahead: Option<Found>) -> Option<Found>
    ensures { (p : Place) → Ahead ahead p → IfSome result (λ x. (x.mode ≡ mode) × Ahead result p) }
{
    match ahead {
        None => None,
        Some(found) => {
            if same_mode(found.mode, mode) {
                Some(found)
            } else {
                None
            }
        }
    }
}

fn looked<S: Source>(s: &S, mode: Mode) -> Option<Found>
    ensures { IsFound mode (S.place s.now) result }
{
    match s.look(mode) {
        None => None,
        Some((kind, length)) => Some(Found { mode, kind, length }),
    }
}

/// The token with which a part may begin there; it isn't looked for again in the mode in which it was found before.
pub fn look_for<S: Source>(s: &S, part: Part, ahead: Option<Found>) -> Option<Found>
    requires { Ahead ahead (S.place s.now) }
    ensures { IsFound (mode_lem (part_named part)) (S.place s.now) result }
{
    let mode = mode(part);
    match found_in(mode, ahead) {
        Some(found) => Some(found),
        None => looked(s, mode),
    }
}
