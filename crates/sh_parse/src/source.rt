// Where tokens come from.
ghost use Rattle.std.specs.Prelude.{◌≡◌, IfSome, OnOk};
ghost use Rattle.sh_token.specs.Places.{Place, size};
ghost use Rattle.sh_token.specs.Lexemes.{look as look_lem};
ghost use Rattle.sh_token.proofs.Sizes.{may_be_empty, Shrinks};
ghost use Rattle.sh_script.specs.TextReader.{StandsThere};
ghost use Rattle.sh_parse.specs.Tokens.{Took};

use rk_base::Bytes;
use sh_rules::{Mode, TokenKind};
use std::alloc::Global;

/// Why reading stops: memory ran out, no script goes on with what stands there, or one level too many would be open.
#[derive(Clone, Copy)]
pub enum ParseErr {
    Memory,
    Blocked,
    Deep,
}

/// A text at a place, of which one token after another is taken.
pub trait Source {
    ghost place: { Self → Place };

    /// The kind of the token that stands there in a mode, and how many bytes of the text it has.
    fn look(&self, mode: Mode) -> Option<(TokenKind, usize)>
        ensures found { result ≡ look_lem mode (place self.now) }
        ensures by_itself { IfSome result (λ x. StandsThere x.0 x.1 (place self.now)) };

    /// Takes the token of a kind that stands there: its bytes, as they are read.
    fn take(&mut self, alloc: Global, kind: TokenKind, length: usize) -> Result<Bytes, ParseErr>
        requires { StandsThere kind length (place self.old) }
        ensures took { Took kind length (place self.old) (place self.new) result }
        ensures shrinks { OnOk result (Shrinks (may_be_empty kind) (size (place self.old)) (size (place self.new))) };
}
