// Tokens.
ghost use Rattle.std.specs.Prelude.{◌≡◌};
ghost use Rattle.sh_arith.specs.Reading.{ends_with};

use crate::Operator;
use rk_base::Bytes;

/// A token of a text.
#[derive(Drop)]
pub enum Token {
    /// A constant; `None` is past 64 bits.
    Constant(Option<i64>),
    /// Letters, digits and `_`, no digit first.
    Name(Bytes),
    /// An operator; `+` and `-` may be signs too.
    Operator(Operator),
    /// `~`.
    Complement,
    /// `!`.
    Not,
    /// `&&`.
    Both,
    /// `||`.
    Either,
    /// `?`.
    Question,
    /// `:`.
    Colon,
    /// `=`, alone or behind an operator.
    Assign(Option<Operator>),
    /// `(`.
    Open,
    /// `)`.
    Close,
    /// The end of the text.
    End,
    /// No token of C's.
    Odd,
}

pub(crate) fn is_end(token: &Token) -> bool
    ensures { result ≡ ends_with token.now }
{
    matches!(token, Token::End)
}
