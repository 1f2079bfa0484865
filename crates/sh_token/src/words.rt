// What a backslash quotes (XCU 2.2.1, 2.2.3, 2.6.2, 2.7.4).
ghost use Rattle.std.specs.Prelude.{◌≡◌};
ghost use Rattle.sh_token.specs.Words as lem;

use sh_rules::TokenKind;

/// What a backslash quotes in a here-document.
pub fn is_quotable_in_body(d: u8) -> bool
    ensures { result ≡ lem.is_quotable_in_body d }
{
    d == b'$' || d == b'`' || d == b'\\'
}

/// And in double quotes.
pub fn is_quotable(d: u8) -> bool
    ensures { result ≡ lem.is_quotable d }
{
    is_quotable_in_body(d) || d == b'"'
}

/// And in the word of a parameter in double quotes.
pub fn is_quotable_in_braces(d: u8) -> bool
    ensures { result ≡ lem.is_quotable_in_braces d }
{
    is_quotable(d) || d == b'}'
}

/// A backslash: of one kind where it quotes the byte behind it, and else by itself, of another.
pub fn backslash(quotes: bool, quoted: TokenKind, alone: TokenKind) -> Option<(TokenKind, usize)>
    ensures { result ≡ lem.backslash quotes quoted alone }
{
    if quotes {
        Some((quoted, 2))
    } else {
        Some((alone, 1))
    }
}
