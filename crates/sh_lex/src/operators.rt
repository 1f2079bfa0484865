// Operators (XCU 2.10.1).
ghost use Rattle.std.specs.Prelude.{◌≡◌};
ghost use Rattle.sh_token.specs.Operators.{operator as operator_lem, redirect as redirect_lem, numbered as numbered_lem, more_by};

use sh_rules::TokenKind;

/// The redirection operator that begins with these three bytes (XCU 2.7), and its length.
pub fn redirect(c: u8, d: u8, e: u8) -> Option<(TokenKind, usize)>
    ensures { result ≡ redirect_lem c d e }
{
    if c == b'<' {
        if d == b'<' {
            if e == b'-' {
                Some((TokenKind::Here, 3))
            } else {
                Some((TokenKind::Here, 2))
            }
        } else if d == b'&' {
            Some((TokenKind::Redirect, 2))
        } else if d == b'>' {
            None
        } else {
            Some((TokenKind::Redirect, 1))
        }
    } else if c == b'>' {
        if d == b'>' || d == b'&' || d == b'|' {
            Some((TokenKind::Redirect, 2))
        } else {
            Some((TokenKind::Redirect, 1))
        }
    } else {
        None
    }
}

fn behind_digit(c: u8, d: u8, e: u8) -> Option<(TokenKind, usize)>
    ensures { result ≡ more_by 1 (redirect_lem c d e) }
{
    match redirect(c, d, e) {
        None => None,
        Some((kind, n)) => Some((kind, 1 + n)),
    }
}

/// A redirection operator behind one digit, the number of its descriptor; in front of `<>` that number by itself.
pub fn numbered(c: u8, d: u8, e: u8) -> Option<(TokenKind, usize)>
    ensures { result ≡ numbered_lem c d e }
{
    if c == b'<' && d == b'>' {
        Some((TokenKind::Redirect, 1))
    } else {
        behind_digit(c, d, e)
    }
}

/// The control operator that begins with these two bytes, and its length.
pub fn operator(c: u8, d: u8) -> Option<(TokenKind, usize)>
    ensures { result ≡ operator_lem c d }
{
    if c == b';' {
        if d == b';' {
            Some((TokenKind::DoubleSemi, 2))
        } else {
            Some((TokenKind::Semi, 1))
        }
    } else if c == b'&' {
        if d == b'&' {
            Some((TokenKind::AndIf, 2))
        } else {
            None
        }
    } else if c == b'|' {
        if d == b'|' {
            Some((TokenKind::OrIf, 2))
        } else {
            Some((TokenKind::Pipe, 1))
        }
    } else if c == b')' {
        Some((TokenKind::RightParen, 1))
    } else {
        None
    }
}
