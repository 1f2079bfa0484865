// Classes of bytes.
ghost use Rattle.std.specs.Prelude.{◌≡◌};
ghost use Rattle.sh_token.specs.Bytes.{class_is, within};
ghost use Rattle.sh_token.specs.Bytes as class;

/// A class of bytes that stand for themselves.
#[derive(Clone, Copy, PartialEq, Eq)]
pub enum Class {
    /// In a word: no blank, newline or operator, and nothing that quotes or begins an expansion.
    Plain,
    /// A blank or a tab (XBD 3.47).
    Blank,
    Digit,
    /// In a name: letters, `_` and digits.
    Name,
    /// In double quotes (XCU 2.2.3).
    QuotedText,
    /// In the word of a parameter (XCU 2.6.2).
    BraceText,
    /// In the word of a parameter in double quotes.
    QuotedBraceText,
    /// In a here-document that is expanded (XCU 2.7.4).
    BodyText,
    /// In an arithmetic expansion (XCU 2.6.4).
    ArithmeticText,
    Tab,
    /// What quotes nothing in a here-document's delimiter.
    Unquoted,
}

pub(crate) fn is_blank(c: u8) -> bool
    ensures { result ≡ class.is_blank c }
{
    c == b' ' || c == b'\t'
}

/// A digit.
pub fn is_digit(c: u8) -> bool
    ensures { result ≡ class.is_digit c }
{
    if c < b'0' { false } else { c < 58 }
}

fn is_lower(c: u8) -> bool
    ensures { result ≡ within 97 122 c }
{
    if c < b'a' { false } else { c < 123 }
}

fn is_upper(c: u8) -> bool
    ensures { result ≡ within 65 90 c }
{
    if c < b'A' { false } else { c < 91 }
}

/// A letter or `_`, with which a name begins (XBD 3.216).
pub fn is_letter(c: u8) -> bool
    ensures { result ≡ class.is_letter c }
{
    is_lower(c) || is_upper(c) || c == b'_'
}

fn is_name(c: u8) -> bool
    ensures { result ≡ class.is_name c }
{
    is_letter(c) || is_digit(c)
}

/// What ends a word: a blank, a newline, an operator or NUL.
pub fn is_end(c: u8) -> bool
    ensures { result ≡ class.is_end c }
{
    c == 0
        || is_blank(c)
        || c == b'\n'
        || c == b';'
        || c == b'&'
        || c == b'|'
        || c == b'<'
        || c == b'>'
        || c == b'('
        || c == b')'
}

pub(crate) fn is_quoting(c: u8) -> bool
    ensures { result ≡ class.is_quoting c }
{
    c == b'\\' || c == b'\'' || c == b'"' || c == b'`' || c == b'$'
}

pub(crate) fn is_plain(c: u8) -> bool
    ensures { result ≡ class.is_plain c }
{
    !(is_end(c) || is_quoting(c))
}

fn is_quoted_text(c: u8) -> bool
    ensures { result ≡ class.is_quoted_text c }
{
    !(c == 0 || c == b'$' || c == b'`' || c == b'"' || c == b'\\')
}

fn is_brace_text(c: u8) -> bool
    ensures { result ≡ class.is_brace_text c }
{
    !(c == 0 || c == b'}' || is_quoting(c))
}

fn is_quoted_brace_text(c: u8) -> bool
    ensures { result ≡ class.is_quoted_brace_text c }
{
    !(c == 0 || c == b'}' || c == b'$' || c == b'`' || c == b'"' || c == b'\\')
}

fn is_body_text(c: u8) -> bool
    ensures { result ≡ class.is_body_text c }
{
    !(c == 0 || c == b'$' || c == b'`' || c == b'\\')
}

fn is_arithmetic_text(c: u8) -> bool
    ensures { result ≡ class.is_arithmetic_text c }
{
    !(c == 0 || c == b'$' || c == b'`' || c == b'\\' || c == b'(' || c == b')')
}

pub(crate) fn is_tab(c: u8) -> bool
    ensures { result ≡ class.is_tab c }
{
    c == b'\t'
}

fn is_unquoted(c: u8) -> bool
    ensures { result ≡ class.is_unquoted c }
{
    !(c == 0 || c == b'\\' || c == b'\'' || c == b'"')
}

pub(crate) fn is_in(class: Class, c: u8) -> bool
    ensures { result ≡ class_is class c }
{
    match class {
        Class::Plain => is_plain(c),
        Class::Blank => is_blank(c),
        Class::Digit => is_digit(c),
        Class::Name => is_name(c),
        Class::QuotedText => is_quoted_text(c),
        Class::BraceText => is_brace_text(c),
        Class::QuotedBraceText => is_quoted_brace_text(c),
        Class::BodyText => is_body_text(c),
        Class::ArithmeticText => is_arithmetic_text(c),
        Class::Tab => is_tab(c),
        Class::Unquoted => is_unquoted(c),
    }
}
