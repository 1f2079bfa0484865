// What stands between delimiters.
ghost use Rattle.std.specs.Prelude.{◌≡◌, ◌++◌, [], MatchOption, Some, None, IfOk, OnOk, option_map};
ghost use Rattle.ut_bre.specs.Expressions.{expression};
ghost use Rattle.ut_sed.specs.Scanning.{is_delimiter, is_special, after_plain, after_listed, after_first, after_inner, after_class, after_closing, after_raw, after_byte, closes, is_wrong, quoted_bytes, kept, text_from, expression_of, expression_at, is_digit, group_piece, quoted_piece, plain_piece, piece_of, parts_at};

use crate::command::Part;
use crate::reader::Reader;
use rk_base::NoMemory;
use std::alloc::Global;
use ut_bre::{Bre, BreErr};

/// Where a byte stands between delimiters.
#[derive(Clone, Copy, Debug, Drop)]
pub enum Scan {
    /// In an expression.
    Plain,
    /// Behind a backslash.
    Quoted,
    /// Behind the `[` of a bracket expression.
    Opened,
    /// Behind `[^`.
    Negated,
    /// In a bracket expression.
    Listed,
    /// Behind a `[` in it.
    Inner,
    /// In a class of it, behind `[:`.
    Class,
    /// Behind a `:` in that.
    Closing,
    /// In a string of `y`.
    Raw,
    /// There behind a backslash.
    RawQuoted,
}

/// What a byte of a replacement is.
#[derive(Clone, Copy, Debug, Drop)]
pub enum Piece {
    /// The delimiter.
    Closes,
    /// It may not stand here.
    Wrong,
    /// A backslash.
    Quotes,
    Takes(Part),
}

pub(crate) fn is_delimiter(d: u8) -> bool
    ensures { result ≡ is_delimiter d }
{
    !(d == b'\\' || d == b'\n')
}

fn is_special(b: u8) -> bool
    ensures { result ≡ is_special b }
{
    b == b'.' || (b == b'[' || (b == b'*' || (b == b'^' || b == b'$')))
}

pub(crate) fn is_digit(b: u8) -> bool
    ensures { result ≡ is_digit b }
{
    48 <= b && b <= 57
}

fn after_plain(b: u8) -> Scan
    ensures { result ≡ after_plain b }
{
    if b == b'\\' {
        Scan::Quoted
    } else if b == b'[' {
        Scan::Opened
    } else {
        Scan::Plain
    }
}

fn after_listed(b: u8) -> Scan
    ensures { result ≡ after_listed b }
{
    if b == b']' {
        Scan::Plain
    } else if b == b'[' {
        Scan::Inner
    } else {
        Scan::Listed
    }
}

fn after_first(b: u8) -> Scan
    ensures { result ≡ after_first b }
{
    if b == b'[' { Scan::Inner } else { Scan::Listed }
}

fn after_inner(b: u8) -> Scan
    ensures { result ≡ after_inner b }
{
    if b == b':' {
        Scan::Class
    } else {
        after_listed(b)
    }
}

fn after_class(b: u8) -> Scan
    ensures { result ≡ after_class b }
{
    if b == b':' {
        Scan::Closing
    } else {
        Scan::Class
    }
}

fn after_closing(b: u8) -> Scan
    ensures { result ≡ after_closing b }
{
    if b == b']' {
        Scan::Listed
    } else {
        after_class(b)
    }
}

fn after_raw(b: u8) -> Scan
    ensures { result ≡ after_raw b }
{
    if b == b'\\' {
        Scan::RawQuoted
    } else {
        Scan::Raw
    }
}

// The bytes that a byte behind a backslash adds.
fn put_quoted(d: u8, b: u8, text: &mut Vec<u8>) -> Result<(), NoMemory>
    ensures { OnOk result (text.new.items ≡ text.old.items ++ quoted_bytes d b) }
{
    if b == d && !is_special(d) {
        text.push(b)?;
    } else {
        text.extend_from_slice(&[b'\\', b])?;
    }
    Ok(())
}

impl Scan {
    fn after_byte(self, b: u8) -> Scan
        ensures { result ≡ after_byte self b }
    {
        match self {
            Scan::Plain => after_plain(b),
            Scan::Quoted => Scan::Plain,
            Scan::Opened => {
                if b == b'^' {
                    Scan::Negated
                } else {
                    after_first(b)
                }
            }
            Scan::Negated => after_first(b),
            Scan::Listed => after_listed(b),
            Scan::Inner => after_inner(b),
            Scan::Class => after_class(b),
            Scan::Closing => after_closing(b),
            Scan::Raw => after_raw(b),
            Scan::RawQuoted => Scan::Raw,
        }
    }

    fn closes(self, d: u8, b: u8) -> bool
        ensures { result ≡ closes d self b }
    {
        match self {
            Scan::Plain => b == d,
            Scan::Raw => b == d,
            _ => false,
        }
    }

    fn is_wrong(self, d: u8, b: u8) -> bool
        ensures { result ≡ is_wrong d self b }
    {
        match self {
            Scan::RawQuoted => !(b == d || b == b'\\'),
            _ => b == b'\n',
        }
    }

    fn put_kept(self, d: u8, b: u8, text: &mut Vec<u8>) -> Result<(), NoMemory>
        ensures { OnOk result (text.new.items ≡ text.old.items ++ kept d self b) }
    {
        match self {
            Scan::Plain => {
                if b != b'\\' {
                    text.push(b)?;
                }
            }
            Scan::Quoted => put_quoted(d, b, text)?,
            Scan::Raw => {
                if b != b'\\' {
                    text.push(b)?;
                }
            }
            _ => text.push(b)?,
        }
        Ok(())
    }
}

// The expression of a text that isn't empty.
fn read_expression(alloc: Global, text: &[u8]) -> Result<Option<Bre>, NoMemory>
    ensures { IfOk result (λ r. expression_of text.now ≡ option_map expression r) }
{
    match text {
        [] => Ok(None),
        [_, ..] => match Bre::read(alloc, text) {
            Ok(bre) => Ok(Some(bre)),
            Err(BreErr::Bad(_)) => Ok(None),
            Err(BreErr::NoMemory) => Err(NoMemory),
        },
    }
}

fn group_piece(groups: usize, b: u8) -> Piece
    ensures { result ≡ group_piece groups b }
{
    if 48 < b && b <= 57 && (b - 48) as usize <= groups {
        Piece::Takes(Part::Group((b - 48) as usize))
    } else {
        Piece::Wrong
    }
}

fn quoted_piece(d: u8, groups: usize, b: u8) -> Piece
    ensures { result ≡ quoted_piece d groups b }
{
    if b == d || (b == b'&' || (b == b'\\' || b == b'\n')) {
        Piece::Takes(Part::Byte(b))
    } else {
        group_piece(groups, b)
    }
}

fn plain_piece(d: u8, b: u8) -> Piece
    ensures { result ≡ plain_piece d b }
{
    if b == d {
        Piece::Closes
    } else if b == b'\n' {
        Piece::Wrong
    } else if b == b'\\' {
        Piece::Quotes
    } else if b == b'&' {
        Piece::Takes(Part::Whole)
    } else {
        Piece::Takes(Part::Byte(b))
    }
}

fn piece_of(d: u8, groups: usize, quoted: bool, b: u8) -> Piece
    ensures { result ≡ piece_of d groups quoted b }
{
    if quoted {
        quoted_piece(d, groups, b)
    } else {
        plain_piece(d, b)
    }
}

impl<'t> Reader<'t> {
    /// The text up to a delimiter, which goes on behind it; `None` where nothing closes it.
    pub(crate) fn text(&mut self, d: u8, begin: Scan) -> Result<Option<Vec<u8>>, NoMemory>
        ensures { IfOk result (λ r. MatchOption r (text_from d begin [] self.old.rest.now ≡ None) (λ t. text_from d begin [] self.old.rest.now ≡ Some (t.items, self.new.rest.now))) }
    {
        let mut text = Vec::new(self.alloc);
        let mut scan = begin;
        let mut rest = self.rest;
        'bytes: while let [b, more @ ..] = rest {
            if scan.closes(d, *b) {
                self.rest = more;
                return Ok(Some(text));
            }
            if scan.is_wrong(d, *b) {
                return Ok(None);
            }
            scan.put_kept(d, *b, &mut text)?;
            scan = scan.after_byte(*b);
            rest = more;
        }
        Ok(None)
    }

    /// The expression up to a delimiter.
    pub(crate) fn expression(&mut self, d: u8) -> Result<Option<Bre>, NoMemory>
        ensures { IfOk result (λ r. MatchOption r (expression_at d self.old.rest.now ≡ None) (λ e. expression_at d self.old.rest.now ≡ Some (expression e, self.new.rest.now))) }
    {
        let alloc = self.alloc;
        match self.text(d, Scan::Plain)? {
            None => Ok(None),
            Some(text) => read_expression(alloc, text.as_slice()),
        }
    }

    /// The parts of a replacement, up to a delimiter; there are so many groups.
    pub(crate) fn parts(&mut self, d: u8, groups: usize) -> Result<Option<Vec<Part>>, NoMemory>
        ensures { IfOk result (λ r. MatchOption r (parts_at d groups self.old.rest.now ≡ None) (λ p. parts_at d groups self.old.rest.now ≡ Some (p.items, self.new.rest.now))) }
    {
        let mut parts = Vec::new(self.alloc);
        let mut quoted = false;
        let mut rest = self.rest;
        'bytes: while let [b, more @ ..] = rest {
            match piece_of(d, groups, quoted, *b) {
                Piece::Closes => {
                    self.rest = more;
                    return Ok(Some(parts));
                }
                Piece::Wrong => return Ok(None),
                Piece::Quotes => quoted = true,
                Piece::Takes(part) => {
                    parts.push(part)?;
                    quoted = false;
                }
            }
            rest = more;
        }
        Ok(None)
    }
}
