// Formats of `printf`.
ghost use Rattle.std.specs.Prelude.{◌≡◌, ◌+◌, ◌-◌, ◌*◌, ◌%◌, ◌++◌, ◌∷◌, [], IfOk, OnOk, count_by};
ghost use Rattle.sh_operands.specs.Elements.{escape_of, specifier_of, is_octal, specifier_takes, takes};
ghost use Rattle.sh_operands.specs.Formats.{with_byte, plain, known, escaped, octal, converts, wider, with_width, widened, flagged, step, finished, pieces};

use crate::number::is_digit;
use rk_base::NoMemory;
use std::alloc::Global;
use std::marker::Model;

/// A conversion specifier of `printf` (XBD 5): what a conversion makes of its operand.
#[derive(Clone, Copy, Debug)]
pub enum Specifier {
    /// `s`: its bytes.
    Text,
    /// `d`: its number.
    Decimal,
    /// `o`: its number in 64 bits.
    Octal,
    /// `x`: its number in 64 bits.
    Hexadecimal,
    /// `c`: its first byte.
    Byte,
    /// `%`: a `%`; it takes no operand.
    Percent,
}

/// A conversion: its flags, its least width and its conversion specifier.
#[derive(Clone, Copy, Debug)]
pub struct Conversion {
    pub left: bool,
    pub zero: bool,
    pub width: u64,
    pub specifier: Specifier,
}

/// A part of a format.
#[derive(Clone, Copy, Debug)]
pub enum Piece {
    Literal(u8),
    Converted(Conversion),
}

/// How the next byte of a format is read.
#[derive(Clone, Copy, Debug)]
pub enum Reading {
    Plain,
    /// Behind a backslash.
    Escape,
    /// Behind so many octal digits, which have this value.
    Octal(u8, u8),
    /// Behind a `%`, with `-` and `0` or not.
    Flags(bool, bool),
    /// Behind a `%`, with `-` and `0` or not, and a width of at most 2^31 - 1.
    Width(bool, bool, u64),
}

/// The parts of a format.
#[derive(Debug, Drop)]
pub struct Format {
    pieces: Vec<Piece>,
}

impl Model for Format {
    ghost use Rattle.std.specs.Prelude.{List};
    ghost use Rattle.sh_operands.specs.declared.format.Piece.{Piece};

    ghost Value = { List Piece };

    ghost view = { λ f. f.pieces.items };
}

impl Format {
    fn new(alloc: Global) -> Format
        ensures { result ≡ [] }
    {
        Format {
            pieces: Vec::new(alloc),
        }
    }

    fn push(&mut self, piece: Piece) -> Result<(), NoMemory>
        ensures { OnOk result (self.new ≡ self.old ++ piece ∷ []) }
    {
        self.pieces.push(piece)?;
        Ok(())
    }

    fn put(&mut self, b: u8) -> Result<(), NoMemory>
        ensures { OnOk result (self.new ≡ with_byte b self.old) }
    {
        self.push(Piece::Literal(b))
    }

    /// Its parts, in their order.
    pub fn as_slice(&self) -> &[Piece]
        ensures { result.now ≡ self.now }
    {
        self.pieces.as_slice()
    }
}

fn escape_of(b: u8) -> Option<u8>
    ensures { result ≡ escape_of b }
{
    match b {
        b'\\' => Some(b'\\'),
        b'a' => Some(7),
        b'b' => Some(8),
        b'f' => Some(12),
        b'n' => Some(10),
        b'r' => Some(13),
        b't' => Some(9),
        b'v' => Some(11),
        _ => None,
    }
}

fn specifier_of(b: u8) -> Option<Specifier>
    ensures { result ≡ specifier_of b }
{
    match b {
        b's' => Some(Specifier::Text),
        b'd' => Some(Specifier::Decimal),
        b'o' => Some(Specifier::Octal),
        b'x' => Some(Specifier::Hexadecimal),
        b'c' => Some(Specifier::Byte),
        b'%' => Some(Specifier::Percent),
        _ => None,
    }
}

fn is_octal(b: u8) -> bool
    ensures { result ≡ is_octal b }
{
    b >= b'0' && b <= b'7'
}

fn plain(b: u8, done: &mut Format) -> Result<Option<Reading>, NoMemory>
    ensures next { IfOk result (λ next. next ≡ (plain b done.old).next) }
    ensures pieces { OnOk result (done.new ≡ (plain b done.old).pieces) }
{
    if b == b'\\' {
        return Ok(Some(Reading::Escape));
    }
    if b == b'%' {
        return Ok(Some(Reading::Flags(false, false)));
    }
    done.put(b)?;
    Ok(Some(Reading::Plain))
}

fn known(escape: Option<u8>, b: u8, done: &mut Format) -> Result<Option<Reading>, NoMemory>
    ensures next { IfOk result (λ next. next ≡ (known escape b done.old).next) }
    ensures pieces { OnOk result (done.new ≡ (known escape b done.old).pieces) }
{
    match escape {
        Some(c) => {
            done.put(c)?;
            Ok(Some(Reading::Plain))
        }
        None => {
            done.put(b'\\')?;
            plain(b, done)
        }
    }
}

fn escaped(b: u8, done: &mut Format) -> Result<Option<Reading>, NoMemory>
    ensures next { IfOk result (λ next. next ≡ (escaped b done.old).next) }
    ensures pieces { OnOk result (done.new ≡ (escaped b done.old).pieces) }
{
    if is_octal(b) {
        return Ok(Some(Reading::Octal(1, b.saturating_sub(48))));
    }
    known(escape_of(b), b, done)
}

// One octal digit more, modulo 256.
fn with_octal(value: u8, b: u8) -> u8
    ensures { result ≡ (8 * value + (b - 48)) % 256 }
{
    let sum = 8 * u16::from(value) + u16::from(b.saturating_sub(48));
    (sum % 256) as u8
}

fn octal(n: u8, value: u8, b: u8, done: &mut Format) -> Result<Option<Reading>, NoMemory>
    ensures next { IfOk result (λ next. next ≡ (octal n value b done.old).next) }
    ensures pieces { OnOk result (done.new ≡ (octal n value b done.old).pieces) }
{
    if is_octal(b) && n < 3 {
        return Ok(Some(Reading::Octal(n + 1, with_octal(value, b))));
    }
    done.put(value)?;
    plain(b, done)
}

fn converts(
    specifier: Option<Specifier>,
    left: bool,
    zero: bool,
    width: u64,
    done: &mut Format,
) -> Result<Option<Reading>, NoMemory>
    ensures next { IfOk result (λ next. next ≡ (converts specifier left zero width done.old).next) }
    ensures pieces { OnOk result (done.new ≡ (converts specifier left zero width done.old).pieces) }
{
    match specifier {
        None => Ok(None),
        Some(specifier) => {
            done.push(Piece::Converted(Conversion {
                left,
                zero,
                width,
                specifier,
            }))?;
            Ok(Some(Reading::Plain))
        }
    }
}

// The greatest width of a conversion, 2^31 - 1.
const GREATEST_WIDTH: u64 = 2147483647;

// One digit more of a width, `None` where that is too wide.
fn wider(width: u64, b: u8) -> Option<u64>
    ensures { result ≡ wider width b }
{
    if width > GREATEST_WIDTH {
        return None;
    }
    let wide = 10 * width + u64::from(b.saturating_sub(48));
    if wide > GREATEST_WIDTH {
        None
    } else {
        Some(wide)
    }
}

fn with_width(left: bool, zero: bool, width: Option<u64>) -> Option<Reading>
    ensures { result ≡ with_width left zero width }
{
    match width {
        None => None,
        Some(width) => Some(Reading::Width(left, zero, width)),
    }
}

fn widened(
    left: bool,
    zero: bool,
    width: u64,
    b: u8,
    done: &mut Format,
) -> Result<Option<Reading>, NoMemory>
    ensures next { IfOk result (λ next. next ≡ (widened left zero width b done.old).next) }
    ensures pieces { OnOk result (done.new ≡ (widened left zero width b done.old).pieces) }
{
    if is_digit(b) {
        return Ok(with_width(left, zero, wider(width, b)));
    }
    converts(specifier_of(b), left, zero, width, done)
}

fn flagged(left: bool, zero: bool, b: u8, done: &mut Format) -> Result<Option<Reading>, NoMemory>
    ensures next { IfOk result (λ next. next ≡ (flagged left zero b done.old).next) }
    ensures pieces { OnOk result (done.new ≡ (flagged left zero b done.old).pieces) }
{
    if b == b'-' {
        return Ok(Some(Reading::Flags(true, zero)));
    }
    if b == b'0' {
        return Ok(Some(Reading::Flags(left, true)));
    }
    widened(left, zero, 0, b, done)
}

fn step(reading: Reading, b: u8, done: &mut Format) -> Result<Option<Reading>, NoMemory>
    ensures next { IfOk result (λ next. next ≡ (step reading b done.old).next) }
    ensures pieces { OnOk result (done.new ≡ (step reading b done.old).pieces) }
{
    match reading {
        Reading::Plain => plain(b, done),
        Reading::Escape => escaped(b, done),
        Reading::Octal(n, value) => octal(n, value, b, done),
        Reading::Flags(left, zero) => flagged(left, zero, b, done),
        Reading::Width(left, zero, width) => widened(left, zero, width, b, done),
    }
}

fn finished(reading: Reading, done: Format) -> Result<Option<Format>, NoMemory>
    ensures { IfOk result (λ f. f ≡ finished reading done) }
{
    let mut done = done;
    match reading {
        Reading::Plain => Ok(Some(done)),
        Reading::Escape => {
            done.put(b'\\')?;
            Ok(Some(done))
        }
        Reading::Octal(_, value) => {
            done.put(value)?;
            Ok(Some(done))
        }
        Reading::Flags(_, _) => Ok(None),
        Reading::Width(_, _, _) => Ok(None),
    }
}

/// The pieces of a format; `None` exactly where a `%` in it begins no conversion, or one that is wider than 2^31 - 1.
pub fn pieces(alloc: Global, format: &[u8]) -> Result<Option<Format>, NoMemory>
    ensures { IfOk result (λ f. f ≡ pieces format.now) }
{
    let mut done = Format::new(alloc);
    let mut reading = Reading::Plain;
    'bytes: for b in format {
        match step(reading, *b, &mut done)? {
            None => {
                return Ok(None);
            }
            Some(next) => {
                reading = next;
            }
        }
    }
    finished(reading, done)
}

fn specifier_takes(specifier: Specifier) -> bool
    ensures { result ≡ specifier_takes specifier }
{
    match specifier {
        Specifier::Text => true,
        Specifier::Decimal => true,
        Specifier::Octal => true,
        Specifier::Hexadecimal => true,
        Specifier::Byte => true,
        Specifier::Percent => false,
    }
}

/// Whether a conversion takes an operand.
pub(crate) fn takes_operand(c: Conversion) -> bool
    ensures { result ≡ specifier_takes c.specifier }
{
    specifier_takes(c.specifier)
}

fn takes(piece: Piece) -> bool
    ensures { result ≡ takes piece }
{
    match piece {
        Piece::Literal(_) => false,
        Piece::Converted(c) => specifier_takes(c.specifier),
    }
}

/// How many operands the pieces take.
pub(crate) fn taken(pieces: &[Piece]) -> usize
    ensures { result ≡ count_by takes pieces.now }
{
    pieces.iter().filter(|piece| takes(**piece)).count()
}
