// The primaries of `test`.
ghost use Rattle.std.specs.Prelude.{◌≡◌};
ghost use Rattle.sh_operands.specs.Modes.{has_r, has_w, has_x};
ghost use Rattle.sh_operands.specs.Primaries.{primary_of, operator_of, follows, is_file, is_dir, is_link, holds_of, relates};

use crate::number::{Number, is_less};
use rk_base::FileType;

/// What `test` tells of one operand: a text, or what stands at a path.
#[derive(Clone, Copy, Debug)]
pub enum Primary {
    /// `-n`
    HasBytes,
    /// `-z`
    Empty,
    /// `-e`
    Exists,
    /// `-f`
    IsFile,
    /// `-d`
    IsDir,
    /// `-L` and `-h`
    IsLink,
    /// `-r`
    Readable,
    /// `-w`
    Writable,
    /// `-x`
    Executable,
    /// `-s`
    HasSize,
}

/// What `test` tells of two operands: texts for `=` and `!=`, else numbers.
#[derive(Clone, Copy, Debug)]
pub enum Operator {
    Same,
    Differs,
    Equal,
    NotEqual,
    Greater,
    GreaterOrEqual,
    Less,
    LessOrEqual,
}

/// The primary that a word is.
pub(crate) fn primary_of(word: &[u8]) -> Option<Primary>
    ensures { result ≡ primary_of word.now }
{
    if word == b"-n".as_slice() {
        return Some(Primary::HasBytes);
    }
    if word == b"-z".as_slice() {
        return Some(Primary::Empty);
    }
    if word == b"-e".as_slice() {
        return Some(Primary::Exists);
    }
    if word == b"-f".as_slice() {
        return Some(Primary::IsFile);
    }
    if word == b"-d".as_slice() {
        return Some(Primary::IsDir);
    }
    if word == b"-L".as_slice() {
        return Some(Primary::IsLink);
    }
    if word == b"-h".as_slice() {
        return Some(Primary::IsLink);
    }
    if word == b"-r".as_slice() {
        return Some(Primary::Readable);
    }
    if word == b"-w".as_slice() {
        return Some(Primary::Writable);
    }
    if word == b"-x".as_slice() {
        return Some(Primary::Executable);
    }
    if word == b"-s".as_slice() {
        return Some(Primary::HasSize);
    }
    None
}

/// The operator that a word is.
pub(crate) fn operator_of(word: &[u8]) -> Option<Operator>
    ensures { result ≡ operator_of word.now }
{
    if word == b"=".as_slice() {
        return Some(Operator::Same);
    }
    if word == b"!=".as_slice() {
        return Some(Operator::Differs);
    }
    if word == b"-eq".as_slice() {
        return Some(Operator::Equal);
    }
    if word == b"-ne".as_slice() {
        return Some(Operator::NotEqual);
    }
    if word == b"-gt".as_slice() {
        return Some(Operator::Greater);
    }
    if word == b"-ge".as_slice() {
        return Some(Operator::GreaterOrEqual);
    }
    if word == b"-lt".as_slice() {
        return Some(Operator::Less);
    }
    if word == b"-le".as_slice() {
        return Some(Operator::LessOrEqual);
    }
    None
}

/// Whether a link that the path ends with is followed.
pub fn follows(primary: Primary) -> bool
    ensures { result ≡ follows primary }
{
    match primary {
        Primary::HasBytes => true,
        Primary::Empty => true,
        Primary::Exists => true,
        Primary::IsFile => true,
        Primary::IsDir => true,
        Primary::IsLink => false,
        Primary::Readable => true,
        Primary::Writable => true,
        Primary::Executable => true,
        Primary::HasSize => true,
    }
}

fn is_file(kind: FileType) -> bool
    ensures { result ≡ is_file kind }
{
    match kind {
        FileType::File => true,
        FileType::Dir => false,
        FileType::Link => false,
    }
}

fn is_dir(kind: FileType) -> bool
    ensures { result ≡ is_dir kind }
{
    match kind {
        FileType::File => false,
        FileType::Dir => true,
        FileType::Link => false,
    }
}

fn is_link(kind: FileType) -> bool
    ensures { result ≡ is_link kind }
{
    match kind {
        FileType::File => false,
        FileType::Dir => false,
        FileType::Link => true,
    }
}

fn has_r(mode: u16) -> bool
    ensures { result ≡ has_r mode }
{
    mode / 256 % 2 == 1
}

fn has_w(mode: u16) -> bool
    ensures { result ≡ has_w mode }
{
    mode / 128 % 2 == 1
}

fn has_x(mode: u16) -> bool
    ensures { result ≡ has_x mode }
{
    mode / 64 % 2 == 1
}

/// What it tells of what stands at a path: its kind, its mode, and whether it is a file without bytes.
pub fn holds_of(primary: Primary, kind: FileType, mode: u16, empty: bool) -> bool
    ensures { result ≡ holds_of primary kind mode empty }
{
    match primary {
        Primary::HasBytes => true,
        Primary::Empty => true,
        Primary::Exists => true,
        Primary::IsFile => is_file(kind),
        Primary::IsDir => is_dir(kind),
        Primary::IsLink => is_link(kind),
        Primary::Readable => has_r(mode),
        Primary::Writable => has_w(mode),
        Primary::Executable => has_x(mode),
        Primary::HasSize => !empty,
    }
}

/// What it tells of two numbers.
pub(crate) fn relates(operator: Operator, m: Number, n: Number) -> bool
    ensures { result ≡ relates operator m n }
{
    let less = is_less(m, n);
    let greater = is_less(n, m);
    match operator {
        Operator::Same => false,
        Operator::Differs => false,
        Operator::Equal => !less && !greater,
        Operator::NotEqual => less || greater,
        Operator::Greater => greater,
        Operator::GreaterOrEqual => !less,
        Operator::Less => less,
        Operator::LessOrEqual => !greater,
    }
}
