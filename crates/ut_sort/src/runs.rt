// Bytes of one class at the front of a text.
ghost use Rattle.std.specs.Prelude.{◌≡◌, ◌≤◌, length, take, drop};
ghost use Rattle.ut_args.specs.Forms.{is_digit, is_order};
ghost use Rattle.ut_sort.specs.Runs.{is_blank, is_of, run, front, rest};

/// A class of bytes.
#[derive(Clone, Copy, Debug, Drop)]
pub enum ByteClass {
    /// A space or a tab.
    Blank,
    /// None of these.
    Solid,
    Digit,
    /// The digit zero.
    Zero,
    /// Neither `n` nor `r`.
    Unlettered,
    /// Any byte but this one.
    Other(u8),
}

fn is_blank(b: u8) -> bool
    ensures { result ≡ is_blank b }
{
    b == b' ' || b == b'\t'
}

fn is_digit(b: u8) -> bool
    ensures { result ≡ is_digit b }
{
    b >= b'0' && b <= b'9'
}

fn is_order(b: u8) -> bool
    ensures { result ≡ is_order b }
{
    b == b'n' || b == b'r'
}

fn is_of(class: ByteClass, b: u8) -> bool
    ensures { result ≡ is_of class b }
{
    match class {
        ByteClass::Blank => is_blank(b),
        ByteClass::Solid => !is_blank(b),
        ByteClass::Digit => is_digit(b),
        ByteClass::Zero => b == b'0',
        ByteClass::Unlettered => !is_order(b),
        ByteClass::Other(c) => b != c,
    }
}

/// How many bytes of a class stand at the front.
pub(crate) fn run(class: ByteClass, text: &[u8]) -> usize
    ensures run { result ≡ run class text.now }
    ensures within { result ≤ length text.now }
{
    let mut at = 0;
    'bytes: while at < text.len() {
        if !is_of(class, text[at]) {
            return at;
        }
        at += 1;
    }
    at
}

/// The bytes of a class at the front.
pub(crate) fn front(class: ByteClass, text: &[u8]) -> &[u8]
    ensures { result.now ≡ front class text.now }
{
    text.split_at(run(class, text)).0
}

/// What comes after them.
pub(crate) fn rest(class: ByteClass, text: &[u8]) -> &[u8]
    ensures rest { result.now ≡ rest class text.now }
    ensures within { length result.now ≤ length text.now }
{
    text.split_at(run(class, text)).1
}
