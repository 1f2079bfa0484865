// Classes of bytes.
ghost use Rattle.std.specs.Prelude.{◌≡◌, ◌&&◌, ◌||◌, not, nat_le, ◌==◌, codes, IfSome, IsTrue, length, ◌≤◌};
ghost use Rattle.rk_base.specs.Text.{begins_with};
ghost use Rattle.sh_pattern.specs.Classes.{between, in_class, class_at, named};

/// A character class that a bracket expression names, as `[:alpha:]` (XBD 9.3.5), in the POSIX locale.
#[derive(Clone, Copy, Debug)]
pub enum Class {
    Alpha,
    Digit,
    Alnum,
    Upper,
    Lower,
    Space,
    Blank,
    Punct,
    Print,
    Graph,
    Cntrl,
    Xdigit,
}

pub(crate) fn between(low: u8, high: u8, b: u8) -> bool
    ensures { result ≡ between low high b }
{
    low <= b && b <= high
}

fn begins_with(text: &[u8], front: &[u8]) -> bool
    ensures value { result ≡ begins_with text.now front.now }
    ensures within { IsTrue result → length front.now ≤ length text.now }
{
    text.len() >= front.len() && text.split_at(front.len()).0 == front
}

impl Class {
    /// Whether a byte is in it.
    pub fn holds(self, b: u8) -> bool
        ensures { result ≡ in_class self b }
    {
        match self {
            Class::Alpha => between(b'a', b'z', b) || between(b'A', b'Z', b),
            Class::Digit => between(b'0', b'9', b),
            Class::Alnum => between(b'a', b'z', b)
                || between(b'A', b'Z', b)
                || between(b'0', b'9', b),
            Class::Upper => between(b'A', b'Z', b),
            Class::Lower => between(b'a', b'z', b),
            Class::Space => between(9, 13, b) || b == b' ',
            Class::Blank => b == 9 || b == b' ',
            Class::Punct => between(33, 47, b)
                || between(58, 64, b)
                || between(91, 96, b)
                || between(123, 126, b),
            Class::Print => between(32, 126, b),
            Class::Graph => between(33, 126, b),
            Class::Cntrl => between(0, 31, b) || b == 127,
            Class::Xdigit => between(b'0', b'9', b)
                || between(b'a', b'f', b)
                || between(b'A', b'F', b),
        }
    }
}

fn named(
    text: &[u8],
    front: &[u8],
    class: Class,
    rest: Option<(Class, usize)>,
) -> Option<(Class, usize)>
    ensures value { result ≡ named text.now front.now class rest }
    ensures within { IfSome rest (λ r. r.1 ≤ length text.now) → IfSome result (λ r. r.1 ≤ length text.now) }
{
    if begins_with(text, front) {
        Some((class, front.len()))
    } else {
        rest
    }
}

/// The class that stands at the front of what comes after a `[` within a set, and how many bytes it takes.
pub fn class_at(text: &[u8]) -> Option<(Class, usize)>
    ensures value { result ≡ class_at text.now }
    ensures within { IfSome result (λ r. r.1 ≤ length text.now) }
{
    let at = named(text, b":alpha:]", Class::Alpha, None);
    let at = named(text, b":digit:]", Class::Digit, at);
    let at = named(text, b":alnum:]", Class::Alnum, at);
    let at = named(text, b":upper:]", Class::Upper, at);
    let at = named(text, b":lower:]", Class::Lower, at);
    let at = named(text, b":space:]", Class::Space, at);
    let at = named(text, b":blank:]", Class::Blank, at);
    let at = named(text, b":punct:]", Class::Punct, at);
    let at = named(text, b":print:]", Class::Print, at);
    let at = named(text, b":graph:]", Class::Graph, at);
    let at = named(text, b":cntrl:]", Class::Cntrl, at);
    named(text, b":xdigit:]", Class::Xdigit, at)
}
