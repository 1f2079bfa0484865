// What is left of a text, and how far it is known that no bracket in it is closed.
ghost use Rattle.std.specs.Prelude.{◌≡◌, ◌≤◌, drop, length, true, false};
ghost use Rattle.sh_token.specs.Bytes.{class_is};
ghost use Rattle.sh_token.specs.Brackets.{closes_bracket};
ghost use Rattle.sh_token.specs.Folded.{folded};

use crate::brackets::unclosed_down_to;
use crate::bytes::Class;
use std::marker::Model;

/// What is left of a text, and how far no `]` closes a bracket in it, as far as this was looked for: so the unquoted bytes behind a `[.`
/// aren't gone over again for each one that stands among them, whether a `]` is there or none.
#[derive(Drop)]
pub struct Unread<'a> {
    bytes: &'a [u8],
    class: Class,
    // Where more bytes are left than these, no `]` stands among the unquoted bytes of the class.
    down_to: usize,
    // Where more are left than these, it was looked for one.
    looked_to: usize,
}

impl<'a> Model for Unread<'a> {
    ghost use Rattle.std.specs.Prelude.{List, ℕ};
    ghost use Rattle.sh_token.specs.Bytes.{class_is};
    ghost use Rattle.sh_token.specs.Brackets.{IsUnclosed};

    ghost Value = { List ℕ };

    ghost view = { λ u. u.bytes.now };

    ghost invariant = { λ u. IsUnclosed (class_is u.class) u.down_to u.bytes.now };
}

impl<'a> Unread<'a> {
    /// A text of which nothing is known.
    pub fn new(bytes: &'a [u8]) -> Unread<'a>
        ensures { result ≡ bytes.now }
    {
        Unread {
            bytes,
            class: Class::Plain,
            down_to: bytes.len(),
            looked_to: bytes.len(),
        }
    }

    /// The bytes that are left.
    pub fn bytes(&self) -> &'a [u8]
        ensures { result.now ≡ self.now }
    {
        self.bytes
    }

    /// What is left behind so many bytes, of which as much is known.
    pub fn behind(&self, n: usize) -> Unread<'a>
        requires { n ≤ length self.now }
        ensures { result ≡ drop n self.now }
    {
        Unread {
            bytes: self.bytes.split_at(n).1,
            class: self.class,
            down_to: self.down_to,
            looked_to: self.looked_to,
        }
    }

    /// This text, when it was looked for how far no bracket of unquoted bytes of a class is closed.
    pub fn looked_through(&self, class: Class) -> Unread<'a>
        ensures { result ≡ self.now }
    {
        let (down_to, looked_to) = unclosed_down_to(class, self.bytes);
        Unread {
            bytes: self.bytes,
            class,
            down_to,
            looked_to,
        }
    }

    /// It was looked for a `]` among the unquoted bytes of a class in front.
    pub fn is_looked_through(&self, class: Class) -> bool {
        class == self.class && self.bytes.len() > self.looked_to
    }

    /// It is known that no bracket of unquoted bytes of a class is closed in front.
    pub fn is_unclosed(&self, class: Class) -> bool
        ensures { result ≡ true → closes_bracket (class_is class) (folded self.now) ≡ false }
    {
        class == self.class && self.bytes.len() > self.down_to
    }
}
