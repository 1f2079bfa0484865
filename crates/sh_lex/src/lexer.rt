// The lexer: the tokens of a text, one after another, from any of its bytes on.
ghost use Rattle.std.specs.Prelude.{◌≡◌, ◌≤◌, length, IfSome};
ghost use Rattle.sh_lex.specs.Tokenizing as lem;

use crate::place::Cursor;
use sh_rules::{Mode, TokenKind};
use sh_token::fault::ScriptFault;
use std::alloc::Global;
use std::marker::Model;

/// A token of a text: what it is, at which byte it begins, and its bytes as they stand there.
#[derive(Clone, Copy)]
pub struct Token<'a> {
    pub kind: TokenKind,
    pub at: usize,
    pub text: &'a [u8],
}

/// Why there is no token: the text's fault there, or want of memory.
#[derive(Drop)]
pub enum LexErr {
    Fault(ScriptFault),
    NoMemory,
}

/// A text, of which one token after another is told (XCU 2.3). Each answer is by the text from a byte on alone, as where a script begins:
/// what the tokens before have opened isn't kept.
#[derive(Drop)]
pub struct Lexer<'a> {
    alloc: Global,
    text: &'a [u8],
    at: usize,
}

impl<'a> Model for Lexer<'a> {
    ghost use Rattle.std.specs.Prelude.{◌≤◌, length};
    ghost use Rattle.sh_lex.specs.Tokenizing.{Tokens};

    ghost Value = { Tokens };

    ghost view = { λ l. record { text = l.text.now; at = l.at } };

    ghost invariant = { λ l. l.at ≤ length l.text.now };
}

// The token in front of a place: as where a command begins, or else as among arguments.
fn front(place: &Cursor) -> Option<(TokenKind, usize)>
    ensures found { result ≡ lem.front place.now }
    ensures within { IfSome result (λ x. x.1 ≤ length place.now.text) }
{
    match place.look(Mode::CommandStart) {
        Some(found) => Some(found),
        None => place.look(Mode::Argument),
    }
}

impl<'a> Lexer<'a> {
    /// At a text's beginning. It takes no memory.
    pub fn new(alloc: Global, text: &'a [u8]) -> Lexer<'a>
        ensures { result ≡ record { text = text.now; at = 0 } }
    {
        Lexer { alloc, text, at: 0 }
    }

    /// How many bytes of the text went by.
    pub fn at(&self) -> usize
        ensures { result ≡ self.now.at }
    {
        self.at
    }

    /// Goes to a byte of the text, or to its end.
    pub fn set_at(&mut self, at: usize)
        requires { at ≤ length self.old.text }
        ensures { self.new ≡ record self.old { at = at } }
    {
        self.at = at;
    }

    /// The next token, past blanks, joined lines and a comment, and goes behind it. `None` exactly where nothing is left, and
    /// `Fault` exactly where something is left that begins with no token, unless memory ran out. An error changes nothing.
    #[tactic(auto, unfolding(crate::specs::Tokenizing::Tells))]
    pub fn next(&mut self) -> Result<Option<Token<'a>>, LexErr>
        ensures { lem.Tells self.old self.new result }
    {
        let place = Cursor::from(self.alloc, self.text, self.at);
        let at = place.at;
        if place.is_read_out() {
            self.at = at;
            return Ok(None);
        }
        match front(&place) {
            None => match place.fault(self.alloc, false) {
                Err(_) => Err(LexErr::NoMemory),
                Ok(fault) => Err(LexErr::Fault(fault)),
            },
            Some((kind, n)) => {
                let text = place.front_bytes(n);
                self.at = at + n;
                Ok(Some(Token { kind, at, text }))
            }
        }
    }
}
