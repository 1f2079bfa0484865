// The cursor: which token stands where it is.
ghost use Rattle.std.specs.Prelude.{◌≡◌, ◌≤◌, nat_lt, length, take as first_bytes, ◌+◌, Some, IfSome};
ghost use Rattle.sh_token.specs.Bytes.{◌also◌, not_so};
ghost use Rattle.sh_token.specs.Folded.{folded};
ghost use Rattle.sh_token.specs.Places.{begin, begin_at, is_none};
ghost use Rattle.sh_rules.specs.Modes.{mode_of as mode_lem};
ghost use Rattle.sh_token.specs.Lexemes.{look as look_lem};
ghost use Rattle.sh_token.specs.Steps.{drops as drops_lem, next_drops as next_lem, opens_level as opens_lem};
ghost use Rattle.sh_lex.specs.Takes.{Takes};

use crate::lexeme::measured;
use crate::place::Cursor;
use crate::queue::Queue;
use crate::table::tried;
use crate::taken::Taken;
use rk_base::NoMemory;
use sh_rules::{Mode, TokenKind};
use sh_token::blanks::past_blanks;
use sh_token::brackets::before_symbol;
use sh_token::effect::{Effect, effect_of, opens_level, takes_body};
use sh_token::folded::is_read_out;
use sh_token::front::front_of;
use sh_token::kinds::{is_raw, text_class};
use sh_token::place::Words;
use sh_token::unread::Unread;
use std::alloc::{AllocFailed, Global};

/// Why no token is taken: memory ran out, or it opens one level too many.
#[derive(Clone, Copy)]
pub enum TakeErr {
    Memory,
    Deep,
}

impl From<NoMemory> for TakeErr {
    fn from(_: NoMemory) -> TakeErr {
        TakeErr::Memory
    }
}

impl<T: Drop> From<AllocFailed<T>> for TakeErr {
    fn from(_: AllocFailed<T>) -> TakeErr {
        TakeErr::Memory
    }
}

impl<'a> Cursor<'a> {
    /// At a text's beginning, where a script begins.
    pub fn new(alloc: Global, text: &'a [u8]) -> Cursor<'a>
        ensures { result ≡ begin text.now }
    {
        Cursor::from(alloc, text, 0)
    }

    /// At a byte of a text, as if a script began there.
    pub(crate) fn from(alloc: Global, text: &'a [u8], at: usize) -> Cursor<'a>
        requires { at ≤ length text.now }
        ensures begins { result ≡ begin_at at text.now }
        ensures whole { result.at + length result.text ≡ length text.now }
    {
        let rest = past_blanks(text.split_at(at).1);
        Cursor {
            alloc,
            text: Unread::new(rest),
            at: text.len() - rest.len(),
            words: Words::All,
            levels: 0,
            opened: Vec::new(alloc),
            parens: Vec::new(alloc),
            awaited: Queue::new(alloc),
            in_bodies: false,
            in_word: false,
            due: false,
            operator: 0,
            dashed: false,
            tabs: false,
            around: Vec::new(alloc),
        }
    }

    /// The kind of the token that stands here in a mode, and how many bytes of the text it has.
    #[tactic(auto, unfolding(sh_token::specs::Lexemes::look))]
    pub fn look(&self, mode: Mode) -> Option<(TokenKind, usize)>
        ensures found { result ≡ look_lem mode self.now }
        ensures within { IfSome result (λ x. x.1 ≤ length self.now.text) }
    {
        let front = front_of(self.words, self.text.bytes());
        measured(
            tried(mode, front),
            self.is_whole(),
            self.is_closed(),
            self.is_nested(),
            self.words,
            &self.awaited,
            &self.text,
        )
    }
    // Whether the tabs at the beginning of lines are dropped from a token.
    fn drops(&self, effect: Effect) -> bool
        ensures { result ≡ drops_lem effect self.now }
    {
        if takes_body(effect) {
            next_drops(self.awaited.next())
        } else {
            self.tabs
        }
    }

    /// Nothing is left but joined lines.
    pub(crate) fn is_read_out(&self) -> bool
        ensures { result ≡ is_none (folded self.now.text) }
    {
        is_read_out(self.text.bytes())
    }

    /// The first bytes of what is left.
    pub(crate) fn front_bytes(&self, n: usize) -> &'a [u8]
        requires { n ≤ length self.now.text }
        ensures { result.now ≡ first_bytes n self.now.text }
    {
        self.text.bytes().split_at(n).0
    }

    /// Takes the token of a kind that stands here, of so many bytes, as `look` told them.
    #[tactic(auto, unfolding(sh_token::specs::Steps::over, crate::specs::Takes::Takes))]
    pub fn take(&mut self, kind: TokenKind, length: usize) -> Result<Taken<'a>, TakeErr>
        requires { look_lem (mode_lem kind) self.old ≡ Some (kind, length) }
        ensures { Takes kind length self.old self.new result }
    {
        let effect = effect_of(kind);
        if is_over(effect, self.levels) {
            return Err(TakeErr::Deep);
        }
        let text = self.front_bytes(length);
        let tabs = self.drops(effect);
        match self.step(effect, length) {
            Err(_) => Err(TakeErr::Memory),
            Ok(()) => {
                self.remember(kind, text);
                Ok(Taken {
                    text,
                    raw: is_raw(kind),
                    tabs,
                    begins: takes_body(effect),
                })
            }
        }
    }

    // Behind a text with `[.` or `[=`, looks for how far no `]` closes a bracket, where it wasn't yet looked for.
    fn remember(&mut self, kind: TokenKind, token: &[u8])
        ensures { self.new ≡ self.old }
    {
        if let Some(class) = text_class(kind) {
            if !self.text.is_looked_through(class) && before_symbol(token) < token.len() {
                self.text = self.text.looked_through(class);
            }
        }
    }
}

// A token with an effect opens a level too many.
fn is_over(effect: Effect, levels: usize) -> bool
    ensures { result ≡ (opens_lem effect also not_so (nat_lt levels 64)) }
{
    opens_level(effect) && levels >= 64
}

fn next_drops(next: Option<(bool, usize, bool)>) -> bool
    ensures { result ≡ next_lem next }
{
    match next {
        None => false,
        Some((_, _, tabs)) => tabs,
    }
}
