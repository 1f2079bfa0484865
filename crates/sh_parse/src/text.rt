// Texts as sources of tokens.
ghost use Rattle.std.specs.Prelude.{◌≡◌, IfOk};
ghost use Rattle.sh_token.specs.Places.{begin};

use crate::source::{ParseErr, Source};
use crate::texts::Texts;
use rk_base::{Bytes, NoMemory};
use sh_lex::{Cursor, TakeErr};
use sh_rules::{Mode, TokenKind};
use std::alloc::Global;

/// A text at a place, and texts of tokens that were taken of it.
#[derive(Drop)]
pub struct Tokens<'a> {
    pub cursor: Cursor<'a>,
    texts: Texts,
}

impl<'a> Tokens<'a> {
    /// At a text's beginning, where a script begins.
    pub fn new(alloc: Global, text: &'a [u8]) -> Result<Tokens<'a>, NoMemory>
        ensures { IfOk result (λ s. s.cursor ≡ begin text.now) }
    {
        let texts = Texts::new(alloc, text.len())?;
        Ok(Tokens {
            cursor: Cursor::new(alloc, text),
            texts,
        })
    }
}

impl<'a> Source for Tokens<'a> {
    ghost place = { λ s. s.cursor };

    #[tactic(auto, using(crate::proofs::Sourced::found_there))]
    fn look(&self, mode: Mode) -> Option<(TokenKind, usize)> {
        self.cursor.look(mode)
    }

    #[tactic(auto, using(crate::proofs::Sourced::took_text, crate::proofs::Sourced::took_shrinks, crate::proofs::Sourced::took_deep))]
    fn take(&mut self, alloc: Global, kind: TokenKind, length: usize) -> Result<Bytes, ParseErr> {
        match self.cursor.take(kind, length) {
            Err(TakeErr::Memory) => Err(ParseErr::Memory),
            Err(TakeErr::Deep) => Err(ParseErr::Deep),
            Ok(taken) => match self.texts.read(alloc, &taken) {
                Err(_) => Err(ParseErr::Memory),
                Ok(text) => Ok(text),
            },
        }
    }
}
