// From a place to the next one, by what a token leaves open.
ghost use Rattle.std.specs.Prelude.{◌≡◌, ◌≤◌, ◌<◌, length, IfOk, true};
ghost use Rattle.sh_token.specs.declared.effect.Effect.TheVariants as e;
ghost use Rattle.sh_token.specs.Places as place;
ghost use Rattle.sh_token.specs.Steps as lem;

use crate::cursor::TakeErr;
use crate::place::Cursor;
use sh_token::blanks::{blanks, joins};
use sh_token::effect::Effect;
use sh_token::place::Words;

impl<'a> Cursor<'a> {
    // So many bytes further.
    pub(crate) fn advance(&mut self, n: usize)
        requires within { n ≤ length self.old.text }
        ensures { self.new ≡ place.moved n self.old }
    {
        self.text = self.text.behind(n);
        self.at += n;
    }

    pub(crate) fn pass_joins(&mut self)
        ensures { self.new ≡ place.past_joins self.old }
    {
        let n = joins(self.text.bytes());
        self.advance(n);
        self.in_word = true;
    }

    pub(crate) fn pass_blanks(&mut self)
        ensures { self.new ≡ place.past_blanks self.old }
    {
        let n = blanks(self.text.bytes());
        self.advance(n);
        self.in_word = false;
    }

    #[tactic(auto, unfolding(sh_token::specs::Steps::after))]
    pub(crate) fn inside(&mut self, n: usize)
        requires within { n ≤ length self.old.text }
        ensures { self.new ≡ lem.after e.Inside n self.old }
    {
        self.advance(n);
        self.pass_joins();
    }

    #[tactic(auto, unfolding(sh_token::specs::Steps::after))]
    fn separates(&mut self, n: usize)
        requires within { n ≤ length self.old.text }
        ensures { self.new ≡ lem.after e.Separates n self.old }
    {
        self.words = Words::All;
        self.in_bodies = false;
        self.advance(n);
        self.pass_blanks();
    }

    #[tactic(auto, unfolding(sh_token::specs::Steps::after))]
    pub(crate) fn ends_word(&mut self, n: usize)
        requires within { n ≤ length self.old.text }
        ensures { self.new ≡ lem.after e.EndsWord n self.old }
    {
        self.words = Words::Ordinary;
        self.advance(n);
        self.pass_blanks();
    }

    #[tactic(auto, unfolding(sh_token::specs::Steps::after))]
    fn ends_name(&mut self, n: usize)
        requires within { n ≤ length self.old.text }
        ensures { self.new ≡ lem.after e.EndsName n self.old }
    {
        self.words = Words::Closers;
        self.advance(n);
        self.pass_blanks();
    }

    #[tactic(auto, unfolding(sh_token::specs::Steps::after))]
    /// To the place behind a token of so many bytes.
    pub(crate) fn step(&mut self, effect: Effect, n: usize) -> Result<(), TakeErr>
        requires within { n ≤ length self.old.text }
        requires room { lem.opens_level effect ≡ true → self.old.levels < 64 }
        ensures { IfOk result (λ _. self.new ≡ lem.after effect n self.old) }
    {
        match effect {
            Effect::Inside => {
                self.inside(n);
                Ok(())
            }
            Effect::Separates => {
                self.separates(n);
                Ok(())
            }
            Effect::Opens => {
                self.opens(n);
                Ok(())
            }
            Effect::OpensWord => {
                self.opens_word(n);
                Ok(())
            }
            Effect::OpensParen => self.opens_paren(n),
            Effect::Closes => {
                self.closes(n);
                Ok(())
            }
            Effect::ClosesParen => {
                self.closes_paren(n);
                Ok(())
            }
            Effect::Substitutes => self.substitutes(n),
            Effect::Quotes => self.quotes(n),
            Effect::Unquotes => {
                self.unquotes(n);
                Ok(())
            }
            Effect::OpensBraces => self.opens_braces(n),
            Effect::ClosesBraces => {
                self.closes_braces(n);
                Ok(())
            }
            Effect::OpensArithmetic => self.opens_arithmetic(n),
            Effect::ClosesArithmetic => {
                self.closes_arithmetic(n);
                Ok(())
            }
            Effect::OpensParenthesis => self.opens_parenthesis(n),
            Effect::ClosesParenthesis => {
                self.closes_parenthesis(n);
                Ok(())
            }
            Effect::EndsWord => {
                self.ends_word(n);
                Ok(())
            }
            Effect::EndsName => {
                self.ends_name(n);
                Ok(())
            }
            Effect::Awaits => {
                self.awaits(n);
                Ok(())
            }
            Effect::Delimits => self.delimits(n),
            Effect::EndsLine => {
                self.ends_line(n);
                Ok(())
            }
            Effect::TakesBody => {
                self.takes_body(n);
                Ok(())
            }
            Effect::OpensBody => self.opens_body(n),
            Effect::ClosesBody => {
                self.closes_body();
                Ok(())
            }
            Effect::Encloses => {
                self.inside(n);
                Ok(())
            }
        }
    }
}
