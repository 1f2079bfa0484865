// What opens and closes: levels, quotes, substitutions and braces.
ghost use Rattle.std.specs.Prelude.{◌≡◌, ◌≤◌, ◌<◌, ◌-◌, length, IfOk};
ghost use Rattle.sh_token.specs.declared.effect.Effect.TheVariants as e;
ghost use Rattle.sh_token.specs.Places.{last_paren};
ghost use Rattle.sh_token.specs.Steps as lem;

use crate::cursor::TakeErr;
use crate::place::Cursor;
use sh_token::place::Words;

impl<'a> Cursor<'a> {
    #[tactic(auto, unfolding(sh_token::specs::Steps::after))]
    pub(crate) fn opens(&mut self, n: usize)
        requires within { n ≤ length self.old.text }
        requires room { self.old.levels < 64 }
        ensures { self.new ≡ lem.after e.Opens n self.old }
    {
        self.words = Words::All;
        self.levels += 1;
        self.advance(n);
        self.pass_blanks();
    }

    #[tactic(auto, unfolding(sh_token::specs::Steps::after))]
    pub(crate) fn opens_word(&mut self, n: usize)
        requires within { n ≤ length self.old.text }
        requires room { self.old.levels < 64 }
        ensures { self.new ≡ lem.after e.OpensWord n self.old }
    {
        self.words = Words::Ordinary;
        self.levels += 1;
        self.advance(n);
        self.pass_blanks();
    }

    #[tactic(auto, unfolding(sh_token::specs::Steps::after))]
    pub(crate) fn opens_paren(&mut self, n: usize) -> Result<(), TakeErr>
        requires within { n ≤ length self.old.text }
        requires room { self.old.levels < 64 }
        ensures { IfOk result (λ _. self.new ≡ lem.after e.OpensParen n self.old) }
    {
        self.parens.push(false)?;
        self.opens(n);
        Ok(())
    }

    #[tactic(auto, unfolding(sh_token::specs::Steps::after))]
    pub(crate) fn closes(&mut self, n: usize)
        requires within { n ≤ length self.old.text }
        ensures { self.new ≡ lem.after e.Closes n self.old }
    {
        self.words = Words::Closers;
        self.levels = less_one(self.levels);
        self.advance(n);
        self.pass_blanks();
    }

    fn close_substitution(&mut self)
        ensures { self.new ≡ lem.substitution_closed self.old }
    {
        pop_place(&mut self.opened);
        self.levels = less_one(self.levels);
        self.words = Words::Ordinary;
        self.pass_joins();
    }

    fn close_subshell(&mut self)
        ensures { self.new ≡ lem.subshell_closed self.old }
    {
        self.levels = less_one(self.levels);
        self.words = Words::Closers;
        self.pass_blanks();
    }

    fn close_paren(&mut self, substitution: bool)
        ensures { self.new ≡ lem.paren_closed substitution self.old }
    {
        if substitution {
            self.close_substitution();
        } else {
            self.close_subshell();
        }
    }

    #[tactic(auto, unfolding(sh_token::specs::Steps::after))]
    pub(crate) fn closes_paren(&mut self, n: usize)
        requires within { n ≤ length self.old.text }
        ensures { self.new ≡ lem.after e.ClosesParen n self.old }
    {
        let substitution = pop_paren(&mut self.parens);
        self.advance(n);
        self.close_paren(substitution);
    }

    #[tactic(auto, unfolding(sh_token::specs::Steps::after))]
    pub(crate) fn substitutes(&mut self, n: usize) -> Result<(), TakeErr>
        requires within { n ≤ length self.old.text }
        requires room { self.old.levels < 64 }
        ensures { IfOk result (λ _. self.new ≡ lem.after e.Substitutes n self.old) }
    {
        self.parens.push(true)?;
        self.opened.push(self.at)?;
        self.opens(n);
        Ok(())
    }

    #[tactic(auto, unfolding(sh_token::specs::Steps::after))]
    pub(crate) fn quotes(&mut self, n: usize) -> Result<(), TakeErr>
        requires within { n ≤ length self.old.text }
        ensures { IfOk result (λ _. self.new ≡ lem.after e.Quotes n self.old) }
    {
        self.opened.push(self.at)?;
        self.inside(n);
        Ok(())
    }

    #[tactic(auto, unfolding(sh_token::specs::Steps::after))]
    pub(crate) fn unquotes(&mut self, n: usize)
        requires within { n ≤ length self.old.text }
        ensures { self.new ≡ lem.after e.Unquotes n self.old }
    {
        pop_place(&mut self.opened);
        self.inside(n);
    }

    #[tactic(auto, unfolding(sh_token::specs::Steps::after))]
    pub(crate) fn opens_braces(&mut self, n: usize) -> Result<(), TakeErr>
        requires within { n ≤ length self.old.text }
        requires room { self.old.levels < 64 }
        ensures { IfOk result (λ _. self.new ≡ lem.after e.OpensBraces n self.old) }
    {
        self.opened.push(self.at)?;
        self.levels += 1;
        self.inside(n);
        Ok(())
    }

    #[tactic(auto, unfolding(sh_token::specs::Steps::after))]
    pub(crate) fn closes_braces(&mut self, n: usize)
        requires within { n ≤ length self.old.text }
        ensures { self.new ≡ lem.after e.ClosesBraces n self.old }
    {
        pop_place(&mut self.opened);
        self.levels = less_one(self.levels);
        self.inside(n);
    }

    #[tactic(auto, unfolding(sh_token::specs::Steps::after))]
    pub(crate) fn opens_arithmetic(&mut self, n: usize) -> Result<(), TakeErr>
        requires within { n ≤ length self.old.text }
        requires room { self.old.levels < 64 }
        ensures { IfOk result (λ _. self.new ≡ lem.after e.OpensArithmetic n self.old) }
    {
        self.parens.push(true)?;
        self.opened.push(self.at)?;
        self.levels += 1;
        self.inside(n);
        Ok(())
    }

    #[tactic(auto, unfolding(sh_token::specs::Steps::after))]
    pub(crate) fn closes_arithmetic(&mut self, n: usize)
        requires within { n ≤ length self.old.text }
        ensures { self.new ≡ lem.after e.ClosesArithmetic n self.old }
    {
        let _ = pop_paren(&mut self.parens);
        pop_place(&mut self.opened);
        self.levels = less_one(self.levels);
        self.inside(n);
    }

    #[tactic(auto, unfolding(sh_token::specs::Steps::after))]
    pub(crate) fn opens_parenthesis(&mut self, n: usize) -> Result<(), TakeErr>
        requires within { n ≤ length self.old.text }
        ensures { IfOk result (λ _. self.new ≡ lem.after e.OpensParenthesis n self.old) }
    {
        self.parens.push(false)?;
        self.inside(n);
        Ok(())
    }

    #[tactic(auto, unfolding(sh_token::specs::Steps::after))]
    pub(crate) fn closes_parenthesis(&mut self, n: usize)
        requires within { n ≤ length self.old.text }
        ensures { self.new ≡ lem.after e.ClosesParenthesis n self.old }
    {
        let _ = pop_paren(&mut self.parens);
        self.inside(n);
    }
}

fn or_false(last: Option<bool>) -> bool
    ensures { result ≡ lem.or_false last }
{
    match last {
        None => false,
        Some(substitution) => substitution,
    }
}

// The last parenthesis goes: whether it opened a substitution.
fn pop_paren(parens: &mut Vec<bool>) -> bool
    ensures last { result ≡ last_paren parens.old.items }
    ensures rest { parens.new.items ≡ lem.popped parens.old.items }
{
    or_false(parens.pop())
}

// The last place that is open goes.
fn pop_place(opened: &mut Vec<usize>)
    ensures { opened.new.items ≡ lem.popped opened.old.items }
{
    let _ = opened.pop();
}

// One level less.
fn less_one(levels: usize) -> usize
    ensures { result ≡ levels - 1 }
{
    if levels == 0 { 0 } else { levels - 1 }
}
