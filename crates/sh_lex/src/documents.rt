// Here-documents: those that are awaited, and their bodies (XCU 2.7.4).
ghost use Rattle.std.specs.Prelude.{◌≡◌, ◌≤◌, length, IfOk, false, true};
ghost use Rattle.sh_token.specs.declared.effect.Effect.TheVariants as e;
ghost use Rattle.sh_token.specs.Folded.{folded};
ghost use Rattle.sh_token.specs.Steps as lem;

use crate::cursor::TakeErr;
use crate::place::{Cursor, Outer};
use crate::queue::Queue;
use sh_token::body::line;
use sh_token::delimiter::{delimiter_of, is_quoted};
use sh_token::extents::tabs_extent;
use sh_token::folded::{first, is_read_out, rest};
use sh_token::place::{HereDocument, Words};
use sh_token::unread::Unread;
use std::mem;

impl<'a> Cursor<'a> {
    #[tactic(auto, unfolding(sh_token::specs::Steps::after))]
    pub(crate) fn awaits(&mut self, n: usize)
        requires within { n ≤ length self.old.text }
        ensures { self.new ≡ lem.after e.Awaits n self.old }
    {
        self.dashed = is_dashed(self.text.bytes().split_at(n).0);
        self.operator = self.at;
        self.due = true;
        self.ends_word(n);
    }

    #[tactic(auto, unfolding(sh_token::specs::Steps::after))]
    pub(crate) fn delimits(&mut self, n: usize) -> Result<(), TakeErr>
        requires within { n ≤ length self.old.text }
        ensures { IfOk result (λ _. self.new ≡ lem.after e.Delimits n self.old) }
    {
        let word = self.text.bytes().split_at(n).0;
        let document = HereDocument {
            at: self.operator,
            levels: self.levels,
            delimiter: delimiter_of(self.alloc, word)?,
            quoted: is_quoted(word),
            tabs: self.dashed || self.tabs,
        };
        self.awaited.push(document)?;
        self.due = false;
        self.ends_word(n);
        Ok(())
    }

    #[tactic(auto, unfolding(sh_token::specs::Steps::after))]
    pub(crate) fn ends_line(&mut self, n: usize)
        requires within { n ≤ length self.old.text }
        ensures { self.new ≡ lem.after e.EndsLine n self.old }
    {
        self.in_bodies = true;
        self.advance(n);
    }

    // Past the line that ends a body.
    fn pass_line(&mut self, literal: bool)
        ensures { self.new ≡ lem.past_line literal self.old }
    {
        let n = line(literal, self.text.bytes());
        self.advance(n);
    }

    // Past a body and the line that ends it.
    fn pass_body(&mut self, literal: bool, n: usize)
        requires within { n ≤ length self.old.text }
        ensures { self.new ≡ lem.body_passed literal n self.old }
    {
        self.advance(n);
        self.pass_line(literal);
        self.awaited.advance();
    }

    #[tactic(auto, unfolding(sh_token::specs::Steps::after))]
    pub(crate) fn takes_body(&mut self, n: usize)
        requires within { n ≤ length self.old.text }
        ensures { self.new ≡ lem.after e.TakesBody n self.old }
    {
        match self.awaited.next() {
            None => self.advance(n),
            Some((literal, _, _)) => self.pass_body(literal, n),
        }
    }

    fn drop_tabs(&mut self)
        ensures { self.new ≡ lem.past_tabs_if true self.old }
    {
        let n = tabs_extent(self.text.bytes());
        self.advance(n);
        self.pass_joins();
    }

    // Past the tabs with which a line begins, where they are dropped.
    fn pass_tabs(&mut self, dropped: bool)
        ensures { self.new ≡ lem.past_tabs_if dropped self.old }
    {
        if dropped {
            self.drop_tabs();
        } else {
            self.pass_joins();
        }
    }

    // What stands around a body is put aside: where one stands, and what is open there.
    fn put_aside(&mut self) -> Result<(), TakeErr>
        ensures { IfOk result (λ _. self.new ≡ lem.put_aside self.old) }
    {
        let alloc = self.alloc;
        let outer = Outer {
            text: self.text.bytes(),
            at: self.at,
            levels: self.levels,
            opened: mem::replace(&mut self.opened, Vec::new(alloc)),
            parens: mem::replace(&mut self.parens, Vec::new(alloc)),
            awaited: mem::replace(&mut self.awaited, Queue::new(alloc)),
            tabs: self.tabs,
        };
        self.around.push(outer)?;
        Ok(())
    }

    fn begins_body(
        &mut self,
        literal: bool,
        levels: usize,
        tabs: bool,
        n: usize,
    ) -> Result<(), TakeErr>
        requires within { n ≤ length self.old.text }
        ensures { IfOk result (λ _. self.new ≡ lem.body_begun literal levels tabs n self.old) }
    {
        let body = self.text.bytes().split_at(n).0;
        let at = self.at;
        self.pass_body(literal, n);
        self.put_aside()?;
        self.text = Unread::new(body);
        self.at = at;
        self.words = Words::Ordinary;
        self.levels = levels;
        self.in_bodies = false;
        self.tabs = tabs;
        self.pass_tabs(tabs);
        Ok(())
    }

    #[tactic(auto, unfolding(sh_token::specs::Steps::after))]
    pub(crate) fn opens_body(&mut self, n: usize) -> Result<(), TakeErr>
        requires within { n ≤ length self.old.text }
        ensures { IfOk result (λ _. self.new ≡ lem.after e.OpensBody n self.old) }
    {
        match self.awaited.next() {
            None => {
                self.advance(n);
                Ok(())
            }
            Some((literal, levels, tabs)) => self.begins_body(literal, levels, tabs, n),
        }
    }

    #[tactic(auto, unfolding(sh_token::specs::Steps::after))]
    pub(crate) fn closes_body(&mut self)
        ensures { self.new ≡ lem.after e.ClosesBody 0 self.old }
    {
        match pop_around(&mut self.around) {
            None => (),
            Some(outer) => self.goes_back(outer),
        }
    }

    // Back to what stands around a body.
    fn goes_back(&mut self, outer: Outer<'a>)
        ensures { self.new ≡ lem.gone_back outer.entry self.old }
    {
        let Outer {
            text,
            at,
            levels,
            opened,
            parens,
            awaited,
            tabs,
        } = outer;
        self.text = Unread::new(text);
        self.at = at;
        self.levels = levels;
        self.opened = opened;
        self.parens = parens;
        self.awaited = awaited;
        self.tabs = tabs;
        self.in_bodies = true;
    }
}

// What stands around a body comes back.
fn pop_around<'a>(around: &mut Vec<Outer<'a>>) -> Option<Outer<'a>>
    ensures last { result ≡ lem.last_around around.old.items }
    ensures rest { around.new.items ≡ lem.popped around.old.items }
{
    around.pop()
}

// The operator ends with the sign that drops tabs.
fn is_dashed(operator: &[u8]) -> bool
    ensures { result ≡ lem.ends_with_dash false (folded operator.now) }
{
    let mut dashed = false;
    let mut left = operator;
    'bytes: loop {
        if is_read_out(left) {
            return dashed;
        }
        dashed = first(left) == b'-';
        left = rest(left);
    }
}
