// The fault at a place where no token goes on, or where one opens a level too many.
ghost use Rattle.std.specs.Prelude.{◌≡◌, ◌≤◌, ◌<◌, ◌==◌, ◌++◌, ◌∷◌, [], suc, take, drop, length, IfOk};
ghost use Rattle.sh_token.specs.Folded.{folded, run as run_lem};
ghost use Rattle.sh_token.specs.Faults as lem;
ghost use Rattle.sh_token.specs.Places.{is_none};
ghost use Rattle.sh_token.specs.Quoting.{not_quote};
ghost use Rattle.sh_token.specs.Steps as steps;

use crate::place::Cursor;
use rk_base::{Bytes, NoMemory};
use sh_token::blanks::joins;
use sh_token::body::before_nul;
use sh_token::brackets::{before_symbol, bracket};
use sh_token::bytes::{Class, is_digit};
use sh_token::delimiter::walk;
use sh_token::expansions::parameter;
use sh_token::fault::{ScriptFault, Why};
use sh_token::folded::{byte, first, is_read_out, rest, run, skip};
use sh_token::place::HereDocument;
use sh_token::quotes::{before_quote, raw_byte};
use std::alloc::Global;

fn least(a: usize, b: usize) -> usize
    ensures { result ≡ lem.least a b }
{
    if a < b { a } else { b }
}

// A number of two digits or more in front of `<` or `>`.
fn digits_out(text: &[u8]) -> usize
    ensures { result ≡ lem.digits_out (folded text.now) }
{
    let n = run(Class::Digit, text);
    let d = byte(text, n);
    if n > 1 && (d == b'<' || d == b'>') {
        n
    } else {
        0
    }
}

fn dollar_out(text: &[u8]) -> usize
    ensures { result ≡ lem.dollar_out (folded text.now) }
{
    let d = byte(text, 1);
    if d == b'$' || d == b'!' || d == b'-' {
        2
    } else {
        0
    }
}

fn is_out(here: Option<usize>) -> bool
    ensures { result ≡ lem.is_out here }
{
    match here {
        None => true,
        Some(_) => false,
    }
}

// A bracket that has `[.` or `[=`.
fn is_bracket_out(in_word: bool, text: &[u8]) -> bool
    ensures { result ≡ lem.is_bracket_out in_word (folded text.now) }
{
    first(text) == b'[' && (in_word || is_out(bracket(Class::Plain, text)))
}

// How many bytes in front the profile leaves out.
#[tactic(auto, unfolding(sh_token::specs::Faults::left_out))]
fn left_out(text: &[u8]) -> usize
    ensures { result ≡ lem.left_out (folded text.now) }
{
    let c = byte(text, 0);
    if c == b'`' || c == b'~' {
        1
    } else if c == b'&' {
        if byte(text, 1) == b'&' { 0 } else { 1 }
    } else if c == b'<' {
        if byte(text, 1) == b'>' { 2 } else { 0 }
    } else if is_digit(c) {
        digits_out(text)
    } else if c == b'$' {
        dollar_out(text)
    } else {
        0
    }
}

// What is left at the first `[.` or `[=` of the bracket in front.
fn at_symbol(text: &[u8]) -> &[u8]
    ensures left { result.now ≡ lem.at_symbol text.now }
    ensures within { length result.now ≤ length text.now }
{
    let behind = rest(text);
    let n = before_symbol(behind);
    skip(text, n + 1)
}

fn behind_parameter(n: usize, text: &[u8]) -> usize
    requires { n < 4 }
    ensures { result ≡ lem.behind_parameter n (folded text.now) }
{
    let m = n + parameter(skip(text, n));
    if byte(text, m) == b':' { m + 1 } else { m }
}

// The text ends within `${` and its parameter.
#[tactic(auto, unfolding(sh_token::specs::Faults::breaks_off))]
fn breaks_off(text: &[u8]) -> bool
    ensures { result ≡ lem.breaks_off (folded text.now) }
{
    if byte(text, 0) == b'$' && byte(text, 1) == b'{' {
        let n = if byte(text, 2) == b'#' { 3 } else { 2 };
        let behind = skip(text, behind_parameter(n, text));
        is_read_out(behind)
    } else {
        false
    }
}

fn is_zero(count: usize) -> bool
    ensures { result ≡ (count == 0) }
{
    count == 0
}

fn push_byte(out: &mut Vec<u8>, c: u8) -> Result<(), NoMemory>
    ensures { IfOk result (λ _. out.new.items ≡ out.old.items ++ c ∷ []) }
{
    out.push(c)?;
    Ok(())
}

// There are none of so many bytes.
fn is_none_of(count: usize, text: &[u8]) -> bool
    ensures { result ≡ is_none (take count (folded text.now)) }
{
    if is_zero(count) {
        true
    } else {
        is_read_out(text)
    }
}

// The first bytes of a text as it is read.
fn first_bytes(alloc: Global, n: usize, text: &[u8]) -> Result<Bytes, NoMemory>
    ensures { IfOk result (λ b. b ≡ take n (folded text.now)) }
{
    let mut out = Vec::new(alloc);
    let mut left = text;
    let mut count = n;
    'bytes: loop {
        if is_none_of(count, left) {
            let bytes = Bytes::new(alloc, out)?;
            return Ok(bytes);
        }
        push_byte(&mut out, first(left))?;
        left = rest(left);
        count -= 1;
    }
}

fn fault(at: usize, why: Why) -> ScriptFault
    ensures { result ≡ lem.fault at why }
{
    ScriptFault { at, why }
}

// The word left out, or else a token that can't stand there.
fn out_fault(alloc: Global, at: usize, n: usize, text: &[u8]) -> Result<ScriptFault, NoMemory>
    ensures { IfOk result (λ f. f ≡ lem.out_fault n at text.now) }
{
    if n == 0 {
        return Ok(fault(at, Why::Syntax));
    }
    let word = first_bytes(alloc, n, text)?;
    Ok(fault(at, Why::NotInProfile(word)))
}

fn or_operator(due: bool, operator: usize, at: usize) -> usize
    ensures { result ≡ lem.or_operator due operator at }
{
    if due { operator } else { at }
}

fn first_awaited(awaited: &[HereDocument], at: usize) -> usize
    ensures { result ≡ lem.or_first awaited.now at }
{
    match awaited {
        [] => at,
        [d, ..] => least(d.at, at),
    }
}

fn first_opened(opened: &[usize], at: usize) -> usize
    ensures { result ≡ lem.or_opened opened.now at }
{
    match opened {
        [] => at,
        [o, ..] => least(*o, at),
    }
}

impl<'a> Cursor<'a> {
    // The outermost place of what is open.
    fn outermost(&self) -> usize
        ensures { result ≡ lem.open_at self.now }
    {
        let here = or_operator(self.due, self.operator, self.at);
        first_opened(
            self.opened.as_slice(),
            first_awaited(self.awaited.left(), here),
        )
    }

    fn unclosed(&self) -> ScriptFault
        ensures { result ≡ lem.unclosed self.now }
    {
        fault(self.outermost(), Why::Unclosed)
    }

    fn end_fault(&self) -> ScriptFault
        ensures { result ≡ lem.end_fault self.now }
    {
        if self.is_closed() && !self.due {
            fault(self.at, Why::Syntax)
        } else {
            self.unclosed()
        }
    }

    fn bodies_fault(&self) -> ScriptFault
        ensures { result ≡ lem.bodies_fault (steps.next self.now.awaited) self.now }
    {
        match self.awaited.next() {
            None => fault(self.at, Why::Syntax),
            Some(_) => self.body_fault(),
        }
    }

    // No body stands here: it has a NUL, or isn't closed.
    fn body_fault(&self) -> ScriptFault
        ensures { result ≡ lem.body_fault self.now }
    {
        let text = self.text.bytes();
        let n = before_nul(text);
        if n < text.len() {
            fault(self.at + n, Why::Syntax)
        } else {
            self.unclosed()
        }
    }

    fn delimiter_fault(&self, alloc: Global, n: usize) -> Result<ScriptFault, NoMemory>
        requires { n ≤ length self.now.text }
        ensures { IfOk result (λ f. f ≡ lem.delimiter_fault n self.now) }
    {
        let text = self.text.bytes();
        if n >= text.len() {
            return Ok(self.unclosed());
        }
        let place = self.at + n;
        if raw_byte(text, n) == b'`' {
            let word = Bytes::from_slice(alloc, b"`")?;
            Ok(fault(place, Why::NotInProfile(word)))
        } else {
            Ok(fault(place, Why::Syntax))
        }
    }

    // A single quote that isn't closed or has a NUL behind it, or that isn't wanted.
    fn single_fault(&self) -> ScriptFault
        requires { 1 ≤ length self.now.text }
        ensures { result ≡ lem.single_fault (suc (run_lem not_quote (drop 1 self.now.text))) self.now }
    {
        let text = self.text.bytes();
        let n = before_quote(text.split_at(1).1) + 1;
        if n >= text.len() {
            self.unclosed()
        } else if raw_byte(text, n) == b'\'' {
            fault(self.at, Why::Syntax)
        } else {
            fault(self.at + n, Why::Syntax)
        }
    }

    fn symbol_fault(&self, alloc: Global, symbol: &[u8]) -> Result<ScriptFault, NoMemory>
        requires { length symbol.now ≤ length self.now.text }
        ensures { IfOk result (λ f. f ≡ lem.symbol_fault symbol.now self.now) }
    {
        let before = self.text.bytes().len() - symbol.len();
        let word = first_bytes(alloc, 2, symbol)?;
        Ok(fault(self.at + before + joins(symbol), Why::NotInProfile(word)))
    }

    // At the first `[.` or `[=` of the bracket that begins here.
    fn bracket_fault(&self, alloc: Global) -> Result<ScriptFault, NoMemory>
        ensures { IfOk result (λ f. f ≡ lem.bracket_fault self.now) }
    {
        self.symbol_fault(alloc, at_symbol(self.text.bytes()))
    }

    #[tactic(auto, unfolding(sh_token::specs::Faults::text_fault))]
    fn text_fault(&self, alloc: Global) -> Result<ScriptFault, NoMemory>
        ensures { IfOk result (λ f. f ≡ lem.text_fault self.now) }
    {
        let text = self.text.bytes();
        if text.is_empty() {
            Ok(self.end_fault())
        } else if raw_byte(text, 0) == b'\'' {
            Ok(self.single_fault())
        } else if breaks_off(text) {
            Ok(self.unclosed())
        } else if is_bracket_out(self.in_word, text) {
            self.bracket_fault(alloc)
        } else {
            out_fault(alloc, self.at, left_out(text), text)
        }
    }

    fn due_fault(&self, alloc: Global) -> Result<ScriptFault, NoMemory>
        ensures { IfOk result (λ f. f ≡ lem.due_fault self.now) }
    {
        let (count, ends) = walk(self.text.bytes());
        if ends {
            self.text_fault(alloc)
        } else {
            self.delimiter_fault(alloc, count)
        }
    }

    /// Why no script goes on here: a token opens one level too many (`deep`), or none goes on.
    #[tactic(auto, unfolding(sh_token::specs::Faults::blocked_fault))]
    pub fn fault(&self, alloc: Global, deep: bool) -> Result<ScriptFault, NoMemory>
        ensures { IfOk result (λ f. f ≡ lem.told deep self.now) }
    {
        if deep {
            Ok(fault(self.at, Why::Deep))
        } else if self.in_bodies {
            Ok(self.bodies_fault())
        } else if self.due {
            self.due_fault(alloc)
        } else {
            self.text_fault(alloc)
        }
    }
}
