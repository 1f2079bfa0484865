// Tokens as they are read.
ghost use Rattle.std.specs.Prelude.{◌≡◌, ◌++◌, ◌∷◌, [], ◌==◌, if◌then◌else◌, IfOk, IfSome};
ghost use Rattle.std.specs.List.{list_all};
ghost use Rattle.sh_token.specs.Bytes.{◌or◌, ◌also◌, is_tab};
ghost use Rattle.sh_token.specs.Steps.{as_read};
ghost use Rattle.sh_lex.specs.Takes.{read_of, stays as stays_lem};

use rk_base::{Bytes, NoMemory};
use sh_token::body::{behind, first_of, is_over};
use std::alloc::Global;

/// The bytes of a token as they stand in the text, and how they are read.
#[derive(Clone, Copy)]
pub struct Taken<'a> {
    pub text: &'a [u8],
    /// Whether joined lines stay.
    pub raw: bool,
    /// Whether the tabs at the beginning of lines are dropped.
    pub tabs: bool,
    /// Whether a line begins with it.
    pub begins: bool,
}

impl<'a> Taken<'a> {
    /// The token's bytes as they are read: without joined lines and the tabs that are dropped.
    pub fn bytes(&self, alloc: Global) -> Result<Bytes, NoMemory>
        ensures { IfOk result (λ b. b ≡ read_of self.now) }
    {
        if let Some(text) = self.plain() {
            return Bytes::from_slice(alloc, text);
        }
        let copy = copied(alloc, self.raw, self.tabs, self.begins, self.text)?;
        let bytes = Bytes::new(alloc, copy)?;
        Ok(bytes)
    }

    /// The token's bytes as they stand in the text, where they are read so.
    #[tactic(auto, using(crate::proofs::AsRead::read_plain))]
    pub fn plain(&self) -> Option<&'a [u8]>
        ensures { IfSome result (λ text. text.now ≡ read_of self.now) }
    {
        if !self.tabs && all_stay(self.text) {
            Some(self.text)
        } else {
            None
        }
    }
}

// A byte joins no lines.
fn stays(c: u8) -> bool
    ensures { result ≡ stays_lem c }
{
    c != b'\\'
}

fn all_stay(text: &[u8]) -> bool
    ensures { result ≡ list_all stays_lem text.now }
{
    text.iter().all(|c| stays(*c))
}

fn is_dropped(tabs: bool, fresh: bool, c: u8) -> bool
    ensures { result ≡ ((tabs also fresh) also is_tab c) }
{
    tabs && fresh && c == b'\t'
}

// A line begins behind a newline, and behind the tabs that were dropped.
fn is_fresh(dropped: bool, c: u8) -> bool
    ensures { result ≡ (dropped or c == 10) }
{
    dropped || c == b'\n'
}

fn push_unless(out: &mut Vec<u8>, dropped: bool, c: u8) -> Result<(), NoMemory>
    ensures { IfOk result (λ _. out.new.items ≡ out.old.items ++ (if dropped then [] else c ∷ [])) }
{
    if !dropped {
        out.push(c)?;
    }
    Ok(())
}

fn copied(
    alloc: Global,
    raw: bool,
    tabs: bool,
    begins: bool,
    text: &[u8],
) -> Result<Vec<u8>, NoMemory>
    ensures { IfOk result (λ v. v.items ≡ as_read raw tabs begins text.now) }
{
    let mut out = Vec::new(alloc);
    let mut fresh = begins;
    let mut left = text;
    'bytes: loop {
        if is_over(raw, left) {
            return Ok(out);
        }
        let c = first_of(raw, left);
        let dropped = is_dropped(tabs, fresh, c);
        push_unless(&mut out, dropped, c)?;
        fresh = is_fresh(dropped, c);
        left = behind(raw, left);
    }
}
