// Words of one part.
ghost use Rattle.std.specs.Prelude.{◌≡◌, ◌↔◌, IsTrue, IfOk};
ghost use Rattle.sh_ast.specs.Words as w;
ghost use Rattle.sh_ast.specs.Commands as c;
ghost use Rattle.sh_nodes.specs.Nodes.{part_of, single_word, word_alone};

use crate::empties::Empties;
use crate::places::{PLACES, place_of};
use crate::simple::of_one_word;
use crate::words::word_of_part;
use rk_base::{Bytes, NoMemory};
use sh_ast::{Parameter, Part, Quoting, SimpleCommand, Word};
use std::alloc::Global;
use std::marker::Model;
use std::rc::Rc;

/// What a part with a text is; of a special parameter the text is its sign.
#[derive(Clone, Copy, PartialEq, Eq)]
pub enum SingleKind {
    /// Bytes that stand for themselves.
    Literal,
    /// The value of the variable of this name.
    Variable,
    /// The value of the positional parameter of these digits.
    Positional,
    /// The value of `@`.
    At,
    /// The value of `*`.
    Asterisk,
    /// The value of `#`.
    Count,
    /// The value of `?`.
    Status,
    /// The value of `0`.
    Zero,
}

/// A part that its kind, its quoting and its text tell: what a word may be alone.
#[derive(Drop)]
pub struct Single {
    pub kind: SingleKind,
    pub quoting: Quoting,
    pub text: Bytes,
}

fn same_kind(a: SingleKind, b: SingleKind) -> bool
    ensures { IsTrue result ↔ (a ≡ b) }
{
    a == b
}

fn same_quoting(a: Quoting, b: Quoting) -> bool
    ensures { IsTrue result ↔ (a ≡ b) }
{
    match a {
        Quoting::Quoted => match b {
            Quoting::Quoted => true,
            Quoting::Unquoted => false,
        },
        Quoting::Unquoted => match b {
            Quoting::Quoted => false,
            Quoting::Unquoted => true,
        },
    }
}

impl Single {
    fn same(&self, other: &Single) -> bool
        ensures { IsTrue result → self.now ≡ other.now }
    {
        same_kind(self.kind, other.kind)
            && same_quoting(self.quoting, other.quoting)
            && self.text.same(&other.text)
    }

    fn copy(&self) -> Result<Single, NoMemory>
        ensures { IfOk result (λ s. s ≡ self.now) }
    {
        let text = self.text.copy()?;
        Ok(Single {
            kind: self.kind,
            quoting: self.quoting,
            text,
        })
    }

    // The part that it tells.
    fn into_part(self) -> Part
        ensures { w.part result ≡ part_of self.kind self.quoting self.text }
    {
        match self.kind {
            SingleKind::Literal => Part::Literal(self.quoting, self.text),
            SingleKind::Variable => Part::Value(self.quoting, Parameter::Variable(self.text)),
            SingleKind::Positional => Part::Value(self.quoting, Parameter::Positional(self.text)),
            SingleKind::At => Part::Value(self.quoting, Parameter::At),
            SingleKind::Asterisk => Part::Value(self.quoting, Parameter::Asterisk),
            SingleKind::Count => Part::Value(self.quoting, Parameter::Count),
            SingleKind::Status => Part::Value(self.quoting, Parameter::Status),
            SingleKind::Zero => Part::Value(self.quoting, Parameter::Zero),
        }
    }
}

// The word that is this part.
fn word_of_single(alloc: Global, single: Single) -> Result<Rc<Word>, NoMemory>
    ensures { IfOk result (λ r. c.word r.value ≡ single_word single) }
{
    word_of_part(alloc, single.into_part())
}

/// A word of one part, kept for where it comes again.
#[derive(Drop)]
pub struct Kept {
    single: Single,
    word: Rc<Word>,
    // The simple command that is this word alone, where it came.
    command: Option<Rc<SimpleCommand>>,
}

impl Model for Kept {
    ghost use Rattle.std.specs.Prelude.{◌≡◌, IfSome};
    ghost use Rattle.sh_ast.specs.Commands as c;
    ghost use Rattle.sh_nodes.specs.declared.singles.Single as declared;
    ghost use Rattle.sh_nodes.specs.Nodes.{single_word, word_alone};

    ghost Value = { declared.Single };

    ghost view = { λ k. k.single };

    ghost invariant = { λ k. (c.word k.word.value ≡ single_word k.single) × IfSome k.command (λ r. c.simple_command r.value ≡ word_alone (single_word k.single)) };
}

impl Kept {
    fn new(alloc: Global, single: Single) -> Result<Kept, NoMemory>
        ensures { IfOk result (λ k. k ≡ single) }
    {
        let word = word_of_single(alloc, single.copy()?)?;
        Ok(Kept {
            single,
            word,
            command: None,
        })
    }

    fn is_of(&self, single: &Single) -> bool
        ensures { IsTrue result → self.now ≡ single.now }
    {
        self.single.same(single)
    }

    fn word(&self) -> Result<Rc<Word>, NoMemory>
        ensures { IfOk result (λ r. c.word r.value ≡ single_word self.now) }
    {
        let word = self.word.clone()?;
        Ok(word)
    }

    fn command(&mut self, alloc: Global, empties: &Empties) -> Result<Rc<SimpleCommand>, NoMemory>
        ensures { IfOk result (λ r. c.simple_command r.value ≡ word_alone (single_word self.old)) }
    {
        if let Some(command) = &self.command {
            let command = command.clone()?;
            return Ok(command);
        }
        let word = self.word()?;
        let command = of_one_word(alloc, empties, word)?;
        self.command = Some(command.clone()?);
        Ok(command)
    }
}

// The word that is this part, out of the place where it is kept from now on.
fn word_in(place: &mut Option<Kept>, alloc: Global, single: Single) -> Result<Rc<Word>, NoMemory>
    ensures { IfOk result (λ r. c.word r.value ≡ single_word single) }
{
    if let Some(kept) = place {
        if kept.is_of(&single) {
            let word = kept.word()?;
            return Ok(word);
        }
    }
    let kept = Kept::new(alloc, single)?;
    let word = kept.word()?;
    *place = Some(kept);
    Ok(word)
}

// The simple command that is this part alone, out of the same place.
fn command_in(
    place: &mut Option<Kept>,
    alloc: Global,
    empties: &Empties,
    single: Single,
) -> Result<Rc<SimpleCommand>, NoMemory>
    ensures { IfOk result (λ r. c.simple_command r.value ≡ word_alone (single_word single)) }
{
    if let Some(kept) = place {
        if kept.is_of(&single) {
            let command = kept.command(alloc, empties)?;
            return Ok(command);
        }
    }
    let mut kept = Kept::new(alloc, single)?;
    let command = kept.command(alloc, empties)?;
    *place = Some(kept);
    Ok(command)
}

/// Words of one part that were met lately: one that is among them again is shared.
#[derive(Drop)]
pub struct Singles {
    // Each in a place that its text tells, which the last one that has it takes.
    kept: Vec<Option<Kept>>,
}

impl Singles {
    /// None yet.
    pub fn new(alloc: Global) -> Result<Singles, NoMemory> {
        let mut kept = Vec::new(alloc);
        kept.reserve_exact(PLACES)?;
        for _ in 0..PLACES {
            kept.push(None)?;
        }
        Ok(Singles { kept })
    }

    /// The word that is this part, shared with the one that is kept of it.
    pub fn word(&mut self, alloc: Global, single: Single) -> Result<Rc<Word>, NoMemory>
        ensures { IfOk result (λ r. c.word r.value ≡ single_word single) }
    {
        match self.kept.get_mut(place_of(single.text.as_slice())) {
            None => word_of_single(alloc, single),
            Some(place) => word_in(place, alloc, single),
        }
    }

    /// The simple command that is this part alone, shared with the one that is kept of it.
    pub fn command(
        &mut self,
        alloc: Global,
        empties: &Empties,
        single: Single,
    ) -> Result<Rc<SimpleCommand>, NoMemory>
        ensures { IfOk result (λ r. c.simple_command r.value ≡ word_alone (single_word single)) }
    {
        match self.kept.get_mut(place_of(single.text.as_slice())) {
            None => {
                let word = word_of_single(alloc, single)?;
                of_one_word(alloc, empties, word)
            }
            Some(place) => command_in(place, alloc, empties, single),
        }
    }
}
