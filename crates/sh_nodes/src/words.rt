// Words.
ghost use Rattle.std.specs.Prelude.{◌≡◌, ◌∷◌, IfOk, map};
ghost use Rattle.sh_ast.specs.Words as w;
ghost use Rattle.sh_ast.specs.Commands as c;
ghost use Rattle.sh_nodes.specs.Nodes.{bodies_seen, part_of, word_told};

use crate::lists::parts_of;
use crate::row::Row;
use crate::singles::{Single, SingleKind};
use rk_base::{Bytes, NoMemory};
use sh_ast::{CommandList, Parameter, Part, Quoting, Word};
use std::alloc::Global;
use std::rc::Rc;

/// A word; of one that is nothing, or one part with a text, none is made yet.
#[derive(Drop)]
pub enum NewWord {
    Nothing,
    Single(Single),
    Made(Rc<Word>),
}

/// A word, out of its parts and the bodies of its substitutions.
pub fn word_of(
    alloc: Global,
    parts: Row<Part>,
    bodies: Vec<Rc<CommandList>>,
) -> Result<Rc<Word>, NoMemory>
    ensures { IfOk result (λ r. c.word r.value ≡ c.word_of (w.parts_of (map w.part parts)) (c.bodies_of (bodies_seen bodies.items))) }
{
    let parts = parts_of(alloc, parts)?;
    let word = Rc::new(alloc, Word { parts, bodies })?;
    Ok(word)
}

/// The word that is one part.
pub fn word_of_part(alloc: Global, part: Part) -> Result<Rc<Word>, NoMemory>
    ensures { IfOk result (λ r. c.word r.value ≡ c.word_of (w.part_and (w.part part) w.no_parts) c.no_bodies) }
{
    let mut parts = Row::new(alloc);
    parts.add(part)?;
    let word = word_of(alloc, parts, Vec::new(alloc))?;
    Ok(word)
}

// The word of a special parameter's value, whose sign this is.
fn of_special(
    alloc: Global,
    kind: SingleKind,
    quoting: Quoting,
    sign: &[u8],
) -> Result<NewWord, NoMemory>
    ensures { IfOk result (λ x. word_told x ≡ c.word_of (w.part_and (part_of kind quoting sign.now) w.no_parts) c.no_bodies) }
{
    let text = Bytes::from_slice(alloc, sign)?;
    Ok(NewWord::Single(Single {
        kind,
        quoting,
        text,
    }))
}

// The word that is a parameter's value.
fn of_value(alloc: Global, quoting: Quoting, parameter: Parameter) -> Result<NewWord, NoMemory>
    ensures { IfOk result (λ x. word_told x ≡ c.word_of (w.part_and (w.value_of quoting parameter) w.no_parts) c.no_bodies) }
{
    match parameter {
        Parameter::Variable(text) => Ok(NewWord::Single(Single {
            kind: SingleKind::Variable,
            quoting,
            text,
        })),
        Parameter::Positional(text) => Ok(NewWord::Single(Single {
            kind: SingleKind::Positional,
            quoting,
            text,
        })),
        Parameter::At => of_special(alloc, SingleKind::At, quoting, b"@"),
        Parameter::Asterisk => of_special(alloc, SingleKind::Asterisk, quoting, b"*"),
        Parameter::Count => of_special(alloc, SingleKind::Count, quoting, b"#"),
        Parameter::Status => of_special(alloc, SingleKind::Status, quoting, b"?"),
        Parameter::Zero => of_special(alloc, SingleKind::Zero, quoting, b"0"),
    }
}

// The word of one part.
fn of_one_part(alloc: Global, part: Part) -> Result<NewWord, NoMemory>
    ensures { IfOk result (λ x. word_told x ≡ c.word_of (w.part_and (w.part part) w.no_parts) c.no_bodies) }
{
    match part {
        Part::Literal(quoting, text) => Ok(NewWord::Single(Single {
            kind: SingleKind::Literal,
            quoting,
            text,
        })),
        Part::Value(quoting, parameter) => of_value(alloc, quoting, parameter),
        other => {
            let word = word_of_part(alloc, other)?;
            Ok(NewWord::Made(word))
        }
    }
}

// A word, out of its first part and what stands behind it.
fn begun_by(
    alloc: Global,
    first: Part,
    mut rest: Row<Part>,
    bodies: Vec<Rc<CommandList>>,
) -> Result<NewWord, NoMemory>
    ensures { IfOk result (λ x. word_told x ≡ c.word_of (w.parts_of (w.part first ∷ map w.part rest)) (c.bodies_of (bodies_seen bodies.items))) }
{
    if rest.is_empty() && bodies.is_empty() {
        let word = of_one_part(alloc, first)?;
        return Ok(word);
    }
    rest.add(first)?;
    let word = word_of(alloc, rest, bodies)?;
    Ok(NewWord::Made(word))
}

// The word of no parts.
fn of_no_parts(alloc: Global, bodies: Vec<Rc<CommandList>>) -> Result<NewWord, NoMemory>
    ensures { IfOk result (λ x. word_told x ≡ c.word_of w.no_parts (c.bodies_of (bodies_seen bodies.items))) }
{
    if bodies.is_empty() {
        return Ok(NewWord::Nothing);
    }
    let word = word_of(alloc, Row::new(alloc), bodies)?;
    Ok(NewWord::Made(word))
}

/// A word, out of its parts and the bodies of its substitutions; one that is nothing, or one part with a text, isn't made yet.
pub fn new_word(
    alloc: Global,
    mut parts: Row<Part>,
    bodies: Vec<Rc<CommandList>>,
) -> Result<NewWord, NoMemory>
    ensures { IfOk result (λ x. word_told x ≡ c.word_of (w.parts_of (map w.part parts)) (c.bodies_of (bodies_seen bodies.items))) }
{
    match parts.take_first() {
        Some(first) => {
            let word = begun_by(alloc, first, parts, bodies)?;
            Ok(word)
        }
        None => of_no_parts(alloc, bodies),
    }
}
