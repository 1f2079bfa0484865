// Parts of words (XCU 2.2, 2.6).
ghost use Rattle.std.specs.Prelude.{◌≡◌, ◌∷◌, [], OnOk, IfOk, map};
ghost use Rattle.sh_ast.specs.Words as w;
ghost use Rattle.sh_script.specs.Values as v;
ghost use Rattle.sh_tree.specs.Seen.{operator_word_seen, state};
ghost use Rattle.sh_script.specs.States as st;
ghost use Rattle.sh_script.specs.Acts as act;

use crate::builder::Builder;
use crate::rows::{all_in_front, in_front, one};
use crate::taking::{list_in, parts_in, text_in};
use crate::value::Value;
use rk_base::{Bytes, NoMemory};
use sh_ast::{Part, Parts, Quoting};
use sh_nodes::{Row, parts_of};
use sh_script::{
    braced_parameter, operation, plain_parameter, removal, without_ends, without_first,
};
use std::alloc::Global;
use std::rc::Rc;

// One part by itself.
#[tactic(auto, unfolding(crate::specs::Seen::seen))]
fn put_part(b: &mut Builder, alloc: Global, part: Part) -> Result<(), NoMemory>
    ensures { OnOk result (state b.new ≡ st.with (v.parts (w.part part ∷ [])) (state b.old)) }
{
    let parts = one(alloc, part)?;
    b.put(Value::Parts(parts))
}

// One part of a parameter by itself.
fn put_parameter(b: &mut Builder, alloc: Global, part: Part) -> Result<(), NoMemory>
    ensures { OnOk result (state b.new ≡ st.with (v.parts (w.part part ∷ [])) (state b.old)) }
{
    let part = b.part(alloc, part)?;
    put_part(b, alloc, part)
}

// A part in front of the next value's.
#[tactic(auto, unfolding(crate::specs::Seen::seen))]
fn put_front(b: &mut Builder, alloc: Global, part: Part) -> Result<(), NoMemory>
    ensures { OnOk result (state b.new ≡ st.for_one (v.parts (w.part part ∷ v.parts_in (st.top (state b.old)))) (state b.old)) }
{
    let parts = in_front(part, parts_in(alloc, b.pop()))?;
    b.put(Value::Parts(parts))
}

/// A token alone ends the parts.
#[tactic(auto, unfolding(crate::specs::Seen::seen))]
pub fn no_parts(b: &mut Builder, alloc: Global) -> Result<(), NoMemory>
    ensures { OnOk result (state b.new ≡ act.no_parts (state b.old)) }
{
    b.skip();
    b.put(Value::Parts(Row::new(alloc)))
}

/// Text that stands for itself, in front of parts.
pub fn text_part(b: &mut Builder, alloc: Global, quoting: Quoting) -> Result<(), NoMemory>
    ensures { OnOk result (state b.new ≡ act.text_part quoting (state b.old)) }
{
    let text = text_in(alloc, b.pop())?;
    put_front(b, alloc, Part::Literal(quoting, text))
}

/// A byte behind a backslash, in front of parts.
pub fn escape_part(b: &mut Builder, alloc: Global) -> Result<(), NoMemory>
    ensures { OnOk result (state b.new ≡ act.escape_part (state b.old)) }
{
    let text = text_in(alloc, b.pop())?;
    let quoted = without_first(alloc, text.as_slice())?;
    let quoted = b.text(alloc, quoted)?;
    put_front(b, alloc, Part::Literal(Quoting::Quoted, quoted))
}

/// Parts in front of parts.
#[tactic(auto, unfolding(crate::specs::Seen::seen))]
pub fn join_parts(b: &mut Builder, alloc: Global) -> Result<(), NoMemory>
    ensures { OnOk result (state b.new ≡ act.join_parts (state b.old)) }
{
    let front = parts_in(alloc, b.pop());
    let parts = all_in_front(front, parts_in(alloc, b.pop()))?;
    b.put(Value::Parts(parts))
}

fn quoted(part: Part) -> Part
    ensures { w.part result ≡ act.quoted (w.part part) }
{
    match part {
        Part::Literal(_, text) => Part::Literal(Quoting::Quoted, text),
        Part::Value(_, parameter) => Part::Value(Quoting::Quoted, parameter),
        Part::Length(_, parameter) => Part::Length(Quoting::Quoted, parameter),
        Part::Substitute(_, parameter, condition, substitute, word) => {
            Part::Substitute(Quoting::Quoted, parameter, condition, substitute, word)
        }
        Part::Remove(_, parameter, removal, pattern) => {
            Part::Remove(Quoting::Quoted, parameter, removal, pattern)
        }
        Part::Command(_, body) => Part::Command(Quoting::Quoted, body),
        Part::Arithmetic(_, expression) => Part::Arithmetic(Quoting::Quoted, expression),
    }
}

// The first part of an expansion in front of parts, quoted.
fn quoted_first(mut expansion: Row<Part>, mut parts: Row<Part>) -> Result<Row<Part>, NoMemory>
    ensures { IfOk result (λ ps. map w.part ps ≡ act.quoted_first (map w.part expansion) (map w.part parts)) }
{
    match expansion.take_first() {
        None => Ok(parts),
        Some(part) => {
            parts.add(quoted(part))?;
            Ok(parts)
        }
    }
}

/// An expansion in double quotes, in front of parts.
#[tactic(auto, unfolding(crate::specs::Seen::seen))]
pub fn quoted_expansion(b: &mut Builder, alloc: Global) -> Result<(), NoMemory>
    ensures { OnOk result (state b.new ≡ act.quoted_expansion (state b.old)) }
{
    let expansion = parts_in(alloc, b.pop());
    let parts = parts_in(alloc, b.pop());
    let parts = quoted_first(expansion, parts)?;
    b.put(Value::Parts(parts))
}

/// A backslash and a byte; at the text's end the backslash alone, which is itself.
pub fn escape(b: &mut Builder, alloc: Global) -> Result<(), NoMemory>
    ensures { OnOk result (state b.new ≡ act.escape (state b.old)) }
{
    let text = text_in(alloc, b.pop())?;
    if text.len() == 1 {
        return put_part(b, alloc, Part::Literal(Quoting::Quoted, text));
    }
    let quoted = without_first(alloc, text.as_slice())?;
    let quoted = b.text(alloc, quoted)?;
    put_part(b, alloc, Part::Literal(Quoting::Quoted, quoted))
}

/// Single quotes.
pub fn single(b: &mut Builder, alloc: Global) -> Result<(), NoMemory>
    ensures { OnOk result (state b.new ≡ act.single (state b.old)) }
{
    let text = text_in(alloc, b.pop())?;
    let quoted = without_ends(alloc, text.as_slice())?;
    let quoted = b.text(alloc, quoted)?;
    put_part(b, alloc, Part::Literal(Quoting::Quoted, quoted))
}

// What double quotes hold: an empty pair of them is one quoted literal of no bytes.
fn in_quotes(b: &mut Builder, alloc: Global, parts: Row<Part>) -> Result<Row<Part>, NoMemory>
    ensures parts { IfOk result (λ ps. map w.part ps ≡ act.in_quotes (map w.part parts)) }
    ensures left { state b.new ≡ state b.old }
{
    if !parts.is_empty() {
        return Ok(parts);
    }
    drop(parts);
    let nothing = Bytes::new(alloc, Vec::new(alloc))?;
    let nothing = b.text(alloc, nothing)?;
    one(alloc, Part::Literal(Quoting::Quoted, nothing))
}

/// Double quotes.
#[tactic(auto, unfolding(crate::specs::Seen::seen))]
pub fn double(b: &mut Builder, alloc: Global) -> Result<(), NoMemory>
    ensures { OnOk result (state b.new ≡ act.double (state b.old)) }
{
    b.skip();
    let parts = parts_in(alloc, b.pop());
    let parts = in_quotes(b, alloc, parts)?;
    b.put(Value::Parts(parts))
}

/// Double quotes in front of parts.
pub fn inner_quoted(b: &mut Builder, alloc: Global) -> Result<(), NoMemory>
    ensures { OnOk result (state b.new ≡ act.join_parts (act.double (state b.old))) }
{
    double(b, alloc)?;
    join_parts(b, alloc)
}

// The word of an operator, where one stands.
fn operator_word(alloc: Global, parts: Row<Part>) -> Result<Option<Rc<Parts>>, NoMemory>
    ensures { IfOk result (λ o. operator_word_seen o ≡ act.operator_word (map w.part parts)) }
{
    if parts.is_empty() {
        drop(parts);
        return Ok(None);
    }
    let parts = parts_of(alloc, parts)?;
    Ok(Some(parts))
}

// What may stand in for a parameter.
fn substitution(b: &mut Builder, alloc: Global, quoting: Quoting) -> Result<Part, NoMemory>
    ensures part { IfOk result (λ p. w.part p ≡ act.substitution quoting (v.text_in (st.top (state b.old))) (v.parts_in (st.second (state b.old)))) }
    ensures left { OnOk result (state b.new ≡ st.less (st.less (state b.old))) }
{
    let text = text_in(alloc, b.pop())?;
    let parts = parts_in(alloc, b.pop());
    let word = operator_word(alloc, parts)?;
    let (parameter, condition, substitute) = operation(alloc, text.as_slice())?;
    b.part(
        alloc,
        Part::Substitute(quoting, parameter, condition, substitute, word),
    )
}

/// `${x:-word}`
pub fn braces(b: &mut Builder, alloc: Global) -> Result<(), NoMemory>
    ensures { OnOk result (state b.new ≡ act.braces (state b.old)) }
{
    let part = substitution(b, alloc, Quoting::Unquoted)?;
    put_part(b, alloc, part)
}

/// `${x:-word}` in double quotes, in front of parts.
pub fn quoted_braces(b: &mut Builder, alloc: Global) -> Result<(), NoMemory>
    ensures { OnOk result (state b.new ≡ act.quoted_braces (state b.old)) }
{
    let part = substitution(b, alloc, Quoting::Quoted)?;
    put_front(b, alloc, part)
}

/// `$x`
pub fn parameter(b: &mut Builder, alloc: Global) -> Result<(), NoMemory>
    ensures { OnOk result (state b.new ≡ act.parameter (state b.old)) }
{
    let text = text_in(alloc, b.pop())?;
    let part = plain_parameter(alloc, text.as_slice())?;
    put_parameter(b, alloc, part)
}

/// `${x}`
pub fn braced(b: &mut Builder, alloc: Global) -> Result<(), NoMemory>
    ensures { OnOk result (state b.new ≡ act.braced (state b.old)) }
{
    let text = text_in(alloc, b.pop())?;
    let part = braced_parameter(alloc, text.as_slice())?;
    put_parameter(b, alloc, part)
}

/// A dollar sign that begins nothing.
pub fn dollar(b: &mut Builder, alloc: Global) -> Result<(), NoMemory>
    ensures { OnOk result (state b.new ≡ act.dollar (state b.old)) }
{
    let text = text_in(alloc, b.pop())?;
    put_part(b, alloc, Part::Literal(Quoting::Unquoted, text))
}

/// `$(list)`
pub fn command_substitution(b: &mut Builder, alloc: Global) -> Result<(), NoMemory>
    ensures { OnOk result (state b.new ≡ act.command_substitution (state b.old)) }
{
    b.skip();
    let body = list_in(alloc, b.pop())?;
    b.skip();
    let number = b.add_body(body)?;
    put_part(b, alloc, Part::Command(Quoting::Unquoted, number))
}

/// `${x%word}`
pub fn pattern_braces(b: &mut Builder, alloc: Global) -> Result<(), NoMemory>
    ensures { OnOk result (state b.new ≡ act.pattern_braces (state b.old)) }
{
    let text = text_in(alloc, b.pop())?;
    let parts = parts_in(alloc, b.pop());
    let (parameter, removal) = removal(alloc, text.as_slice())?;
    let pattern = parts_of(alloc, parts)?;
    let part = Part::Remove(Quoting::Unquoted, parameter, removal, pattern);
    put_parameter(b, alloc, part)
}

/// `$((expression))`
pub fn arithmetic(b: &mut Builder, alloc: Global) -> Result<(), NoMemory>
    ensures { OnOk result (state b.new ≡ act.arithmetic (state b.old)) }
{
    b.skip();
    let parts = parts_in(alloc, b.pop());
    let expression = parts_of(alloc, parts)?;
    put_part(b, alloc, Part::Arithmetic(Quoting::Unquoted, expression))
}
