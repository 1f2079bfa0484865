// What stands behind a dollar sign (XCU 2.6.2), by the text of its token.
ghost use Rattle.std.specs.Prelude.{◌≡◌, ◌-◌, IfOk, slice_index, drop, take, length};
ghost use Rattle.sh_ast.specs.Words as w;
ghost use Rattle.std.specs.Char.{is_ascii_digit};
ghost use Rattle.sh_script.specs.Names as names;
ghost use Rattle.sh_script.specs.Texts as t;

use rk_base::{Bytes, NoMemory};
use sh_ast::{Condition, Parameter, Part, Quoting, Removal, Substitute};
use std::alloc::Global;

/// The byte at a place, 0 past the end.
pub fn byte_at(text: &[u8], at: usize) -> u8
    ensures { result ≡ slice_index text.now at }
{
    match text.get(at) {
        Some(byte) => *byte,
        None => 0,
    }
}

fn from(text: &[u8], at: usize) -> &[u8]
    ensures { result.now ≡ drop at text.now }
{
    if at <= text.len() {
        text.split_at(at).1
    } else {
        b""
    }
}

fn up_to(text: &[u8], at: usize) -> &[u8]
    ensures { result.now ≡ take at text.now }
{
    if at <= text.len() {
        text.split_at(at).0
    } else {
        text
    }
}

fn begins_name(byte: u8) -> bool
    ensures { result ≡ names.begins_name byte }
{
    byte.is_ascii_alphabetic() || byte == b'_'
}

fn in_name(byte: u8) -> bool
    ensures { result ≡ names.in_name byte }
{
    begins_name(byte) || byte.is_ascii_digit()
}

// The parameter that some bytes are.
#[tactic(auto, unfolding(crate::specs::Texts::parameter_of))]
fn parameter_of(alloc: Global, text: &[u8]) -> Result<Parameter, NoMemory>
    ensures { IfOk result (λ p. p ≡ t.parameter_of text.now) }
{
    let first = byte_at(text, 0);
    if begins_name(first) {
        let name = Bytes::from_slice(alloc, text)?;
        return Ok(Parameter::Variable(name));
    }
    if first == b'0' && text.len() == 1 {
        return Ok(Parameter::Zero);
    }
    if first.is_ascii_digit() {
        let digits = Bytes::from_slice(alloc, text)?;
        return Ok(Parameter::Positional(digits));
    }
    if first == b'@' {
        Ok(Parameter::At)
    } else if first == b'*' {
        Ok(Parameter::Asterisk)
    } else if first == b'#' {
        Ok(Parameter::Count)
    } else {
        Ok(Parameter::Status)
    }
}

// How many bytes of a name stand in front.
fn name_run(text: &[u8]) -> usize
    ensures { result ≡ names.count_of names.in_name text.now }
{
    let mut at = 0;
    'run: while at < text.len() {
        if !in_name(text[at]) {
            return at;
        }
        at += 1;
    }
    at
}

// How many digits stand in front.
fn digit_run(text: &[u8]) -> usize
    ensures { result ≡ names.count_of is_ascii_digit text.now }
{
    let mut at = 0;
    'run: while at < text.len() {
        if !text[at].is_ascii_digit() {
            return at;
        }
        at += 1;
    }
    at
}

// How many bytes of a parameter stand in front.
#[tactic(auto, unfolding(crate::specs::Names::parameter_length))]
fn parameter_length(text: &[u8]) -> usize
    ensures { result ≡ names.parameter_length text.now }
{
    let first = byte_at(text, 0);
    if begins_name(first) {
        name_run(text)
    } else if first.is_ascii_digit() {
        digit_run(text)
    } else {
        1
    }
}

/// `$x`
pub fn plain_parameter(alloc: Global, text: &[u8]) -> Result<Part, NoMemory>
    ensures { IfOk result (λ p. w.part p ≡ t.plain_parameter text.now) }
{
    let parameter = parameter_of(alloc, from(text, 1))?;
    Ok(Part::Value(Quoting::Unquoted, parameter))
}

/// `${x}` or `${#x}`
pub fn braced_parameter(alloc: Global, text: &[u8]) -> Result<Part, NoMemory>
    ensures { IfOk result (λ p. w.part p ≡ t.braced_parameter text.now) }
{
    let inside = up_to(from(text, 2), text.len().saturating_sub(3));
    if byte_at(inside, 0) == b'#' && inside.len() > 1 {
        let parameter = parameter_of(alloc, from(inside, 1))?;
        return Ok(Part::Length(Quoting::Unquoted, parameter));
    }
    let parameter = parameter_of(alloc, inside)?;
    Ok(Part::Value(Quoting::Unquoted, parameter))
}

fn substitute_of(byte: u8) -> Substitute
    ensures { result ≡ t.substitute_by byte }
{
    if byte == b'-' {
        Substitute::Default
    } else if byte == b'=' {
        Substitute::Assign
    } else if byte == b'?' {
        Substitute::Fault
    } else {
        Substitute::Alternative
    }
}

/// The parameter, the condition and the operator of `${x:-` and its like.
pub fn operation(alloc: Global, text: &[u8]) -> Result<(Parameter, Condition, Substitute), NoMemory>
    ensures { IfOk result (λ x. (x.0 ≡ t.operand text.now) × (x.1 ≡ t.condition_of (t.operator text.now)) × (x.2 ≡ t.substitute_of (t.operator text.now))) }
{
    let inside = from(text, 2);
    let n = parameter_length(inside);
    let parameter = parameter_of(alloc, up_to(inside, n))?;
    let operator = from(inside, n);
    let first = byte_at(operator, 0);
    if first == b':' {
        let substitute = substitute_of(byte_at(operator, 1));
        Ok((parameter, Condition::UnsetOrNull, substitute))
    } else {
        Ok((parameter, Condition::Unset, substitute_of(first)))
    }
}

/// The parameter and the operator of `${x%` and its like.
pub fn removal(alloc: Global, text: &[u8]) -> Result<(Parameter, Removal), NoMemory>
    ensures { IfOk result (λ x. (x.0 ≡ t.operand text.now) × (x.1 ≡ t.removal_of (t.operator text.now))) }
{
    let inside = from(text, 2);
    let n = parameter_length(inside);
    let parameter = parameter_of(alloc, up_to(inside, n))?;
    let operator = from(inside, n);
    let largest = operator.len() > 1;
    let removal = if byte_at(operator, 0) == b'%' {
        if largest {
            Removal::LargestSuffix
        } else {
            Removal::SmallestSuffix
        }
    } else if largest {
        Removal::LargestPrefix
    } else {
        Removal::SmallestPrefix
    };
    Ok((parameter, removal))
}

/// A text without its first byte.
pub fn without_first(alloc: Global, text: &[u8]) -> Result<Bytes, NoMemory>
    ensures { IfOk result (λ b. b ≡ drop 1 text.now) }
{
    Bytes::from_slice(alloc, from(text, 1))
}

/// A text without its last byte.
pub fn without_last(alloc: Global, text: &[u8]) -> Result<Bytes, NoMemory>
    ensures { IfOk result (λ b. b ≡ take (length text.now - 1) text.now) }
{
    Bytes::from_slice(alloc, up_to(text, text.len().saturating_sub(1)))
}

/// A text without its first and its last byte.
pub fn without_ends(alloc: Global, text: &[u8]) -> Result<Bytes, NoMemory>
    ensures { IfOk result (λ b. b ≡ drop 1 (take (length text.now - 1) text.now)) }
{
    Bytes::from_slice(alloc, from(up_to(text, text.len().saturating_sub(1)), 1))
}

/// The descriptor that a redirection's operator is for, and the operator without it.
pub fn descriptor_of(text: &[u8]) -> (u8, &[u8])
    ensures descriptor { result.0 ≡ t.descriptor_of text.now }
    ensures operator { result.1.now ≡ t.numberless text.now }
{
    let first = byte_at(text, 0);
    if first.is_ascii_digit() {
        (first - b'0', from(text, 1))
    } else if first == b'<' {
        (0, text)
    } else {
        (1, text)
    }
}
