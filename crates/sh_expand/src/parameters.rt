// Values of parameters.
ghost use Rattle.std.specs.Prelude.{◌≡◌, ◌∷◌, [], length, IfOk, option_copied};
ghost use Rattle.sh_split.specs.Joining.{joined};
ghost use Rattle.sh_expand.specs.Acting.{counts};
ghost use Rattle.sh_expand.specs.Values.{number, positional_at, separator, some_joined, value, alone, values, stay_apart};

use crate::decimal::{digits, number};
use rk_base::{Bytes, NoMemory, WordList};
use sh_ast::{Condition, Parameter};
use sh_split::{first_byte, joined};
use sh_vars::Env;
use std::alloc::Global;

// How many positional parameters there are.
fn how_many(env: &Env) -> usize
    ensures { result ≡ length env.now.vars.positional }
{
    env.vars.positional().len()
}

fn numbered(env: &Env, n: usize) -> Option<&[u8]>
    ensures { option_copied result ≡ positional_at env.now n }
{
    if n == 0 {
        return Some(env.zero.as_slice());
    }
    match env.vars.positional().get(n - 1) {
        None => None,
        Some(word) => Some(word.as_slice()),
    }
}

fn positional<'a>(env: &'a Env, digits: &[u8]) -> Option<&'a [u8]>
    ensures { option_copied result ≡ positional_at env.now (number digits.now) }
{
    let count = how_many(env);
    match number(digits) {
        None => None,
        Some(n) => if n > count { None } else { numbered(env, n) },
    }
}

/// What stands between positional parameters that are joined: the first byte of IFS, a blank where IFS is unset and
/// nothing where it is null (XCU 2.5.2).
pub(crate) fn separator(env: &Env) -> &[u8]
    ensures { result.now ≡ separator env.now }
{
    first_byte(env.vars.get(b"IFS"))
}

fn all_joined(alloc: Global, env: &Env) -> Result<Option<Bytes>, NoMemory>
    ensures { IfOk result (λ text. text ≡ some_joined (separator env.now) env.now.vars.positional) }
{
    let words = env.vars.positional();
    if words.is_empty() {
        return Ok(None);
    }
    let text = joined(alloc, separator(env), words)?;
    Ok(Some(text))
}

fn copied(alloc: Global, text: Option<&[u8]>) -> Result<Option<Bytes>, NoMemory>
    ensures { IfOk result (λ copy. copy ≡ option_copied text.entry) }
{
    match text {
        None => Ok(None),
        Some(text) => {
            let copy = Bytes::from_slice(alloc, text)?;
            Ok(Some(copy))
        }
    }
}

/// The value of a parameter; `None` exactly where it is unset. `@` and `*` are joined, and unset where there are no
/// positional parameters.
pub(crate) fn value(
    alloc: Global,
    env: &Env,
    parameter: &Parameter,
) -> Result<Option<Bytes>, NoMemory>
    ensures { IfOk result (λ text. text ≡ value env.now parameter.now) }
{
    match parameter {
        Parameter::Variable(name) => copied(alloc, env.vars.get(name.as_slice())),
        Parameter::Positional(digits) => copied(alloc, positional(env, digits.as_slice())),
        Parameter::At => all_joined(alloc, env),
        Parameter::Asterisk => all_joined(alloc, env),
        Parameter::Count => {
            let text = digits(alloc, how_many(env) as u64)?;
            Ok(Some(text))
        }
        Parameter::Status => {
            let text = digits(alloc, env.status as u64)?;
            Ok(Some(text))
        }
        Parameter::Zero => {
            let text = env.zero.copy()?;
            Ok(Some(text))
        }
    }
}

fn one(alloc: Global, text: Bytes) -> Result<WordList, NoMemory>
    ensures { IfOk result (λ words. words ≡ text ∷ []) }
{
    let mut words = WordList::new(Vec::new(alloc));
    words.push(text)?;
    Ok(words)
}

fn alone(alloc: Global, text: Option<Bytes>) -> Result<Option<WordList>, NoMemory>
    ensures { IfOk result (λ words. words ≡ alone text) }
{
    match text {
        None => Ok(None),
        Some(text) => {
            let words = one(alloc, text)?;
            Ok(Some(words))
        }
    }
}

/// The values of a parameter: all positional ones of `@` and `*`, and one of any other; `None` exactly where that is unset.
pub(crate) fn values(
    alloc: Global,
    env: &Env,
    parameter: &Parameter,
) -> Result<Option<WordList>, NoMemory>
    ensures { IfOk result (λ words. words ≡ values env.now parameter.now) }
{
    match parameter {
        Parameter::Variable(name) => {
            let text = copied(alloc, env.vars.get(name.as_slice()))?;
            alone(alloc, text)
        }
        Parameter::Positional(digits) => {
            let text = copied(alloc, positional(env, digits.as_slice()))?;
            alone(alloc, text)
        }
        Parameter::At => {
            let words = env.vars.copy_positional()?;
            Ok(Some(words))
        }
        Parameter::Asterisk => {
            let words = env.vars.copy_positional()?;
            Ok(Some(words))
        }
        Parameter::Count => {
            let text = digits(alloc, how_many(env) as u64)?;
            let words = one(alloc, text)?;
            Ok(Some(words))
        }
        Parameter::Status => {
            let text = digits(alloc, env.status as u64)?;
            let words = one(alloc, text)?;
            Ok(Some(words))
        }
        Parameter::Zero => {
            let text = env.zero.copy()?;
            let words = one(alloc, text)?;
            Ok(Some(words))
        }
    }
}

/// Whether several values of a parameter stay apart, each a field or more: those of `@` where fields are split, and of an
/// unquoted `*` (XCU 2.5.2).
pub(crate) fn is_apart(splits: bool, quoted: bool, parameter: &Parameter) -> bool
    ensures { result ≡ stay_apart splits quoted parameter.now }
{
    match parameter {
        Parameter::Variable(_) => true,
        Parameter::Positional(_) => true,
        Parameter::At => splits,
        Parameter::Asterisk => splits && !quoted,
        Parameter::Count => true,
        Parameter::Status => true,
        Parameter::Zero => true,
    }
}

fn is_some_text(text: Option<&Bytes>) -> bool
    ensures { result ≡ counts Condition.UnsetOrNull (option_copied text.entry) }
{
    match text {
        None => false,
        Some(text) => !text.is_empty(),
    }
}

/// Whether a value counts for an operator: null counts as unset behind a colon (XCU 2.6.2).
pub(crate) fn counts(condition: Condition, text: Option<&Bytes>) -> bool
    ensures { result ≡ counts condition (option_copied text.entry) }
{
    match condition {
        Condition::Unset => text.is_some(),
        Condition::UnsetOrNull => is_some_text(text),
    }
}
