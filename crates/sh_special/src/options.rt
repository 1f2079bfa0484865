// The words of `set`.
ghost use Rattle.std.specs.Prelude.{◌≡◌, IfOk, Some};
ghost use Rattle.sh_special.specs.declared.order.Order.TheVariants as order;
ghost use Rattle.sh_special.specs.Settings.{none_named, with_letter, with_letters, kind_of, behind_sign, sign, bad_letter, settings, sets};

use crate::order::Order;
use crate::texts::no_use;
use rk_base::{Bytes, NoMemory};
use rk_calls::error_line;
use sh_operands::copies;
use std::alloc::Global;

/// The options that `set` names, and whether it turns them on.
#[derive(Clone, Copy, Debug)]
pub struct Options {
    /// `-e`
    pub errexit: Option<bool>,
    /// `-u`
    pub nounset: Option<bool>,
    /// `-f`
    pub noglob: Option<bool>,
}

/// A word of `set`.
#[derive(Clone, Copy, Debug)]
pub enum SetWord {
    /// Letters that turn options on, or off.
    Letters(bool),
    /// `--`
    Last,
    Operand,
}

fn none_named() -> Options
    ensures { result ≡ none_named }
{
    Options {
        errexit: None,
        nounset: None,
        noglob: None,
    }
}

fn with_letter(on: bool, b: u8, options: Options) -> Option<Options>
    ensures { result ≡ with_letter on b options }
{
    if b == b'e' {
        return Some(Options {
            errexit: Some(on),
            nounset: options.nounset,
            noglob: options.noglob,
        });
    }
    if b == b'u' {
        return Some(Options {
            errexit: options.errexit,
            nounset: Some(on),
            noglob: options.noglob,
        });
    }
    if b == b'f' {
        return Some(Options {
            errexit: options.errexit,
            nounset: options.nounset,
            noglob: Some(on),
        });
    }
    None
}

fn with_letters(on: bool, letters: &[u8], options: Options) -> Result<Options, u8>
    ensures { result ≡ with_letters on letters.now options }
{
    let mut options = options;
    'letters: for b in letters {
        match with_letter(on, *b, options) {
            None => {
                return Err(*b);
            }
            Some(more) => {
                options = more;
            }
        }
    }
    Ok(options)
}

fn kind_of(word: &[u8]) -> SetWord
    ensures { result ≡ kind_of word.now }
{
    match word {
        [] => SetWord::Operand,
        [_] => SetWord::Operand,
        [b, _, ..] => {
            if word == b"--".as_slice() {
                return SetWord::Last;
            }
            if *b == b'-' {
                return SetWord::Letters(true);
            }
            if *b == b'+' {
                return SetWord::Letters(false);
            }
            SetWord::Operand
        }
    }
}

fn behind_sign(word: &[u8]) -> &[u8]
    ensures { result.now ≡ behind_sign word.now }
{
    match word {
        [] => word,
        [_, letters @ ..] => letters,
    }
}

fn sign(on: bool) -> u8
    ensures { result ≡ sign on }
{
    if on { b'-' } else { b'+' }
}

fn bad_letter(alloc: Global, on: bool, b: u8) -> Result<Order, NoMemory>
    ensures { IfOk result (λ o. o ≡ bad_letter on b) }
{
    let line = error_line(alloc, b"set", &[sign(on), b], b"usage")?;
    Ok(Order::Usage(line))
}

fn with_operands(alloc: Global, options: Options, words: &[Bytes]) -> Result<Order, NoMemory>
    ensures { IfOk result (λ o. o ≡ order.Set options (Some words.now)) }
{
    let words = copies(alloc, words)?;
    Ok(Order::Set(options, Some(words)))
}

fn settings(alloc: Global, words: &[Bytes], options: Options) -> Result<Order, NoMemory>
    ensures { IfOk result (λ o. o ≡ settings words.now options) }
{
    let mut options = options;
    'words: for (at, word) in words.iter().enumerate() {
        match kind_of(word.as_slice()) {
            SetWord::Letters(on) => {
                match with_letters(on, behind_sign(word.as_slice()), options) {
                    Ok(more) => {
                        options = more;
                    }
                    Err(b) => {
                        return bad_letter(alloc, on, b);
                    }
                }
            }
            SetWord::Last => {
                return with_operands(alloc, options, words.split_at(at + 1).1);
            }
            SetWord::Operand => {
                return with_operands(alloc, options, words.split_at(at).1);
            }
        }
    }
    Ok(Order::Set(options, None))
}

/// What the words of `set` order.
pub(crate) fn sets(alloc: Global, words: &[Bytes]) -> Result<Order, NoMemory>
    ensures { IfOk result (λ o. o ≡ sets words.now) }
{
    match words {
        [] => no_use(alloc, b"set"),
        [_, ..] => settings(alloc, words, none_named()),
    }
}
