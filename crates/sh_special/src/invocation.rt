// What the words of `sh` say (XCU `sh`).
ghost use Rattle.std.specs.Prelude.{◌≡◌, ◌∷◌, [], true, false, codes, IfOk};
ghost use Rattle.rk_calls.specs.Lines.{error_line};
ghost use Rattle.sh_special.specs.Lines.{usage_line};
ghost use Rattle.rk_calls.specs.Keys.{shell};
ghost use Rattle.sh_special.specs.Invocation.{Misused, with_operands, other_letter, letters_of, lead_of, options, start_of};

use rk_base::{Bytes, NoMemory, WordList};
use rk_calls::error_line;
use std::alloc::Global;

/// What the words of `sh` say.
#[derive(Drop)]
pub enum Start {
    /// The line of a fault of usage.
    Misused(Bytes),
    /// `$0`, a text, and the positional parameters.
    Given(Bytes, Bytes, WordList),
    /// A script, and the positional parameters.
    Script(Bytes, WordList),
}

/// Copies of words.
pub fn copies(alloc: Global, words: &[Bytes]) -> Result<WordList, NoMemory>
    ensures { IfOk result (λ list. list ≡ words.now) }
{
    let mut list = Vec::new(alloc);
    'words: for word in words {
        let word = word.copy()?;
        list.push(word)?;
    }
    Ok(WordList::new(list))
}

/// The fault of usage that names no word.
pub fn misused(alloc: Global) -> Result<Start, NoMemory>
    ensures { IfOk result (λ s. start_of s ≡ Misused (usage_line shell)) }
{
    let line = Bytes::from_slice(alloc, b"sh: usage\n")?;
    Ok(Start::Misused(line))
}

fn given(alloc: Global, words: &[Bytes]) -> Result<Start, NoMemory>
    ensures { IfOk result (λ s. start_of s ≡ with_operands true words.now) }
{
    match words {
        [] => misused(alloc),
        [text] => {
            let zero = Bytes::from_slice(alloc, b"sh")?;
            let text = text.copy()?;
            Ok(Start::Given(zero, text, WordList::new(Vec::new(alloc))))
        }
        [text, zero, words @ ..] => {
            let zero = zero.copy()?;
            let text = text.copy()?;
            let words = copies(alloc, words)?;
            Ok(Start::Given(zero, text, words))
        }
    }
}

fn script(alloc: Global, words: &[Bytes]) -> Result<Start, NoMemory>
    ensures { IfOk result (λ s. start_of s ≡ with_operands false words.now) }
{
    match words {
        [] => misused(alloc),
        [file, words @ ..] => {
            let file = file.copy()?;
            let words = copies(alloc, words)?;
            Ok(Start::Script(file, words))
        }
    }
}

fn with_operands(alloc: Global, text: bool, words: &[Bytes]) -> Result<Start, NoMemory>
    ensures { IfOk result (λ s. start_of s ≡ with_operands text words.now) }
{
    if text {
        given(alloc, words)
    } else {
        script(alloc, words)
    }
}

// The first letter that is no `c`.
fn other_letter(letters: &[u8]) -> Option<u8>
    ensures { result ≡ other_letter letters.now }
{
    'letters: for b in letters {
        if *b != b'c' {
            return Some(*b);
        }
    }
    None
}

/// What a word before the operands is.
#[derive(Drop)]
pub enum Leads {
    /// The first of them.
    Operand,
    /// `--`.
    End,
    /// Letters of options, with the first that is no `c`.
    Letters(Option<u8>),
}

fn letters_of(letters: &[u8]) -> Leads
    ensures { result ≡ letters_of letters.now }
{
    if letters == b"-".as_slice() {
        Leads::End
    } else {
        Leads::Letters(other_letter(letters))
    }
}

fn lead_of(word: &[u8]) -> Leads
    ensures { result ≡ lead_of word.now }
{
    match word {
        [] => Leads::Operand,
        [_] => Leads::Operand,
        [b'-', letters @ ..] => letters_of(letters),
        [_, _, ..] => Leads::Operand,
    }
}

fn bad_letter(alloc: Global, b: u8) -> Result<Start, NoMemory>
    ensures { IfOk result (λ s. start_of s ≡ Misused (error_line shell (45 ∷ b ∷ []) (codes "usage"))) }
{
    let letter = [b'-', b];
    let line = error_line(alloc, b"sh", &letter, b"usage")?;
    Ok(Start::Misused(line))
}

/// The words of `sh` behind its name, and whether `-c` stood so far.
pub fn read_options(alloc: Global, text: bool, words: &[Bytes]) -> Result<Start, NoMemory>
    ensures { IfOk result (λ s. start_of s ≡ options text words.now) }
{
    let mut text = text;
    'words: for at in 0..words.len() {
        match lead_of(words[at].as_slice()) {
            Leads::Operand => return with_operands(alloc, text, words.split_at(at).1),
            Leads::End => return with_operands(alloc, text, words.split_at(at + 1).1),
            Leads::Letters(None) => text = true,
            Leads::Letters(Some(b)) => return bad_letter(alloc, b),
        }
    }
    with_operands(alloc, text, words.split_at(words.len()).1)
}
