// The words of a utility.
ghost use Rattle.std.specs.Prelude.{◌≡◌, ◌+◌, ◌∷◌, ◌++◌, [], length, MatchOption, IfSome, IfOk, Ok, Err, None, List, option_copied};
ghost use Rattle.rk_base.specs.Text.{Text};
ghost use Rattle.ut_args.specs.Words.{OptionsAre, options, options_in, options_by, letters_of, letters_read, judged_on, JudgesTo, dashed};

use crate::args::{Args, UsageOr};
use crate::form::{Opt, is_form};
use crate::letters::{Letters, read_letters};
use crate::opts::OptList;
use rk_base::{Bytes, NoMemory, WordList};
use std::alloc::Global;

// What stands after the `-` of a word of options; a single `-` is none.
fn letters_of(word: &[u8]) -> Option<&[u8]>
    ensures { option_copied result ≡ letters_of word.now }
{
    match word {
        [] => None,
        [_] => None,
        [first, _, ..] => {
            if *first == b'-' {
                Some(word.split_at(1).1)
            } else {
                None
            }
        }
    }
}

/// What a word is.
#[derive(Clone, Copy, Debug, Drop)]
enum Judged {
    Goes(Option<Opt>),
    /// It ends the options.
    Ends,
    Operand,
    Bad(u8),
}

fn judge_letters(
    alloc: Global,
    table: &[Opt],
    letters: &[u8],
    given: &mut OptList,
) -> Result<Judged, NoMemory>
    ensures { IfOk result (λ j. (word : Text) (words : List Text) → options_by table.now words (letters_read table.now given.old letters.now) ≡ judged_on table.now j given.new word words) }
{
    match read_letters(alloc, table, letters, given)? {
        Letters::Done => Ok(Judged::Goes(None)),
        Letters::Wants(option) => Ok(Judged::Goes(Some(option))),
        Letters::Bad(letter) => Ok(Judged::Bad(letter)),
    }
}

fn judge_alone(
    alloc: Global,
    table: &[Opt],
    word: &Bytes,
    given: &mut OptList,
) -> Result<Judged, NoMemory>
    ensures { IfOk result (λ j. JudgesTo table.now None given.old word.now j given.new) }
{
    if word.as_slice() == b"--".as_slice() {
        return Ok(Judged::Ends);
    }
    match letters_of(word.as_slice()) {
        None => Ok(Judged::Operand),
        Some(letters) => judge_letters(alloc, table, letters, given),
    }
}

// A word where an option wants it, or where none does.
fn judge(
    alloc: Global,
    table: &[Opt],
    wants: Option<Opt>,
    word: &Bytes,
    given: &mut OptList,
) -> Result<Judged, NoMemory>
    ensures { IfOk result (λ j. JudgesTo table.now wants given.old word.now j given.new) }
{
    match wants {
        Some(option) => {
            if !is_form(option.form, word.as_slice()) {
                return Ok(Judged::Bad(option.letter));
            }
            given.add_argument(option.letter, word.copy()?)?;
            Ok(Judged::Goes(None))
        }
        None => judge_alone(alloc, table, word, given),
    }
}

/// The first of these words, and those after it.
pub fn first_word(words: &[Bytes]) -> Option<(&Bytes, &[Bytes])>
    ensures cut { MatchOption result (words.now ≡ []) (λ r. words.now ≡ r.0.now ∷ r.1.now) }
    ensures length { IfSome result (λ r. length words.now ≡ length r.1.now + 1) }
{
    match words {
        [] => None,
        [word, rest @ ..] => Some((word, rest)),
    }
}

/// Copies of words.
pub fn copies(alloc: Global, words: &[Bytes]) -> Result<WordList, NoMemory>
    ensures { IfOk result (λ v. v ≡ words.now) }
{
    let mut copies = Vec::new(alloc);
    for word in words {
        copies.push(word.copy()?)?;
    }
    Ok(WordList::new(copies))
}

// The operands, once all options were read.
fn with_operands(alloc: Global, given: OptList, operands: &[Bytes]) -> Result<Args, UsageOr>
    ensures { OptionsAre (Ok (record { given = given; operands = operands.now })) result }
{
    let operands = copies(alloc, operands)?;
    Ok(Args { given, operands })
}

// The option of a letter is at fault.
fn usage(alloc: Global, letter: u8) -> Result<Bytes, NoMemory>
    ensures { IfOk result (λ word. word ≡ dashed letter) }
{
    Bytes::from_slice(alloc, &[b'-', letter])
}

fn faulty(alloc: Global, letter: u8) -> Result<Args, UsageOr>
    ensures { OptionsAre (Err (dashed letter)) result }
{
    let word = usage(alloc, letter)?;
    Err(UsageOr::Usage(word))
}

fn read_words(alloc: Global, table: &[Opt], words: &[Bytes]) -> Result<Args, UsageOr>
    ensures { OptionsAre (options_in table.now words.now) result }
{
    let mut given = OptList::new(alloc);
    let mut wants = None;
    let mut rest = words;
    'words: while let Some((word, after)) = first_word(rest) {
        match judge(alloc, table, wants, word, &mut given)? {
            Judged::Goes(option) => wants = option,
            Judged::Ends => return with_operands(alloc, given, after),
            Judged::Operand => return with_operands(alloc, given, rest),
            Judged::Bad(letter) => return faulty(alloc, letter),
        }
        rest = after;
    }
    match wants {
        Some(option) => faulty(alloc, option.letter),
        None => with_operands(alloc, given, rest),
    }
}

/// The options of a utility by its table, and its operands, from its words, of which the first is its name
/// (XBD 12.2): letters may be joined, an argument stands in the same word or is the next one, and `--` ends the
/// options. `Usage` is the first option that the table doesn't have, or whose argument is missing or not of its form.
pub fn options(alloc: Global, table: &[Opt], argv: &WordList) -> Result<Args, UsageOr>
    ensures { OptionsAre (options table.now argv.now) result }
{
    match argv.as_slice() {
        [] => read_words(alloc, table, &[]),
        [_, words @ ..] => read_words(alloc, table, words),
    }
}
