// Words of options.
ghost use Rattle.std.specs.Prelude.{◌≡◌, MatchOption, ◌∷◌, [], IfOk};
ghost use Rattle.ut_args.specs.Words.{letters, argued, LettersAre};

use crate::form::{Form, Opt, find_option, is_form};
use crate::opts::OptList;
use rk_base::{Bytes, NoMemory};
use std::alloc::Global;

/// How a word of options ends.
#[derive(Clone, Copy, Debug, Drop)]
pub(crate) enum Letters {
    Done,
    /// The last one wants the next word.
    Wants(Opt),
    /// This letter is at fault.
    Bad(u8),
}

// The rest of a word after an option with an argument.
fn argued(alloc: Global, option: Opt, rest: &[u8], given: &mut OptList) -> Result<Letters, NoMemory>
    ensures { IfOk result (LettersAre (argued option given.old rest.now) given.new) }
{
    if rest.is_empty() {
        return Ok(Letters::Wants(option));
    }
    if !is_form(option.form, rest) {
        return Ok(Letters::Bad(option.letter));
    }
    given.add_argument(option.letter, Bytes::from_slice(alloc, rest)?)?;
    Ok(Letters::Done)
}

fn front(text: &[u8]) -> Option<(u8, &[u8])>
    ensures cut { MatchOption result (text.now ≡ []) (λ r. text.now ≡ r.0 ∷ r.1.now) }
{
    match text {
        [] => None,
        [b, rest @ ..] => Some((*b, rest)),
    }
}

/// The options of a word, put after those so far.
pub(crate) fn read_letters(
    alloc: Global,
    table: &[Opt],
    word: &[u8],
    given: &mut OptList,
) -> Result<Letters, NoMemory>
    ensures { IfOk result (LettersAre (letters table.now given.old word.now) given.new) }
{
    let mut rest = word;
    'letters: while let Some((letter, after)) = front(rest) {
        match find_option(table, letter) {
            None => return Ok(Letters::Bad(letter)),
            Some(option) => match option.form {
                Form::Alone => given.add(letter)?,
                Form::Text => return argued(alloc, option, after, given),
                Form::Number => return argued(alloc, option, after, given),
                Form::Ranges => return argued(alloc, option, after, given),
                Form::Byte => return argued(alloc, option, after, given),
                Form::Mode => return argued(alloc, option, after, given),
                Form::Signed => return argued(alloc, option, after, given),
                Form::Key => return argued(alloc, option, after, given),
            },
        }
        rest = after;
    }
    Ok(Letters::Done)
}
