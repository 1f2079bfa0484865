// Commands as lines name them.
ghost use Rattle.std.specs.Prelude.{◌≡◌, ◌++◌, OnOk};
ghost use Rattle.std.specs.List.{flat_map};
ghost use Rattle.std.specs.Fmt.{decimal};
ghost use Rattle.rk_show.specs.Commands.{blank_word, command_name, shown_words};

use crate::showing::add_shown;
use rk_base::{Bytes, NoMemory};
use rk_calls::Key;

/// A number in decimal digits, put after a text.
pub(crate) fn add_number(out: &mut Vec<u8>, n: u64) -> Result<(), NoMemory>
    ensures { OnOk result (out.new.items ≡ out.old.items ++ decimal n) }
{
    let digits = format!(in *out.allocator(); "{n}")?;
    out.extend_from_slice(digits.as_bytes())?;
    Ok(())
}

fn add_blank_word(out: &mut Vec<u8>, word: &[u8]) -> Result<(), NoMemory>
    ensures { OnOk result (out.new.items ≡ out.old.items ++ blank_word word.now) }
{
    out.push(b' ')?;
    add_shown(out, word)
}

fn add_more_words(out: &mut Vec<u8>, words: &[Bytes]) -> Result<(), NoMemory>
    ensures { OnOk result (out.new.items ≡ out.old.items ++ flat_map blank_word words.now) }
{
    for word in words {
        add_blank_word(out, word.as_slice())?;
    }
    Ok(())
}

fn add_words(out: &mut Vec<u8>, words: &[Bytes]) -> Result<(), NoMemory>
    ensures { OnOk result (out.new.items ≡ out.old.items ++ shown_words words.now) }
{
    match words {
        [] => Ok(()),
        [word, more @ ..] => {
            add_shown(out, word.as_slice())?;
            add_more_words(out, more)
        }
    }
}

/// `WORDS in WD #ORDINAL`, put after a text: the command of a key before which so many of that key were launched.
#[tactic(auto, unfolding(crate::specs::Commands::command_name))]
pub(crate) fn add_command(out: &mut Vec<u8>, key: &Key, ordinal: u64) -> Result<(), NoMemory>
    ensures { OnOk result (out.new.items ≡ out.old.items ++ command_name key.now ordinal) }
{
    add_words(out, key.argv().as_slice())?;
    out.extend_from_slice(b" in ")?;
    add_shown(out, key.wd().text())?;
    out.extend_from_slice(b" #")?;
    add_number(out, ordinal)
}
