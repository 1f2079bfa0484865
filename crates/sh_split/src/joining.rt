// Words that are joined.
ghost use Rattle.std.specs.Prelude.{◌≡◌, ◌++◌, IfOk, OnOk, option_copied};
ghost use Rattle.sh_split.specs.Joining.{after_each, joined, first_byte};

use rk_base::{Bytes, NoMemory};
use std::alloc::Global;

fn put_each(separator: &[u8], words: &[Bytes], text: &mut Vec<u8>) -> Result<(), NoMemory>
    ensures { OnOk result (text.new.items ≡ text.old.items ++ after_each separator.now words.now) }
{
    'words: for word in words {
        text.extend_from_slice(separator)?;
        text.extend_from_slice(word.as_slice())?;
    }
    Ok(())
}

/// Words with a text between each two.
pub fn joined(alloc: Global, separator: &[u8], words: &[Bytes]) -> Result<Bytes, NoMemory>
    ensures { IfOk result (λ text. text ≡ joined separator.now words.now) }
{
    match words {
        [] => Bytes::from_slice(alloc, b""),
        [first, rest @ ..] => {
            let mut text = Vec::from_slice(alloc, first.as_slice())?;
            put_each(separator, rest, &mut text)?;
            let text = Bytes::new(alloc, text)?;
            Ok(text)
        }
    }
}

/// The first byte of IFS, by which parameters are joined: a blank where IFS is unset, and nothing where it is null.
pub fn first_byte(ifs: Option<&[u8]>) -> &[u8]
    ensures { result.now ≡ first_byte (option_copied ifs.entry) }
{
    match ifs {
        None => b" ",
        Some(text) => match text {
            [] => text,
            [_, ..] => text.split_at(1).0,
        },
    }
}
