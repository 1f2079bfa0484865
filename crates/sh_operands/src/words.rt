// Words of builtins.
ghost use Rattle.std.specs.Prelude.{◌≡◌, ◌++◌, IfOk, OnOk, option_copied};
ghost use Rattle.sh_operands.specs.Words.{behind, joined, first_that, is_misnamed};

use rk_base::{Bytes, NoMemory, WordList, is_variable};
use std::alloc::Global;

// Each word behind a blank.
fn put_behind(words: &[Bytes], text: &mut Vec<u8>) -> Result<(), NoMemory>
    ensures { OnOk result (text.new.items ≡ text.old.items ++ behind words.now) }
{
    'words: for word in words {
        text.push(b' ')?;
        text.extend_from_slice(word.as_slice())?;
    }
    Ok(())
}

/// The words with a blank between each two.
pub fn joined(alloc: Global, words: &[Bytes]) -> Result<Vec<u8>, NoMemory>
    ensures { IfOk result (λ text. text.items ≡ joined words.now) }
{
    match words {
        [] => Ok(Vec::new(alloc)),
        [word, words @ ..] => {
            let mut text = Vec::from_slice(alloc, word.as_slice())?;
            put_behind(words, &mut text)?;
            Ok(text)
        }
    }
}

/// Copies of words.
pub fn copies(alloc: Global, words: &[Bytes]) -> Result<WordList, NoMemory>
    ensures { IfOk result (λ copies. copies ≡ words.now) }
{
    let mut copies = WordList::new(Vec::new(alloc));
    'words: for word in words {
        let word = word.copy()?;
        copies.push(word)?;
    }
    Ok(copies)
}

fn is_misnamed(x: &[u8]) -> bool
    ensures { result ≡ is_misnamed x.now }
{
    !is_variable(x)
}

/// The first word that no variable may have as its name.
pub fn first_misnamed(words: &[Bytes]) -> Option<&Bytes>
    ensures { option_copied result ≡ first_that is_misnamed words.now }
{
    'names: for x in words {
        if is_misnamed(x.as_slice()) {
            return Some(x);
        }
    }
    None
}
