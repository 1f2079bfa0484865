// Keys and maps of descriptors as words.
use crate::{behind, path_of, shown, var_list, vars_shown, word, word_list, words_shown};
use rk_base::NoMemory;
use rk_calls::{Key, RefMap};
use std::alloc::Global;

/// The pairs of a word, each `DESCRIPTOR:NUMBER` after a comma.
pub fn map_of(alloc: Global, pairs: &str) -> Result<Option<RefMap>, NoMemory> {
    let mut map = Vec::new(alloc);
    'pairs: for pair in pairs.split(',') {
        if let Some((d, number)) = pair.split_once(':') {
            let d = d.parse::<u8>().unwrap_or(255);
            map.push((d, number.parse::<u64>().unwrap_or(0)))?;
        }
    }
    RefMap::from_vec(alloc, map)
}

/// The key `WD VARIABLES WORD ..`, as `Key::new` makes it.
pub fn key_of(alloc: Global, words: &[Vec<u8>]) -> Result<Option<Key>, NoMemory> {
    let argv = word_list(alloc, behind(behind(words)))?;
    let (Some(wd), Some(vars)) = (
        path_of(alloc, word(words, 0))?,
        var_list(alloc, word(words, 1))?,
    ) else {
        return Ok(None);
    };
    if argv.len() == 0 {
        return Ok(None);
    }
    Ok(Some(Key::new(alloc, argv, wd, vars)?))
}

/// The key of just these.
pub fn key_of_parts(alloc: Global, words: &[Vec<u8>]) -> Result<Option<Key>, NoMemory> {
    let argv = word_list(alloc, behind(behind(words)))?;
    let (Some(wd), Some(vars)) = (
        path_of(alloc, word(words, 0))?,
        var_list(alloc, word(words, 1))?,
    ) else {
        return Ok(None);
    };
    Key::from_parts(alloc, argv, wd, vars)
}

/// A key's copy as such words.
pub fn key_shown(alloc: Global, key: &Key) -> Result<String, NoMemory> {
    let copy = key.copy()?;
    let wd = shown(alloc, copy.wd().text())?;
    let vars = vars_shown(alloc, copy.vars())?;
    let argv = words_shown(alloc, copy.argv().as_slice())?;
    let same = if copy.same(key) { "" } else { " another" };
    let text = format!(in alloc; "{} {}{}{same}", wd.as_str(), vars.as_str(), argv.as_str())?;
    Ok(text)
}
