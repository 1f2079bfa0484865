// Paths, names and lists as words.
use crate::push_shown;
use rk_base::{Bytes, Name, NameList, NoMemory, Path, PathFault, Var, VarList, WordList};
use std::alloc::Global;

/// The path of a text, or none.
pub fn path_of(alloc: Global, text: &[u8]) -> Result<Option<Path>, NoMemory> {
    match Path::parse(alloc, text) {
        Ok(path) => Ok(Some(path)),
        Err(PathFault::Invalid) => Ok(None),
        Err(PathFault::NoMemory) => Err(NoMemory),
    }
}

/// The name of a text, or none.
pub fn name_of(alloc: Global, text: &[u8]) -> Result<Option<Name>, NoMemory> {
    match Name::new(alloc, text) {
        Ok(name) => Ok(Some(name)),
        Err(PathFault::Invalid) => Ok(None),
        Err(PathFault::NoMemory) => Err(NoMemory),
    }
}

/// The names of these words, where they ascend.
pub fn name_list(alloc: Global, words: &[Vec<u8>]) -> Result<Option<NameList>, NoMemory> {
    let mut names = Vec::new(alloc);
    'words: for word in words {
        match name_of(alloc, word.as_slice())? {
            Some(name) => names.push(name)?,
            None => return Ok(None),
        }
    }
    NameList::from_vec(alloc, names)
}

/// These words as a list.
pub fn word_list(alloc: Global, words: &[Vec<u8>]) -> Result<WordList, NoMemory> {
    let mut list = WordList::new(Vec::new(alloc));
    'words: for word in words {
        list.push(Bytes::from_slice(alloc, word.as_slice())?)?;
    }
    Ok(list)
}

// The variable `NAME=VALUE`.
fn var_of(alloc: Global, word: &[u8]) -> Result<Var, NoMemory> {
    let mut parts = word.split(|b| *b == b'=');
    let name = Bytes::from_slice(alloc, parts.next().unwrap_or(b""))?;
    let value = Bytes::from_slice(alloc, parts.next().unwrap_or(b""))?;
    Ok(Var { name, value })
}

/// The variables of a word, `-` or each `NAME=VALUE` after a comma.
pub fn var_list(alloc: Global, word: &[u8]) -> Result<Option<VarList>, NoMemory> {
    let mut vars = Vec::new(alloc);
    if word != b"-".as_slice() {
        'vars: for var in word.split(|b| *b == b',') {
            vars.push(var_of(alloc, var)?)?;
        }
    }
    Ok(VarList::from_vec(vars))
}

fn push_var(alloc: Global, text: &mut String, var: &Var) -> Result<(), NoMemory> {
    push_shown(alloc, text, var.name.as_slice())?;
    text.push('=')?;
    push_shown(alloc, text, var.value.as_slice())
}

/// Variables as such a word.
pub fn vars_shown(alloc: Global, vars: &VarList) -> Result<String, NoMemory> {
    let vars = vars.as_slice();
    let mut text = String::from_str(alloc, if vars.is_empty() { "-" } else { "" })?;
    'vars: for (i, var) in vars.iter().enumerate() {
        text.push_str(if i == 0 { "" } else { "," })?;
        push_var(alloc, &mut text, var)?;
    }
    Ok(text)
}

/// Names, each after a space.
pub fn names_shown(alloc: Global, names: &NameList) -> Result<String, NoMemory> {
    let mut text = String::new(alloc);
    'names: for name in names.as_slice() {
        text.push(' ')?;
        push_shown(alloc, &mut text, name.as_slice())?;
    }
    Ok(text)
}

/// Words, each after a space.
pub fn words_shown(alloc: Global, words: &[Bytes]) -> Result<String, NoMemory> {
    let mut text = String::new(alloc);
    'words: for word in words {
        text.push(' ')?;
        push_shown(alloc, &mut text, word.as_slice())?;
    }
    Ok(text)
}
