// Steps of names, paths, lists, byte strings and budgets.
use rk_base::{Budget, Bytes, Name, NoMemory, Path, has_nul, is_variable, sort_texts};
use rk_steps::{
    Subject, behind, flag, name_list, name_of, names_shown, number, path_of, plain, shown, text,
    var_list, vars_shown, word, word_list, words_shown,
};
use std::alloc::Global;

/// The byte string, its copy and the budget that steps speak of.
#[derive(Drop)]
pub(crate) struct Names {
    alloc: Global,
    bytes: Bytes,
    copied: Bytes,
    budget: Option<Budget>,
}

// A name's copy, where the bytes are one.
fn name_step(alloc: Global, bytes: &[u8]) -> Result<String, NoMemory> {
    match name_of(alloc, bytes)? {
        Some(name) => shown(alloc, name.copy()?.as_slice()),
        None => plain(alloc, "invalid"),
    }
}

fn last_step(alloc: Global, path: &Path) -> Result<String, NoMemory> {
    match path.last()? {
        Some(name) => shown(alloc, name.as_slice()),
        None => plain(alloc, "none"),
    }
}

fn join_step(alloc: Global, path: &Path, name: &[u8]) -> Result<String, NoMemory> {
    match name_of(alloc, name)? {
        Some(name) => shown(alloc, path.join(alloc, &name)?.text()),
        None => plain(alloc, "invalid"),
    }
}

fn in_step(alloc: Global, path: &Path, dir: &[u8]) -> Result<String, NoMemory> {
    match path_of(alloc, dir)? {
        Some(dir) => flag(alloc, path.is_in(&dir)),
        None => plain(alloc, "invalid"),
    }
}

fn depth_step(alloc: Global, path: &Path) -> Result<String, NoMemory> {
    let text = format!(in alloc; "{}", path.depth())?;
    Ok(text)
}

fn path_steps(alloc: Global, words: &[Vec<u8>], path: &Path) -> Result<String, NoMemory> {
    match text(words, 0) {
        "path" => shown(alloc, path.text()),
        "parent" => shown(alloc, path.parent()?.text()),
        "last" => last_step(alloc, path),
        "name" => shown(alloc, path.name()),
        "join" => join_step(alloc, path, word(words, 2)),
        "in" => in_step(alloc, path, word(words, 2)),
        "depth" => depth_step(alloc, path),
        _ => flag(alloc, path.is_root()),
    }
}

// A step of the copy of a path.
fn path_step(alloc: Global, words: &[Vec<u8>]) -> Result<String, NoMemory> {
    let Some(path) = path_of(alloc, word(words, 1))? else {
        return plain(alloc, "invalid");
    };
    let copy = path.copy()?;
    if !copy.same(&path) {
        return plain(alloc, "another copy");
    }
    path_steps(alloc, words, &copy)
}

// Names as a list, and its copy.
fn names_step(alloc: Global, words: &[Vec<u8>]) -> Result<String, NoMemory> {
    let Some(list) = name_list(alloc, words)? else {
        return plain(alloc, "none");
    };
    let copy = list.copy()?;
    let rest = names_shown(alloc, &copy)?;
    let same = if copy.same(&list) { "" } else { " another" };
    let text = format!(in alloc; "{}{}{same}", list.len(), rest.as_str())?;
    Ok(text)
}

fn words_step(alloc: Global, words: &[Vec<u8>]) -> Result<String, NoMemory> {
    let list = word_list(alloc, words)?;
    let copy = list.copy()?;
    let rest = words_shown(alloc, copy.as_slice())?;
    let same = if copy.same(&list) { "" } else { " another" };
    let text = format!(in alloc; "{}{}{same}", list.len(), rest.as_str())?;
    Ok(text)
}

fn sort_step(alloc: Global, words: &[Vec<u8>]) -> Result<String, NoMemory> {
    let mut texts = Vec::new(alloc);
    'words: for word in words {
        texts.push(Bytes::from_slice(alloc, word.as_slice())?)?;
    }
    sort_texts(&mut texts)?;
    let rest = words_shown(alloc, &texts)?;
    let text = format!(in alloc; "{}{}", texts.len(), rest.as_str())?;
    Ok(text)
}

fn vars_step(alloc: Global, word: &[u8]) -> Result<String, NoMemory> {
    let Some(vars) = var_list(alloc, word)? else {
        return plain(alloc, "none");
    };
    let copy = vars.copy()?;
    let rest = vars_shown(alloc, &copy)?;
    let same = if copy.same(&vars) { "" } else { " another" };
    let text = format!(in alloc; "{} {}{same}", vars.as_slice().len(), rest.as_str())?;
    Ok(text)
}

fn budget_shown(alloc: Global, paid: &str, budget: &Budget) -> Result<String, NoMemory> {
    let text = format!(in alloc; "{paid}used {} left {}", budget.used(), budget.left())?;
    Ok(text)
}

impl Names {
    pub(crate) fn new(alloc: Global) -> Result<Names, NoMemory> {
        Ok(Names {
            alloc,
            bytes: Bytes::from_slice(alloc, b"")?,
            copied: Bytes::from_slice(alloc, b"")?,
            budget: None,
        })
    }

    fn set_budget(&mut self, n: u64) -> Result<String, NoMemory> {
        self.budget = Budget::new(n);
        match &self.budget {
            Some(budget) => budget_shown(self.alloc, "", budget),
            None => plain(self.alloc, "none"),
        }
    }

    fn pay(&mut self, n: u64) -> Result<String, NoMemory> {
        match &mut self.budget {
            Some(budget) => {
                let paid = if budget.pay(n) { "yes " } else { "no " };
                budget_shown(self.alloc, paid, budget)
            }
            None => plain(self.alloc, "none"),
        }
    }

    fn set(&mut self, bytes: &[u8]) -> Result<String, NoMemory> {
        self.bytes = Bytes::from_slice(self.alloc, bytes)?;
        self.copied = self.bytes.copy()?;
        shown(self.alloc, self.bytes.as_slice())
    }

    fn write(&mut self, at: u64, bytes: &[u8]) -> Result<String, NoMemory> {
        self.bytes.write_at(at as usize, bytes)?;
        shown(self.alloc, self.bytes.as_slice())
    }
}

impl Subject for Names {
    fn fresh(&mut self) -> Result<(), NoMemory> {
        self.budget = None;
        Ok(())
    }

    fn step(&mut self, words: &[Vec<u8>]) -> Result<String, NoMemory> {
        let alloc = self.alloc;
        match text(words, 0) {
            "is-name" => name_step(alloc, word(words, 1)),
            "root" => shown(alloc, Path::root(alloc)?.text()),
            "path" | "parent" | "last" | "name" | "join" | "in" | "depth" | "is-root" => {
                path_step(alloc, words)
            }
            "names" => names_step(alloc, behind(words)),
            "words" => words_step(alloc, behind(words)),
            "vars" => vars_step(alloc, word(words, 1)),
            "sort" => sort_step(alloc, behind(words)),
            "is-variable" => flag(alloc, is_variable(word(words, 1))),
            "has-nul" => flag(alloc, has_nul(word(words, 1))),
            "budget" => self.set_budget(number(words, 1)),
            "pay" => self.pay(number(words, 1)),
            "bytes" => self.set(word(words, 1)),
            "write" => self.write(number(words, 1), word(words, 2)),
            "copy" => shown(alloc, self.copied.as_slice()),
            _ => plain(alloc, "unknown step"),
        }
    }
}
