// Steps of arithmetic: what an expression is worth over some names, and the names that it leaves.

use crate::table::NameTable;
use rk_base::{Bytes, NoMemory};
use rk_steps::{Subject, behind, plain, shown, text};
use sh_arith::{ArithErr, value};
use std::alloc::Global;

/// It holds nothing: each step begins with the names that it gives.
#[derive(Drop)]
pub(crate) struct Arithmetic {
    alloc: Global,
}

fn named(alloc: Global, fault: &str, name: &Bytes) -> Result<String, NoMemory> {
    let name = shown(alloc, name.as_slice())?;
    let text = format!(in alloc; "{fault} {}", name.as_str())?;
    Ok(text)
}

fn fault_shown(alloc: Global, fault: &ArithErr) -> Result<String, NoMemory> {
    match fault {
        ArithErr::Syntax(at) => {
            let text = format!(in alloc; "syntax {at}")?;
            Ok(text)
        }
        ArithErr::Overflow => plain(alloc, "overflow"),
        ArithErr::ZeroDivisor => plain(alloc, "zero divisor"),
        ArithErr::Name(name) => named(alloc, "name", name),
        ArithErr::Unset(name) => named(alloc, "unset", name),
        ArithErr::Readonly(name) => named(alloc, "readonly", name),
        ArithErr::NoMemory => Err(NoMemory),
    }
}

// The text: the words before `with`, with a space between two.
fn text_of(alloc: Global, words: &[Vec<u8>]) -> Result<Vec<u8>, NoMemory> {
    let mut text = Vec::new(alloc);
    'words: for (i, word) in words.iter().enumerate() {
        if word.as_slice() == b"with".as_slice() {
            return Ok(text);
        }
        text.extend_from_slice(if i == 0 { b"" } else { b" " })?;
        text.extend_from_slice(word.as_slice())?;
    }
    Ok(text)
}

fn put_name(alloc: Global, names: &mut NameTable, word: &[u8]) -> Result<(), NoMemory> {
    let mut parts = word.split(|b| *b == b'=');
    let name = parts.next().unwrap_or(b"");
    let value = Bytes::from_slice(alloc, parts.next().unwrap_or(b""))?;
    names.put(name, value)
}

// The names behind `with`, each `NAME=VALUE`.
fn names_of(alloc: Global, words: &[Vec<u8>]) -> Result<NameTable, NoMemory> {
    let mut names = NameTable::new(alloc);
    let mut told = false;
    'words: for word in words {
        if told {
            put_name(alloc, &mut names, word.as_slice())?;
        }
        told = told || word.as_slice() == b"with".as_slice();
    }
    Ok(names)
}

// The number or the fault, and the names afterwards.
fn worth(alloc: Global, words: &[Vec<u8>], nounset: bool) -> Result<String, NoMemory> {
    let expression = text_of(alloc, words)?;
    let mut names = names_of(alloc, words)?;
    let mut told = match value(alloc, expression.as_slice(), nounset, &mut names) {
        Ok(number) => format!(in alloc; "{number}")?,
        Err(fault) => fault_shown(alloc, &fault)?,
    };
    names.push_shown(&mut told)?;
    Ok(told)
}

impl Arithmetic {
    pub(crate) fn new(alloc: Global) -> Result<Arithmetic, NoMemory> {
        Ok(Arithmetic { alloc })
    }
}

impl Subject for Arithmetic {
    fn fresh(&mut self) -> Result<(), NoMemory> {
        Ok(())
    }

    fn step(&mut self, words: &[Vec<u8>]) -> Result<String, NoMemory> {
        let alloc = self.alloc;
        match text(words, 0) {
            "value" => worth(alloc, behind(words), false),
            "nounset" => worth(alloc, behind(words), true),
            _ => plain(alloc, "unknown step"),
        }
    }
}
