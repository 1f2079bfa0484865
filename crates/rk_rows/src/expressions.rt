// Steps of basic regular expressions: what is found in a line, or where a text is no expression.

use rk_base::NoMemory;
use rk_steps::{Subject, number, plain, text, word};
use std::alloc::Global;
use ut_bre::{Bre, BreErr, Found, Span};

/// It holds nothing: each step gives its expression and line.
#[derive(Drop)]
pub(crate) struct Expressions {
    alloc: Global,
}

fn push_group(alloc: Global, told: &mut String, span: Option<Span>) -> Result<(), NoMemory> {
    match span {
        None => told.push_str(" -")?,
        Some(span) => {
            let Span { start, end } = span;
            let places = format!(in alloc; " {start}:{end}")?;
            told.push_str(places.as_str())?;
        }
    }
    Ok(())
}

// The places of the match, and of each group.
fn match_shown(alloc: Global, found: &Found) -> Result<String, NoMemory> {
    let start = found.start;
    let end = found.end;
    let mut told = format!(in alloc; "{start} {end}")?;
    'groups: for i in 0..found.groups.len() {
        push_group(alloc, &mut told, found.groups.get(i.saturating_add(1)))?;
    }
    Ok(told)
}

// Whether the match without its groups is the same.
fn is_same(bre: &Bre, line: &[u8], from: usize, found: &Option<Found>) -> Result<bool, NoMemory> {
    let same = match (bre.span(line, from)?, found) {
        (None, None) => true,
        (Some(span), Some(found)) => span.start == found.start && span.end == found.end,
        _ => false,
    };
    Ok(same)
}

fn found_shown(alloc: Global, bre: &Bre, line: &[u8], from: usize) -> Result<String, NoMemory> {
    let found = bre.find(line, from)?;
    if !is_same(bre, line, from, &found)? {
        return plain(alloc, "two matches");
    }
    match &found {
        None => plain(alloc, "none"),
        Some(found) => match_shown(alloc, found),
    }
}

fn find(
    alloc: Global,
    read: Result<Bre, BreErr>,
    line: &[u8],
    from: usize,
) -> Result<String, NoMemory> {
    match read {
        Ok(bre) => found_shown(alloc, &bre, line, from),
        Err(BreErr::Bad(at)) => {
            let text = format!(in alloc; "bad {at}")?;
            Ok(text)
        }
        Err(BreErr::NoMemory) => Err(NoMemory),
    }
}

impl Expressions {
    pub(crate) fn new(alloc: Global) -> Result<Expressions, NoMemory> {
        Ok(Expressions { alloc })
    }
}

impl Subject for Expressions {
    fn fresh(&mut self) -> Result<(), NoMemory> {
        Ok(())
    }

    fn step(&mut self, words: &[Vec<u8>]) -> Result<String, NoMemory> {
        let alloc = self.alloc;
        match text(words, 0) {
            "find" => find(alloc, Bre::read(alloc, word(words, 1)), word(words, 2), 0),
            "from" => {
                let from = usize::try_from(number(words, 1)).unwrap_or(0);
                find(
                    alloc,
                    Bre::read(alloc, word(words, 2)),
                    word(words, 3),
                    from,
                )
            }
            "folded" => {
                let read = Bre::read_folded(alloc, true, word(words, 1));
                find(alloc, read, word(words, 2), 0)
            }
            _ => plain(alloc, "unknown step"),
        }
    }
}
