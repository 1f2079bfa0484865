// What stands for more than it says in a row: numbers of rounds, words put many times, and ranges of words.
use rk_base::NoMemory;
use std::alloc::Global;

// A word with each `%` in it as the number of the round.
fn push_numbered(text: &mut String, word: &str, number: &str) -> Result<(), NoMemory> {
    'pieces: for (i, piece) in word.split('%').enumerate() {
        if i != 0 {
            text.push_str(number)?;
        }
        text.push_str(piece)?;
    }
    Ok(())
}

fn push_times(text: &mut String, front: &str, rest: &str) -> Result<(), NoMemory> {
    let (count, rest) = rest.split_once("\\*").unwrap_or((rest, ""));
    'times: for _ in 0..count.parse::<u64>().unwrap_or(0) {
        text.push_str(front)?;
    }
    text.push_str(rest)?;
    Ok(())
}

/// The two ends of `A..B`.
pub(crate) fn ends_of(range: &str) -> (u64, u64) {
    let (first, last) = range.split_once("..").unwrap_or(("1", "0"));
    (
        first.parse::<u64>().unwrap_or(1),
        last.parse::<u64>().unwrap_or(0),
    )
}

fn push_range(alloc: Global, text: &mut String, front: &str, range: &str) -> Result<(), NoMemory> {
    let (first, last) = ends_of(range);
    'numbers: for i in first..=last {
        text.push_str(if i == first { "" } else { " " })?;
        text.push_str(front)?;
        text.push_str(format!(in alloc; "{i}")?.as_str())?;
    }
    Ok(())
}

// A word: `X\*N` and `X\*N\*Y` are N times X, and Y; `X\..A..B` are the words XA to XB.
fn push_word(alloc: Global, text: &mut String, word: &str, number: &str) -> Result<(), NoMemory> {
    if let Some((front, range)) = word.split_once("\\..") {
        return push_range(alloc, text, front, range);
    }
    match word.split_once("\\*") {
        Some((front, rest)) => push_times(text, front, rest),
        None => push_numbered(text, word, number),
    }
}

/// A step, or what is wanted, in a round of this number.
pub(crate) fn spelt(alloc: Global, line: &str, number: &str) -> Result<String, NoMemory> {
    let mut text = String::new(alloc);
    'words: for (i, word) in line.split(' ').enumerate() {
        if i != 0 {
            text.push(' ')?;
        }
        push_word(alloc, &mut text, word, number)?;
    }
    Ok(text)
}
