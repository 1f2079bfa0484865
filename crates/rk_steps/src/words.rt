// The words of a step, and short answers.
use rk_base::NoMemory;
use std::alloc::Global;

/// The word of this number; no bytes where there is none.
pub fn word(words: &[Vec<u8>], i: usize) -> &[u8] {
    match words.get(i) {
        Some(word) => word.as_slice(),
        None => b"",
    }
}

/// The word of this number as text.
pub fn text(words: &[Vec<u8>], i: usize) -> &str {
    str::from_utf8(word(words, i)).unwrap_or("")
}

/// The number that a word is; 0 where it is none.
pub fn number(words: &[Vec<u8>], i: usize) -> u64 {
    text(words, i).parse::<u64>().unwrap_or(0)
}

/// The mode that a word is, by its octal digits.
pub fn mode(words: &[Vec<u8>], i: usize) -> u16 {
    u16::from_str_radix(text(words, i), 8).unwrap_or(0)
}

/// The words behind the first.
pub fn behind(words: &[Vec<u8>]) -> &[Vec<u8>] {
    match words {
        [] => words,
        [_, rest @ ..] => rest,
    }
}

/// A text of the program's own.
pub fn plain(alloc: Global, text: &str) -> Result<String, NoMemory> {
    let text = String::from_str(alloc, text)?;
    Ok(text)
}

/// `yes` or `no`.
pub fn flag(alloc: Global, it: bool) -> Result<String, NoMemory> {
    plain(alloc, if it { "yes" } else { "no" })
}

/// A number, or `none`.
pub fn number_shown(alloc: Global, it: Option<usize>) -> Result<String, NoMemory> {
    match it {
        Some(n) => {
            let text = format!(in alloc; "{n}")?;
            Ok(text)
        }
        None => plain(alloc, "none"),
    }
}
