// In which modes words are expanded, and how that ends.
use rk_base::{Bytes, WordList};

/// What becomes of a word.
#[derive(Clone, Copy, Debug)]
pub enum Mode {
    /// Fields: results are split, and pathnames are expanded. So for command words and those of `for`.
    Fields,
    /// One value, neither split nor expanded to pathnames. So for assignments, redirection operands, the word of `case` and
    /// here-documents.
    Value,
    /// One value as a pattern: each quoted byte stands behind a backslash. So for the patterns of `case`.
    Pattern,
}

/// What a word was expanded to: fields in the mode of fields, else a value.
#[derive(Drop)]
pub enum Expanded {
    Fields(WordList),
    Value(Bytes),
}

/// Why a word has no expansion (XCU 2.6.2, and `set -u`): a parameter as it is written, and what is to be told of it.
#[derive(Drop)]
pub struct ExpandFault {
    pub parameter: Bytes,
    pub message: Bytes,
}
