// Numbers in steps; each is 0 where the text is none, or too great.

/// A number of 64 bits, as of turns.
pub fn number(text: &str) -> u64 {
    text.parse::<u64>().unwrap_or(0)
}

/// An exit status.
pub fn status(text: &str) -> u8 {
    u8::try_from(number(text)).unwrap_or(0)
}

/// How many bytes or things there are, or the place of one.
pub fn size(text: &str) -> usize {
    number(text) as usize
}
