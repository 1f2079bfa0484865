// Lines that stand in the texts of the inputs.

/// A line, and the text of its first key, which is found once.
#[derive(Clone, Copy, Drop)]
pub struct Line<'a> {
    pub text: &'a [u8],
    pub key: &'a [u8],
}
