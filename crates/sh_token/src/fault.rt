// Why a text is no script, and where.
use rk_base::Bytes;

/// Why a text is no script.
#[derive(Drop)]
pub enum Why {
    /// No script goes on with the token that stands there, or the text ends too soon.
    Syntax,
    /// A quote, `$(`, `${` or here-document is opened there and not closed.
    Unclosed,
    /// More than 64 levels are open.
    Deep,
    /// The text has more than 16,777,216 bytes.
    Long,
    /// What the shell has and this profile leaves out.
    NotInProfile(Bytes),
}

/// The place of a fault, in bytes from the text's beginning, and its cause.
#[derive(Drop)]
pub struct ScriptFault {
    pub at: usize,
    pub why: Why,
}
