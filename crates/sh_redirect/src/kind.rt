// Kinds of redirections.

/// A redirection by its operator.
#[derive(Clone, Copy, Debug)]
pub enum Redirect {
    /// `<`: a file is opened for reading.
    Reads,
    /// `>` and `>|`: a file is made or emptied, and opened for writing.
    Makes,
    /// `>>`: a file is made where there is none, and opened for writing at its end.
    Appends,
    /// `<&` and `>&`: a copy of a descriptor, or a close.
    Copies,
    /// `<<` and `<<-`: a here-document, whose body is the operand.
    Here,
}
