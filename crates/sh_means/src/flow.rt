// How evaluation goes on, and where it stands.

/// How a command has ended.
#[derive(Clone, Copy, Debug)]
pub enum Flow {
    /// The next command follows.
    Normal,
    /// Loops are left (XCU 2.14, `break`): the innermost, and so many more.
    Breaks(u64),
    /// So many loops are left, and the next one goes on with its next round (XCU 2.14, `continue`).
    Continues(u64),
    /// The function or the dot script is left (XCU 2.14, `return`).
    Returns,
    /// The shell exits, or the subshell.
    Exits,
}

/// What the place of a command says of it.
#[derive(Clone, Copy, Debug)]
pub struct Place {
    /// How many loops of the present function call are around it.
    pub loops: u64,
    /// Whether it is in a function or in a dot script.
    pub returns: bool,
    /// Whether a failing status is ignored by `set -e` (XCU 2.14, `set`).
    pub ignores: bool,
}
