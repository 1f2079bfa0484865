// Keys of lines.

/// A key of lines (XCU sort, OPTIONS -k): from the start of a field to the end of another one, or to that of the line.
/// The first field has the number 1.
#[derive(Clone, Copy, Debug, Drop)]
pub struct Key {
    pub from: u64,
    pub last: Option<u64>,
    /// Whether numbers are compared, and not texts.
    pub numeric: bool,
    pub reversed: bool,
}
