// Addresses of lines.
use ut_bre::Bre;

/// What selects lines (XCU sed, "Addresses in sed").
#[derive(Drop)]
pub enum Address {
    /// The line of this number, counted from 1 through all inputs.
    Line(u64),
    /// The last line of the last input.
    Last,
    /// Each line in which the expression matches.
    Matching(Bre),
}
