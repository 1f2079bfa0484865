// Places of commands among the groups of their key's records.
use crate::Cause;

/// Where a command is that is replayed: the group of the records that are left, how many steps it took, and the number of the rest
/// of the group's first record behind these.
#[derive(Clone, Copy, Debug)]
pub struct Place {
    pub group: usize,
    pub at: usize,
    pub rest: usize,
}

/// Where an answer leads.
#[derive(Debug, Drop)]
pub enum Taken {
    /// On to this place.
    On(Place),
    /// Nowhere, for this cause: no record was answered so.
    GivenUp(Cause),
}
