// What comes next in a run.
use rk_kernel::Foot;

/// What comes next in a run. Each tells the number of the command's record.
#[derive(Debug, Drop)]
pub enum Event {
    /// It asks the world, and its call reads and writes these cells.
    Touches(usize, Foot),
    /// It launches a command.
    Launches(usize),
    Ends(usize),
}
