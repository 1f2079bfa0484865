// What a folder holds.
use rk_folder::State;
use rk_tree::Snapshot;

/// What a folder holds: the files and directories outside `.rkr`, whether `.rkr` stands, and the state files.
/// The links among the entries are not in the folder.
#[derive(Drop)]
pub struct Holding {
    pub entries: Snapshot,
    pub rkr: bool,
    pub state: State,
}
