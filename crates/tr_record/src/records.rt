// Records of commands.
use crate::StepList;
use rk_calls::Key;

/// What a command did: its key, how many commands of that key were launched before it in the same build, its
/// steps, and the status with which it exited, at what was paid since the last step. A record that wasn't ended
/// has exit 0 at cost 0.
#[derive(Debug, Drop)]
pub struct Record {
    pub key: Key,
    pub ordinal: u64,
    pub steps: StepList,
    pub exit: u8,
    pub exit_cost: u64,
}
