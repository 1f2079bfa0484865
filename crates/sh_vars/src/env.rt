// What a shell lends to expansion and builtins.
use crate::Vars;
use rk_base::{Bytes, Path};

/// The part of a shell's state that expansion and builtins read and change.
#[derive(Drop)]
pub struct Env {
    pub vars: Vars,
    /// `$0`.
    pub zero: Bytes,
    /// The working directory.
    pub wd: Path,
    /// `$?`.
    pub status: u8,
    /// Whether the simple command that was begun last has performed a command substitution.
    pub substituted: bool,
    /// Whether `set -u` is on: an unset parameter is a fault.
    pub nounset: bool,
    /// Whether `set -f` is on: pathnames are not expanded.
    pub noglob: bool,
    /// The local number that the next descriptor opened gets.
    pub next: u64,
}
