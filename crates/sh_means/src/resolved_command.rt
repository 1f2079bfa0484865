// What a simple command is once its first field was looked up (XCU 2.9.1).
ghost use Rattle.std.specs.Prelude.{◌≡◌, true};
ghost use Rattle.sh_means.specs.Launchable.{is_launchable};

use crate::control::CommandKind;
use rk_base::WordList;

/// A simple command that was looked up: what kind of command its first field names, and its fields (XCU 2.9.1). What is
/// launched has a name.
#[derive(Drop)]
pub struct ResolvedCommand {
    pub kind: CommandKind,
    pub fields: WordList,
    ghost launchable: { is_launchable kind fields ≡ true },
}
