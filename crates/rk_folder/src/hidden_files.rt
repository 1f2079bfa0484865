// The hidden directory and its state files.
ghost use Rattle.std.specs.Prelude.{◌≡◌, IfOk, true};
ghost use Rattle.rk_base.specs.Canonical.{is_canonical};
ghost use Rattle.rk_folder.specs.Hidden as paths;

use rk_base::{Bytes, NoMemory, Path, PathFault};
use std::alloc::Global;

/// The state files: the bytes of those that stand, and whether there is a list of calls that isn't sealed yet.
#[derive(Debug, Drop)]
pub struct State {
    /// The database.
    pub db: Option<Bytes>,
    /// The rows of attributes.
    pub attrs: Option<Bytes>,
    /// The sealed list of calls.
    pub install: Option<Bytes>,
    /// Whether `install.new` stands, the list that isn't sealed yet.
    pub fresh_list: bool,
}

/// Whether `.rkr` stands, and its state files.
#[derive(Debug, Drop)]
pub struct Hidden {
    pub rkr: bool,
    pub state: State,
}

pub(crate) const HIDDEN: &[u8] = b".rkr";

pub(crate) const ATTRS: &[u8] = b"attrs";

pub(crate) const DB: &[u8] = b"db";

pub(crate) const INSTALL: &[u8] = b"install";

pub(crate) const FRESH_LIST: &[u8] = b"install.new";

// The path of a canonical text.
fn path_of(alloc: Global, text: &[u8]) -> Result<Path, NoMemory>
    requires { is_canonical text.now ≡ true }
    ensures { IfOk result (λ p. p ≡ text.now) }
{
    match Path::parse(alloc, text) {
        Ok(path) => Ok(path),
        Err(PathFault::NoMemory) => Err(NoMemory),
        Err(PathFault::Invalid) => unreachable!(),
    }
}

/// The path of the directory that keeps what a build remembers, `/.rkr`.
#[tactic(auto, unfolding(rk_base::specs::Text::join))]
pub fn hidden_dir(alloc: Global) -> Result<Path, NoMemory>
    ensures { IfOk result (λ p. p ≡ paths.hidden_dir) }
{
    path_of(alloc, b"/.rkr")
}

/// The path of the file of attributes, `/.rkr/attrs`.
#[tactic(auto, unfolding(rk_base::specs::Text::join))]
pub fn attrs_file(alloc: Global) -> Result<Path, NoMemory>
    ensures { IfOk result (λ p. p ≡ paths.attrs_file) }
{
    path_of(alloc, b"/.rkr/attrs")
}

/// The path of the database, `/.rkr/db`.
#[tactic(auto, unfolding(rk_base::specs::Text::join))]
pub fn db_file(alloc: Global) -> Result<Path, NoMemory>
    ensures { IfOk result (λ p. p ≡ paths.db_file) }
{
    path_of(alloc, b"/.rkr/db")
}

/// The path of the sealed list of calls, `/.rkr/install`.
#[tactic(auto, unfolding(rk_base::specs::Text::join))]
pub fn install_file(alloc: Global) -> Result<Path, NoMemory>
    ensures { IfOk result (λ p. p ≡ paths.install_file) }
{
    path_of(alloc, b"/.rkr/install")
}

/// The path of a list of calls that isn't sealed yet, `/.rkr/install.new`.
#[tactic(auto, unfolding(rk_base::specs::Text::join))]
pub fn fresh_list_file(alloc: Global) -> Result<Path, NoMemory>
    ensures { IfOk result (λ p. p ≡ paths.fresh_list_file) }
{
    path_of(alloc, b"/.rkr/install.new")
}
