// What is changed before a build.
use crate::files::File;
use rk_base::Path;

/// What is changed before a build.
#[derive(Debug, Drop)]
pub enum Edit {
    /// The file is written.
    Write(File),
    /// The file is removed if it stands.
    Remove(Path),
    /// Nothing is changed.
    Nothing,
}
