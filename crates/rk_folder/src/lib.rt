//! The folder and the sinks that the build works on, behind traits, and the import of a folder.
#![tactic(auto)]

mod attributes;
mod by_folder;
mod entries;
mod folder;
mod held;
mod hidden_files;
mod hidden_listing;
mod imported;
mod importing;
mod memory;
mod sink;
mod specials;
mod state_files;

pub use attributes::{rows_apply, tree_of};
pub use by_folder::ByFolder;
pub use folder::{Folder, FolderCall, FolderErr, Got, Item, LONGEST_FILE, Standing};
pub use hidden_files::{
    Hidden, State, attrs_file, db_file, fresh_list_file, hidden_dir, install_file,
};
pub use imported::{Imported, import, listed_in_full};
pub use importing::{ImportErr, named};
pub use memory::MemFolder;
pub use sink::{MemSink, Sink, SinkErr};
pub use specials::special_is_first;
pub use state_files::{has_database, state};
