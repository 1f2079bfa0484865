//! The tree of a world, which node stands at each path, and snapshots of it.
#![tactic(auto)]

mod ascending;
mod content;
mod entry;
mod fetch;
mod id;
mod inode;
mod names;
mod node;
mod permission;
mod refused;
mod snapshot;
mod snapshot_builder;
mod snapshot_cursor;
mod tree;

pub use content::Content;
pub use entry::Entry;
pub use fetch::{Fetch, FetchErr};
pub use id::NodeId;
pub use node::Node;
pub use permission::{has_r, has_w, has_x};
pub use refused::Refused;
pub use snapshot::Snapshot;
pub use snapshot_builder::SnapshotBuilder;
pub use snapshot_cursor::SnapshotCursor;
pub use tree::Tree;
