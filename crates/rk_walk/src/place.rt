// Places.
use crate::Label;
use rk_tree::NodeId;

/// Where a path has led so far: a node, the directory and the name under which it was found, and whether a
/// slash stands after it. `up` is `None` for the root and after `.` and `..`.
#[derive(Debug, Drop)]
pub struct Here<'a> {
    pub node: NodeId,
    pub up: Option<(NodeId, Label<'a>)>,
    pub slash: bool,
}

/// Where a path leads: to a node, or to a name that stands for nothing in a directory.
#[derive(Debug, Drop)]
pub enum Place<'a> {
    Found(Here<'a>),
    Absent {
        dir: NodeId,
        name: Label<'a>,
        slash: bool,
    },
}
