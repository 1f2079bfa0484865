// Open descriptions.
ghost use Rattle.std.specs.Prelude.{◌≡◌};
ghost use Rattle.rk_kernel.specs.Opening.{description};
ghost use Rattle.rk_kernel.specs.World.{empty_input, output, error_text, read_end, write_end};

use rk_calls::How;
use rk_tree::NodeId;

/// What is read or written.
#[derive(Clone, Copy, Debug)]
pub enum Source {
    /// The file that is the node of this number of the tree.
    Node(usize),
    /// The pipe of this number.
    Pipe(usize),
    Output,
    ErrorText,
    /// Nothing: the empty input.
    Nothing,
}

/// What is open, at which offset in bytes, and for what. With `append` each write goes to the end.
#[derive(Clone, Copy, Debug)]
pub struct Description {
    pub source: Source,
    pub offset: usize,
    pub read: bool,
    pub write: bool,
    pub append: bool,
}

impl Description {
    pub(crate) fn empty_input() -> Description
        ensures { result ≡ empty_input }
    {
        Description {
            source: Source::Nothing,
            offset: 0,
            read: true,
            write: false,
            append: false,
        }
    }

    pub(crate) fn output() -> Description
        ensures { result ≡ output }
    {
        Description {
            source: Source::Output,
            offset: 0,
            read: false,
            write: true,
            append: false,
        }
    }

    pub(crate) fn error_text() -> Description
        ensures { result ≡ error_text }
    {
        Description {
            source: Source::ErrorText,
            offset: 0,
            read: false,
            write: true,
            append: false,
        }
    }

    // That of a file that was opened so.
    pub(crate) fn of(how: How, node: NodeId) -> Description
        ensures { result ≡ description how node }
    {
        match how {
            How::Read => Description {
                source: Source::Node(node.number()),
                offset: 0,
                read: true,
                write: false,
                append: false,
            },
            How::Make => Description {
                source: Source::Node(node.number()),
                offset: 0,
                read: false,
                write: true,
                append: false,
            },
            How::Append => Description {
                source: Source::Node(node.number()),
                offset: 0,
                read: false,
                write: true,
                append: true,
            },
        }
    }

    pub(crate) fn read_end(pipe: usize) -> Description
        ensures { result ≡ read_end pipe }
    {
        Description {
            source: Source::Pipe(pipe),
            offset: 0,
            read: true,
            write: false,
            append: false,
        }
    }

    pub(crate) fn write_end(pipe: usize) -> Description
        ensures { result ≡ write_end pipe }
    {
        Description {
            source: Source::Pipe(pipe),
            offset: 0,
            read: false,
            write: true,
            append: false,
        }
    }
}
