// Kinds of nodes.

/// What stands at a path: a file, a directory or a symbolic link.
#[derive(Clone, Copy, Debug)]
pub enum FileType {
    File,
    Dir,
    Link,
}
