// What is wrong with a text.

/// Something is wrong here, or what begins here isn't closed.
#[derive(Clone, Copy, Debug)]
pub(crate) enum Fault {
    Wrong(usize),
    Unclosed(usize),
}
