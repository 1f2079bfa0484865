// What a place is told by: which words are reserved there, and the here-documents that are awaited.
use std::marker::Model;

/// Which words are reserved where one stands (XCU 2.4).
#[derive(Clone, Copy)]
pub enum Words {
    /// All: a command may begin there.
    All,
    /// Those that close or go on: a compound command ends in front.
    Closers,
    /// None.
    Ordinary,
}

/// A here-document whose body is still to come.
#[derive(Drop)]
pub struct HereDocument {
    pub at: usize,
    pub levels: usize,
    pub delimiter: Vec<u8>,
    pub quoted: bool,
    pub tabs: bool,
}

impl Model for HereDocument {
    ghost use Rattle.sh_token.specs.HereDocuments.{Awaited};

    ghost Value = { Awaited };

    ghost view = { λ d. record { at = d.at; levels = d.levels; delimiter = d.delimiter.items; quoted = d.quoted; tabs = d.tabs } };
}
