// Tables with an entry for each byte.
ghost use Rattle.std.specs.Prelude.{◌≡◌, Some, slice_get};

use std::marker::Model;

/// An entry for each byte.
#[derive(Drop)]
pub(crate) struct Table {
    pub(crate) entries: Vec<bool>,
}

impl Model for Table {
    ghost use Rattle.std.specs.Prelude.{◌≡◌, List, Bool, length};

    ghost Value = { List Bool };

    ghost view = { λ t. t.entries.items };

    ghost invariant = { λ t. length t.entries.items ≡ 256 };
}

impl Table {
    pub(crate) fn at(&self, b: u8) -> bool
        ensures { slice_get self.now b ≡ Some result }
    {
        self.entries[b as usize]
    }
}
