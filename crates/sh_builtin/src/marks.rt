// The bytes of a line that is read.
ghost use Rattle.std.specs.Prelude.{◌≡◌, ◌++◌, ◌∷◌, [], OnOk};

use rk_base::NoMemory;
use std::alloc::Global;
use std::marker::Model;

/// A byte, and whether a backslash quoted it.
#[derive(Clone, Copy, Debug)]
pub struct Marked {
    pub byte: u8,
    pub quoted: bool,
}

/// The bytes of a line.
#[derive(Debug, Drop)]
pub struct Marks {
    marks: Vec<Marked>,
}

impl Model for Marks {
    ghost use Rattle.std.specs.Prelude.{List};
    ghost use Rattle.sh_builtin.specs.declared.marks.Marked.{Marked};

    ghost Value = { List Marked };

    ghost view = { λ m. m.marks.items };
}

impl Marks {
    pub(crate) fn new(alloc: Global) -> Marks
        ensures { result ≡ [] }
    {
        Marks {
            marks: Vec::new(alloc),
        }
    }

    pub(crate) fn push(&mut self, mark: Marked) -> Result<(), NoMemory>
        ensures { OnOk result (self.new ≡ self.old ++ mark ∷ []) }
    {
        self.marks.push(mark)?;
        Ok(())
    }

    pub(crate) fn as_slice(&self) -> &[Marked]
        ensures { result.now ≡ self.now }
    {
        self.marks.as_slice()
    }
}
