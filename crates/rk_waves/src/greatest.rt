// The greatest waves after the pieces that touch a cell.
ghost use Rattle.std.specs.Prelude.{◌≡◌};
ghost use Rattle.rk_waves.specs.Table.{but, fresh_cell, none, with_wave};

/// Of the pieces that touch a cell in one way: the wave after the last of them, whose command that is, and the wave after
/// the last of any other command.
#[derive(Clone, Copy, Debug)]
pub(crate) struct Greatest {
    pub(crate) after: usize,
    pub(crate) owner: usize,
    pub(crate) next: usize,
}

/// What earlier pieces did to a cell, and whether it only gathers what other cells hold.
#[derive(Clone, Copy, Debug)]
pub(crate) struct CellWaves {
    pub(crate) gathers: bool,
    pub(crate) read: Greatest,
    pub(crate) written: Greatest,
}

impl Greatest {
    // Of no piece.
    pub(crate) fn none() -> Greatest
        ensures value { result ≡ none }
    {
        Greatest {
            after: 0,
            owner: 0,
            next: 0,
        }
    }

    // The least wave that the pieces of others than this command leave.
    pub(crate) fn but(self, owner: usize) -> usize
        ensures value { result ≡ but self owner }
    {
        if self.owner == owner {
            self.next
        } else {
            self.after
        }
    }

    // With a piece more of a command, which is followed by this wave.
    pub(crate) fn with(self, owner: usize, after: usize) -> Greatest
        ensures value { result ≡ with_wave self owner after }
    {
        if self.owner == owner {
            Greatest {
                after: self.after.max(after),
                ..self
            }
        } else if self.after < after {
            Greatest {
                after,
                owner,
                next: self.after,
            }
        } else {
            Greatest {
                next: self.next.max(after),
                ..self
            }
        }
    }
}

impl CellWaves {
    // Of a cell that no piece has touched.
    pub(crate) fn new(gathers: bool) -> CellWaves
        ensures value { result ≡ fresh_cell gathers }
    {
        CellWaves {
            gathers,
            read: Greatest::none(),
            written: Greatest::none(),
        }
    }
}
