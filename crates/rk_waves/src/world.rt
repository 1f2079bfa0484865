// Worlds that are seen by their cells, and what holds of the waves of their steps.
ghost use Rattle.std.specs.Prelude.{Bool, ℕ};
ghost use Rattle.rk_waves.specs.Least.{AreLeast as AreLeastByNumbers};
ghost use Rattle.rk_waves.specs.Numbered.{ByNumbers};
ghost use Rattle.rk_waves.specs.Programs.{by_cells};
ghost use Rattle.rk_waves.specs.Waves.{AreLeast, ConflictByMore, InWaves, InWavesApart};

/// A world that is seen by its cells, whose steps are programs over them.
pub trait ByCells {
    ghost use Rattle.rk_waves.specs.Programs.{Programmed};

    /// What holds the cells.
    ghost World: { Type 0 };

    ghost Step: { Type 0 };

    /// The cells that hold something of their own.
    ghost Plain: { Type 0 };

    /// The cells that gather what plain ones hold.
    ghost Group: { Type 0 };

    ghost Value: { Type 0 };

    ghost Answer: { Type 0 };

    /// The program of each step, and that the world does what it says.
    ghost programmed: { Programmed World Step Plain Group Value Answer };
}

/// A law that needs no run. From the world that the waves before leave, each order of a wave's steps that keeps each
/// command's own gives each step the answer of the run, and after the last wave the world is like the run's. The waves are
/// the least that the two rules allow.
pub fn in_waves<W: ByCells>()
    ensures waves { InWaves (by_cells W.programmed) }
    ensures least { AreLeast (by_cells W.programmed) }
    // Any other waves do that keep pieces apart, as those by feet that have more cells than the steps touch.
    ensures apart { InWavesApart (by_cells W.programmed) }
    ensures more { ConflictByMore (by_cells W.programmed) }
{}

/// A law that needs no run: a wave of pieces by the numbers of their cells is the least number that the two rules allow.
pub fn least_waves()
    ensures least { (gathers : ℕ → Bool) → AreLeastByNumbers gathers }
{}

/// A law that needs no run: the least wave of a piece of steps is that of the numbers of its cells, however these are
/// numbered.
pub fn by_numbers<W: ByCells>()
    ensures numbers { ByNumbers (by_cells W.programmed) }
{}
