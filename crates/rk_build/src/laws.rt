// Laws of what a folder's contents call for, of what a build leaves, and of sessions.
ghost use Rattle.rk_build.specs.Laws.{FindsNext, FreshSpoken, RefusedSettle, SpokenSettle};
ghost use Rattle.rk_build.specs.Sessions.{StaysWell};
ghost use Rattle.rk_build.specs.Stops.{FinishesAfter, LeadsOnAgain, StaysUndamaged, StopsSealed};

/// A folder that is refused as it stands calls for that refusal, and else only for want of memory. It does nothing.
pub fn refused_settle()
    ensures { RefusedSettle }
{}

/// A folder that is well and keeps spoken records, or none, calls for the end of its fresh run, with its status, or for
/// Spent where that run is spent, and else only for want of memory. It does nothing.
pub fn spoken_settle()
    ensures { SpokenSettle }
{}

/// Each record of a fresh run is what its command says. It does nothing.
pub fn fresh_spoken()
    ensures { FreshSpoken }
{}

/// A folder that holds what a run leaves has, with the rows of its attributes, the very entries that the run left, and
/// keeps its records. It does nothing.
pub fn finds_next()
    ensures { FindsNext }
{}

/// In a session that begins well, with a database that is absent or spoken, it is so at every item. It does nothing.
pub fn stays_well()
    ensures { StaysWell }
{}

/// A build that stopped while it installed left all as it was, but that the hidden directory may stand and a list that isn't
/// sealed; or the list stands sealed, and finishing it leaves just what the build was to leave, however often that is cut short
/// before; and the list is never damaged. It does nothing.
pub fn stops_finish()
    ensures stops { StopsSealed }
    ensures finishes { FinishesAfter }
    ensures again { LeadsOnAgain }
    ensures undamaged { StaysUndamaged }
{}
