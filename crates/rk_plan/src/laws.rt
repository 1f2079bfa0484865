// Laws of recorded runs.
ghost use Rattle.rk_plan.specs.Laws.{AreRetraced};

/// The records of a fresh run, gone through once more, have the calls of that run in its order, each with its answer, and leave
/// the world that the run left. It does nothing.
pub fn retraced()
    ensures { AreRetraced }
{}
