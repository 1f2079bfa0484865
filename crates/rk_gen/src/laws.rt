// Laws of made folders and of their edits.
ghost use Rattle.rk_gen.specs.Visible.{EditsPlainly, StartsPlainly};

/// Each edit of a made workload leaves `.rkr` as it was, and nothing special where nothing was. It does nothing.
pub fn edits_plainly()
    ensures { EditsPlainly }
{}

/// A seed's folder has nothing special, and nothing in `.rkr`. It does nothing.
pub fn starts_plainly()
    ensures { StartsPlainly }
{}
