// A law of made workloads.
ghost use Rattle.rk_top.specs.Generated.{HaveOneLine};

/// The session of a seed comes to one line: no two stages are reached. It does nothing.
pub fn have_one_line()
    ensures { HaveOneLine }
{}
