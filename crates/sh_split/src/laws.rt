// Laws over the definitions alone.
ghost use Rattle.sh_split.specs.Laws.{OneCutting};

/// The fields that a word means are the one cutting by the rules (XCU 2.6.5).
pub fn one_cutting()
    ensures { OneCutting }
{}
