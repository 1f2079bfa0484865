// Laws of the spelling.
ghost use Rattle.tr_nodes.specs.Laws.{OneSpelling, KnownByNumbers};

/// No two lists of talks have one spelling. It does nothing.
pub fn one_spelling()
    ensures { OneSpelling }
{}

/// What a reader tests by numbers alone is exactly that nodes and heads are a spelling. It does nothing.
pub fn known_by_numbers()
    ensures { KnownByNumbers }
{}
