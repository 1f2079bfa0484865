// Laws over the definitions alone.
ghost use Rattle.ut_bre.specs.Found.{EachSpanIsFound, EachMatchIsFound};
ghost use Rattle.ut_bre.specs.Numbers.{EachGroupHasItsPlace};
ghost use Rattle.ut_bre.specs.Spelling.{EachIsReadBack};

/// Of each expression a line has, from each place on, one leftmost longest match or none, and its groups take one thing each.
pub fn one_match()
    ensures spans { EachSpanIsFound }
    ensures groups { EachMatchIsFound }
{}

/// What each group of an expression took has a place among what is told of a match: none is dropped.
pub fn groups_have_places()
    ensures { EachGroupHasItsPlace }
{}

/// Each expression that can be spelt is read back from its spelling as itself.
pub fn spelling_reads_back()
    ensures { EachIsReadBack }
{}
