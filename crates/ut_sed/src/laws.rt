// Laws over the definitions alone.
ghost use Rattle.ut_sed.specs.Laws.{EachIsCommandTalk};
ghost use Rattle.ut_sed.specs.Replacing.{EachMatchIsTaken, EachIsReplaced};

/// Whatever the words are, fewer turns only cut what `sed` says, and a mode in a call that it asks is at most 0777.
pub fn sed_says_what_commands_may()
    ensures { EachIsCommandTalk }
{}

/// The matches that `s` goes by in a line are taken from left to right: each is the leftmost behind the one before it, and
/// the longest there, and they end only where there is none behind the last. What stands for the one of the given number,
/// and with `g` for each behind it, is put in its place, and the bytes between them stay (XCU sed, "Editing Commands in
/// sed").
pub fn s_replaces_each_match()
    ensures taken { EachMatchIsTaken }
    ensures replaced { EachIsReplaced }
{}
