// Laws over the definitions alone.
ghost use Rattle.ut_find.specs.Laws.{EachIsCommandTalk};

/// Whatever the words are, fewer turns only cut what the utility says, and a mode in a call that it asks is at most
/// 0777.
pub fn find_says_what_commands_may()
    ensures { EachIsCommandTalk }
{}
