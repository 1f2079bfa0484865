// Laws over the definitions alone.
ghost use Rattle.ut_filter.specs.Laws.{EachIsCommandTalk};

/// Fewer turns only cut what a filter says, and a mode in a call that it asks is at most 0777.
pub fn filters_say_what_commands_may()
    ensures { EachIsCommandTalk }
{}
