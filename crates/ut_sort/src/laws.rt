// Laws over the definitions alone.
ghost use Rattle.ut_sort.specs.Laws.{EachIsCommandTalk, EachIsInOrder, EachKeepsItsFirst};

/// Whatever the words are, fewer turns only cut what the utility says, and a mode in a call that it asks is at most
/// 0777.
pub fn sort_says_what_commands_may()
    ensures { EachIsCommandTalk }
{}

/// Lines in order are the lines of the inputs, each as often, and none of them comes before the one ahead of it.
pub fn sort_puts_lines_in_order()
    ensures { EachIsInOrder }
{}

/// Of the lines whose keys are equal, the first in the inputs stays alone with `-u`.
pub fn sort_keeps_the_first_of_equal_keys()
    ensures { EachKeepsItsFirst }
{}
