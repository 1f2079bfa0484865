// Laws over the definitions alone.
ghost use Rattle.sh_means.specs.Laws.{EachIsCommandTalk, EachMeansItsJob, EachShellIsACommand};
ghost use Rattle.sh_means.specs.Loops.{EachCounts, EachLeaves};

/// Fewer turns only cut what a script says, and a mode in a call that it asks is at most 0777: from any state, at any place,
/// and however texts read.
pub fn scripts_say_what_commands_may()
    ensures { EachIsCommandTalk }
{}

/// A round of a loop, the body of a function and a text that is read at run time mean what their definitions say, by the
/// same meaning: the turns that each pays bound how often it is evaluated again.
pub fn what_is_evaluated_again_means_its_job()
    ensures { EachMeansItsJob }
{}

/// What the shell of a key says is what a command may say, of the script that it is given and of the one that its words name.
pub fn shells_say_what_commands_may()
    ensures { EachShellIsACommand }
{}

/// The loops around a command are counted as far as 64 bits go, and no `break` or `continue` tells more of them apart.
pub fn loops_are_counted_far_enough()
    ensures counts { EachCounts }
    ensures leaves { EachLeaves }
{}
