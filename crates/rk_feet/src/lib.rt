//! The calls of the world as programs over its cells.
#![tactic(auto)]

ghost use Rattle.rk_feet.specs.Course.{LeadsAlike};
ghost use Rattle.rk_feet.specs.Laws.{ChangesModes, Compares, LinksNames, Lists, MakesDirs, MakesLinks, Opens, Pipes, Reads};
ghost use Rattle.rk_feet.specs.Laws.{ReadsLines, ReadsLinks, RemovesDirs, Renames, Stats, Unlinks, Walks, Writes};
ghost use Rattle.rk_feet.specs.Played.{PlaysKernel};
ghost use Rattle.rk_feet.specs.Snapshots.{AlikeSeenAsOne, StartsByPaths};
ghost use Rattle.rk_feet.specs.Told.{TellsChanges, TellsDescriptions, TellsFeet, TellsQuestions};

/// A law that needs no run: the program of a path reads cells by names, and ends as what is made of the place that the
/// path leads to in the tree.
pub fn leads_alike()
    ensures alike { LeadsAlike }
{}

/// A law that needs no run: what the world gives to the calls that open, read and write is what their programs say.
pub fn descriptions()
    ensures reads { Reads }
    ensures lines { ReadsLines }
    ensures writes { Writes }
    ensures pipes { Pipes }
    ensures opens { Opens }
{}

/// A law that needs no run: what the world gives to the calls that change nothing is what their programs say.
pub fn questions()
    ensures stats { Stats }
    ensures lists { Lists }
    ensures links { ReadsLinks }
    ensures walks { Walks }
    ensures compares { Compares }
{}

/// A law that needs no run: what the world gives to the calls that change the tree is what their programs say.
pub fn changes()
    ensures dirs { MakesDirs }
    ensures links { MakesLinks }
    ensures names { LinksNames }
    ensures unlinks { Unlinks }
    ensures removes { RemovesDirs }
    ensures renames { Renames }
    ensures modes { ChangesModes }
{}

/// A law that needs no run: the world is one whose steps are these programs over its cells. So in waves of pieces without
/// conflict every order of the calls that keeps each command's own gives the answers of the run, and leaves its world.
pub fn plays_kernel()
    ensures plays { PlaysKernel }
{}

/// A law that needs no run: the world of a whole snapshot in which nothing has run is a named one, whose nodes are named by
/// their paths.
pub fn starts_by_paths()
    ensures starts { StartsByPaths }
{}

/// A law that needs no run: worlds that no cell tells apart have the same output, error text and snapshot, each file with
/// the bytes that are known.
pub fn one_snapshot()
    ensures snapshot { AlikeSeenAsOne }
{}

/// A law that needs no run: what the world tells of the calls that change nothing has all that their programs read and write,
/// by the names of its numbers.
pub fn tells_questions()
    ensures tells { TellsQuestions }
{}

/// A law that needs no run: what the world tells of the calls that open, read and write has all that their programs read and
/// write, by the names of its numbers; what a step makes by the numbers that come next.
pub fn tells_descriptions()
    ensures tells { TellsDescriptions }
{}

/// A law that needs no run: what the world tells of the calls that change the tree has all that their programs read and write,
/// by the names of its numbers; a new directory by the number that comes next.
pub fn tells_changes()
    ensures tells { TellsChanges }
{}

/// A law that needs no run: what the world tells of the call of a step has all that the step reads and writes.
pub fn tells_feet()
    ensures tells { TellsFeet }
{}
