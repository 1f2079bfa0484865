// Laws over the definitions alone.
ghost use Rattle.sh_builtin.specs.Laws.{EachIsAlike, EachIsCommandTalk, EachByNameIsCommandTalk};
ghost use Rattle.sh_builtin.specs.ReadLaws.{OneLine, OneValueEach};

/// What a builtin does keeps what is alike after it: fewer turns only cut it, and a mode in a call that it asks is at most
/// 0777.
pub fn builtins_keep_what_is_alike()
    ensures { EachIsAlike }
{}

/// A builtin that runs as a command by itself says what commands may say.
pub fn builtins_say_what_commands_may()
    ensures { EachIsCommandTalk }
{}

/// A builtin that is launched by its name says what commands may say.
pub fn builtins_by_name_say_what_commands_may()
    ensures { EachByNameIsCommandTalk }
{}

/// The line that `read` takes of a text is the one at its front: a backslash quotes a byte or joins two lines, but for `-r`,
/// and a newline ends it (XCU 4, `read`).
pub fn one_line()
    ensures { OneLine }
{}

/// The variables of `read` have the one list of values by the fields of its line, as IFS cuts it (XCU 4, `read`, and 2.6.5).
pub fn one_value_each()
    ensures { OneValueEach }
{}
