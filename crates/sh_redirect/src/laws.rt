// Laws over the definitions alone.
ghost use Rattle.sh_redirect.specs.Laws.{EachIsAlike};

/// What a redirection does keeps what is alike after it: fewer turns only cut it, and its calls are proper.
pub fn redirections_keep_what_is_alike()
    ensures { EachIsAlike }
{}
