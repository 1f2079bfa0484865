// Whether the last item may be repeated.
ghost use Rattle.std.specs.Prelude.{◌≡◌};
ghost use Rattle.ut_bre.specs.Reading.{is_single, is_nothing};

/// What stands last: nothing, an item that may be repeated, or one that is.
#[derive(Clone, Copy, Debug)]
pub(crate) enum Last {
    Nothing,
    Single,
    Repeated,
}

impl Last {
    pub(crate) fn is_single(self) -> bool
        ensures { result ≡ is_single self }
    {
        match self {
            Last::Nothing => false,
            Last::Single => true,
            Last::Repeated => false,
        }
    }

    pub(crate) fn is_nothing(self) -> bool
        ensures { result ≡ is_nothing self }
    {
        match self {
            Last::Nothing => true,
            Last::Single => false,
            Last::Repeated => false,
        }
    }
}
