// Laws of lists of calls that were made in part.
ghost use Rattle.rk_install.specs.Halfway.{Finishes, StaysWhole, StopsAgain, StopsHalfway};
ghost use Rattle.rk_install.specs.Install.{Allows, LeadsSame, Leaves, StaysUnsealed, StopsSealed};
ghost use Rattle.rk_install.specs.Recovery.{NeverDamaged, RecoversAll, StaysSealed};

/// A folder that was left halfway through the calls of a list is finished from there, whatever was made before and whatever a
/// failed write left; and where finishing it is cut short, it is halfway again. It does nothing.
pub fn finishes()
    ensures whole { StaysWhole }
    ensures stops { StopsHalfway }
    ensures finishes { Finishes }
    ensures again { StopsAgain }
    ensures recovers { RecoversAll }
    ensures sealed { StaysSealed }
    ensures undamaged { NeverDamaged }
{}

/// An install that is stopped once its list is sealed is halfway through the list, from the moment at which it was sealed; and
/// all its calls lead to what the list leads to from there. A folder that allows the calls of a list allows its install, which
/// leaves what they alone leave. It does nothing.
pub fn installs()
    ensures stops { StopsSealed }
    ensures leads { LeadsSame }
    ensures unsealed { StaysUnsealed }
    ensures allows { Allows }
    ensures leaves { Leaves }
{}
