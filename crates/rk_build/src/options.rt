// What is asked of a build.
ghost use Rattle.std.specs.Prelude.{◌≡◌, ◌<◌, ◌^◌};
ghost use Rattle.rk_request.specs.Asked.{checks, explains, is_fresh, turns};

use rk_request::Request;

/// The turns within which it is to end; none of what isn't a build.
pub(crate) fn turns(request: &Request) -> u64
    ensures turns { result ≡ turns request.now }
    ensures few { turns request.now < 2 ^ 64 }
{
    match request {
        Request::Build { steps, .. } => *steps,
        Request::Check => 0,
        Request::Trace { .. } => 0,
        Request::Forget => 0,
        Request::Gen(_) => 0,
    }
}

/// Whether the lines of what ran and why are asked for.
pub(crate) fn explains(request: &Request) -> bool
    ensures { result ≡ explains request.now }
{
    match request {
        Request::Build { explain, .. } => *explain,
        Request::Check => false,
        Request::Trace { .. } => false,
        Request::Forget => false,
        Request::Gen(_) => false,
    }
}

/// Whether the recorded table counts as empty.
pub(crate) fn is_fresh(request: &Request) -> bool
    ensures { result ≡ is_fresh request.now }
{
    match request {
        Request::Build { fresh, .. } => *fresh,
        Request::Check => false,
        Request::Trace { .. } => false,
        Request::Forget => false,
        Request::Gen(_) => false,
    }
}

/// Whether every record is to be checked before the script runs.
pub(crate) fn checks(request: &Request) -> bool
    ensures { result ≡ checks request.now }
{
    match request {
        Request::Build { check, .. } => *check,
        Request::Check => false,
        Request::Trace { .. } => false,
        Request::Forget => false,
        Request::Gen(_) => false,
    }
}
