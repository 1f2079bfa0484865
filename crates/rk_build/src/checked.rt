// Every record, checked before the script runs.
ghost use Rattle.std.specs.Prelude.{◌≡◌};
ghost use Rattle.rk_request.specs.Asked.{checks};
ghost use Rattle.tr_record.specs.Generations.{records};
ghost use Rattle.rk_build.specs.Checks.{ChecksSo, StartsChecked};

use crate::options::checks;
use crate::stop::BuildErr;
use rk_calls::Maker;
use rk_replay::check_with;
use rk_request::Request;
use rk_traces::CheckErr;
use tr_record::Kept;

/// Checks every record that is kept, where that is asked for.
pub(crate) fn check_old<M: Maker>(
    maker: &mut M,
    request: &Request,
    old: &Kept,
) -> Result<(), BuildErr>
    ensures checked { ChecksSo M.first (checks request.now) (records old.now) result }
    ensures starts { StartsChecked (checks request.now) (records old.now) (M.starts maker.old) (M.starts maker.new) result }
{
    if !checks(request) {
        return Ok(());
    }
    match check_with(maker, old) {
        Ok(()) => Ok(()),
        Err(CheckErr::Forged { rec, step }) => Err(BuildErr::Forged { rec, step }),
        Err(CheckErr::NoMemory) => Err(BuildErr::NoMemory),
    }
}
