// What a record paid.
ghost use Rattle.std.specs.Prelude.{◌≡◌, ◌<◌, ◌^◌};
ghost use Rattle.rk_traces.specs.Own.{own};

use tr_record::Record;

/// What a command itself paid, in turns: its steps and its end.
pub fn own(rec: &Record) -> u64
    requires { own rec.now < 2 ^ 64 }
    ensures { result ≡ own rec.now }
{
    rec.steps.paid() + rec.exit_cost
}
