// What special builtins change.
ghost use Rattle.std.specs.Prelude.{◌≡◌, IfOk, OnOk, false, drop};
ghost use Rattle.sh_vars.specs.Held.{is_readonly, assigned};
ghost use Rattle.sh_special.specs.Changes.{is_barred, with_value, marked, declared, declare_all, unset_all, has_shift, shifted, or_before, with_options};

use crate::{Declaration, Options};
use rk_base::{Bytes, NoMemory};
use sh_vars::{Env, VarErr, Vars};

fn is_barred(d: &Declaration, vars: &Vars) -> bool
    ensures { result ≡ is_barred d.now.value d.now.name vars.now }
{
    match &d.value {
        None => false,
        Some(_) => vars.is_readonly(d.name.as_slice()),
    }
}

fn assign(vars: &mut Vars, x: &[u8], value: &[u8]) -> Result<(), NoMemory>
    requires { is_readonly vars.old x.now ≡ false }
    ensures { OnOk result (vars.new ≡ assigned x.now value.now vars.old) }
{
    match vars.set(x, value) {
        Ok(()) => Ok(()),
        Err(VarErr::NoMemory) => Err(NoMemory),
        Err(VarErr::Readonly) => unreachable!(),
    }
}

fn give(d: &Declaration, vars: &mut Vars) -> Result<(), NoMemory>
    requires { is_barred d.now.value d.now.name vars.old ≡ false }
    ensures { OnOk result (vars.new ≡ with_value d.now.value d.now.name vars.old) }
{
    match &d.value {
        None => Ok(()),
        Some(value) => assign(vars, d.name.as_slice(), value.as_slice()),
    }
}

fn mark(readonly: bool, x: &[u8], vars: &mut Vars) -> Result<(), NoMemory>
    ensures { OnOk result (vars.new ≡ marked readonly x.now vars.old) }
{
    if readonly {
        vars.readonly(x)
    } else {
        vars.export(x)
    }
}

/// Variables take their values, where such stand, and are readonly or else exported from now on, one after another. The
/// name of the first that is readonly and would take a value; from there on nothing changes.
pub fn declare_all(
    vars: &mut Vars,
    readonly: bool,
    declarations: &[Declaration],
) -> Result<Option<Bytes>, NoMemory>
    ensures barred { IfOk result (λ barred. barred ≡ (declare_all readonly declarations.now vars.old).barred) }
    ensures held { OnOk result (vars.new ≡ (declare_all readonly declarations.now vars.old).held) }
{
    'declarations: for d in declarations {
        if is_barred(d, vars) {
            let name = d.name.copy()?;
            return Ok(Some(name));
        }
        give(d, vars)?;
        mark(readonly, d.name.as_slice(), vars)?;
    }
    Ok(None)
}

/// Variables are unset, one after another. The name of the first that is readonly; from there on nothing changes.
pub fn unset_all(vars: &mut Vars, names: &[Bytes]) -> Result<Option<Bytes>, NoMemory>
    ensures barred { IfOk result (λ barred. barred ≡ (unset_all names.now vars.old).barred) }
    ensures held { OnOk result (vars.new ≡ (unset_all names.now vars.old).held) }
{
    'names: for x in names {
        if vars.is_readonly(x.as_slice()) {
            let name = x.copy()?;
            return Ok(Some(name));
        }
        let _ = vars.unset(x.as_slice())?;
    }
    Ok(None)
}

/// The first n positional parameters go. False, with nothing changed, exactly where there are fewer.
pub fn shift(vars: &mut Vars, n: u64) -> bool
    ensures answer { result ≡ has_shift n vars.old }
    ensures held { vars.new ≡ shifted n vars.old }
{
    let count = vars.positional().len();
    if n > count as u64 {
        return false;
    }
    vars.shift(n as usize);
    true
}

fn or_before(now: Option<bool>, before: bool) -> bool
    ensures { result ≡ or_before now before }
{
    match now {
        None => before,
        Some(now) => now,
    }
}

/// `set -u` and `set -f`, as far as they are named.
pub fn set_options(options: Options, env: &mut Env)
    ensures { env.new ≡ with_options options env.old }
{
    env.nounset = or_before(options.nounset, env.nounset);
    env.noglob = or_before(options.noglob, env.noglob);
}
