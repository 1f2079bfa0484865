// What are names of variables, and lists of them.
ghost use Rattle.std.specs.Prelude.{◌≡◌};
ghost use Rattle.std.specs.List.{list_all};
ghost use Rattle.std.specs.Ordering.{is_lt};
ghost use Rattle.rk_base.specs.Names.{ascend, ascend_from};
ghost use Rattle.rk_base.specs.Text.{text_cmp};
ghost use Rattle.rk_base.specs.Variables.{is_start, is_more, is_variable, names_of, are_variables};

use crate::{Bytes, Var};

fn is_start(b: u8) -> bool
    ensures { result ≡ is_start b }
{
    65 <= b && b <= 90 || 97 <= b && b <= 122 || b == 95
}

fn is_more(b: u8) -> bool
    ensures { result ≡ is_more b }
{
    is_start(b) || 48 <= b && b <= 57
}

fn all_more(text: &[u8]) -> bool
    ensures { result ≡ list_all is_more text.now }
{
    text.iter().all(|b| is_more(*b))
}

/// Whether it is the name of a variable: a letter or `_`, then letters, digits and `_` (XBD 3.235).
pub fn is_variable(name: &[u8]) -> bool
    ensures { result ≡ is_variable name.now }
{
    match name {
        [] => false,
        [first, rest @ ..] => is_start(*first) && all_more(rest),
    }
}

fn is_below(a: &Bytes, b: &Bytes) -> bool
    ensures { result ≡ is_lt (text_cmp a.now b.now) }
{
    a < b
}

fn ascends_from(first: &Bytes, vars: &[Var]) -> bool
    ensures { result ≡ ascend_from first.now (names_of vars.now) }
{
    let mut last = first;
    'vars: for var in vars {
        if !is_below(last, &var.name) {
            return false;
        }
        last = &var.name;
    }
    true
}

fn ascends(vars: &[Var]) -> bool
    ensures { result ≡ ascend (names_of vars.now) }
{
    match vars {
        [] => true,
        [var, rest @ ..] => ascends_from(&var.name, rest),
    }
}

fn all_named(vars: &[Var]) -> bool
    ensures { result ≡ list_all (λ v. is_variable v.name) vars.now }
{
    vars.iter().all(|var| is_variable(var.name.as_slice()))
}

/// Whether these are variables, ascending by name.
#[tactic(auto, unfolding(crate::specs::Variables::are_variables))]
pub(crate) fn are_variables(vars: &[Var]) -> bool
    ensures { result ≡ are_variables vars.now }
{
    all_named(vars) && ascends(vars)
}
