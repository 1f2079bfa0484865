// What `test` decides by its operands alone.
ghost use Rattle.std.specs.Prelude.{◌≡◌, IfOk, false, None};
ghost use Rattle.rk_base.specs.Text.{same_text};
ghost use Rattle.sh_operands.specs.declared.verdict.Verdict.TheVariants as verdict;
ghost use Rattle.sh_operands.specs.Numbers.{number};
ghost use Rattle.sh_operands.specs.Verdicts.{is_bang, negated, one, unary, two, compares, binary, three, four, decides};

use crate::number::{Number, number_of};
use crate::primary::{Operator, Primary, operator_of, primary_of, relates};
use rk_base::{Bytes, NoMemory};

/// What operands decide.
#[derive(Debug, Drop)]
pub enum Verdict {
    /// It is so, or not.
    Holds(bool),
    /// It is what stands at a path that decides, or its opposite.
    Asks {
        primary: Primary,
        operand: Bytes,
        negated: bool,
    },
    /// They are no test; this operand is told.
    Misused(Bytes),
}

fn is_bang(word: &Bytes) -> bool
    ensures { result ≡ is_bang word.now }
{
    word.as_slice() == b"!".as_slice()
}

fn negated(verdict: Verdict) -> Verdict
    ensures { result ≡ negated verdict }
{
    match verdict {
        Verdict::Holds(b) => Verdict::Holds(!b),
        Verdict::Asks {
            primary,
            operand,
            negated,
        } => Verdict::Asks {
            primary,
            operand,
            negated: !negated,
        },
        Verdict::Misused(word) => Verdict::Misused(word),
    }
}

fn one(x: &Bytes) -> Verdict
    ensures { result ≡ one x.now }
{
    match x.as_slice() {
        [] => Verdict::Holds(false),
        [_, ..] => Verdict::Holds(true),
    }
}

fn is_no_text(x: &Bytes) -> Verdict
    ensures { result ≡ negated (one x.now) }
{
    match x.as_slice() {
        [] => Verdict::Holds(true),
        [_, ..] => Verdict::Holds(false),
    }
}

fn misused(word: &Bytes) -> Result<Verdict, NoMemory>
    ensures { IfOk result (λ v. v ≡ verdict.Misused word.now) }
{
    let word = word.copy()?;
    Ok(Verdict::Misused(word))
}

fn asks(primary: Primary, operand: &Bytes) -> Result<Verdict, NoMemory>
    ensures { IfOk result (λ v. v ≡ verdict.Asks primary operand.now false) }
{
    let operand = operand.copy()?;
    Ok(Verdict::Asks {
        primary,
        operand,
        negated: false,
    })
}

fn unary(primary: Option<Primary>, op: &Bytes, x: &Bytes) -> Result<Verdict, NoMemory>
    ensures { IfOk result (λ v. v ≡ unary primary op.now x.now) }
{
    match primary {
        None => misused(op),
        Some(primary) => match primary {
            Primary::HasBytes => Ok(one(x)),
            Primary::Empty => Ok(is_no_text(x)),
            Primary::Exists => asks(Primary::Exists, x),
            Primary::IsFile => asks(Primary::IsFile, x),
            Primary::IsDir => asks(Primary::IsDir, x),
            Primary::IsLink => asks(Primary::IsLink, x),
            Primary::Readable => asks(Primary::Readable, x),
            Primary::Writable => asks(Primary::Writable, x),
            Primary::Executable => asks(Primary::Executable, x),
            Primary::HasSize => asks(Primary::HasSize, x),
        },
    }
}

fn two(op: &Bytes, x: &Bytes) -> Result<Verdict, NoMemory>
    ensures { IfOk result (λ v. v ≡ two op.now x.now) }
{
    if is_bang(op) {
        return Ok(negated(one(x)));
    }
    let primary = primary_of(op.as_slice());
    unary(primary, op, x)
}

fn compares(
    op: Operator,
    a: &Bytes,
    b: &Bytes,
    m: Option<Number>,
    n: Option<Number>,
) -> Result<Verdict, NoMemory>
    ensures { IfOk result (λ v. v ≡ compares op a.now b.now m n) }
{
    match m {
        None => misused(a),
        Some(m) => match n {
            None => misused(b),
            Some(n) => Ok(Verdict::Holds(relates(op, m, n))),
        },
    }
}

fn numbers(op: Operator, a: &Bytes, b: &Bytes) -> Result<Verdict, NoMemory>
    ensures { IfOk result (λ v. v ≡ compares op a.now b.now (number a.now) (number b.now)) }
{
    compares(op, a, b, number_of(a.as_slice()), number_of(b.as_slice()))
}

fn not_between(a: &Bytes, op: &Bytes, b: &Bytes) -> Result<Verdict, NoMemory>
    ensures { IfOk result (λ v. v ≡ binary None a.now op.now b.now) }
{
    if is_bang(a) {
        let verdict = two(op, b)?;
        return Ok(negated(verdict));
    }
    misused(op)
}

fn is_same(a: &Bytes, b: &Bytes) -> bool
    ensures { result ≡ same_text a.now b.now }
{
    a.as_slice() == b.as_slice()
}

fn binary(operator: Option<Operator>, a: &Bytes, op: &Bytes, b: &Bytes) -> Result<Verdict, NoMemory>
    ensures { IfOk result (λ v. v ≡ binary operator a.now op.now b.now) }
{
    match operator {
        None => not_between(a, op, b),
        Some(operator) => match operator {
            Operator::Same => Ok(Verdict::Holds(is_same(a, b))),
            Operator::Differs => Ok(Verdict::Holds(!is_same(a, b))),
            Operator::Equal => numbers(Operator::Equal, a, b),
            Operator::NotEqual => numbers(Operator::NotEqual, a, b),
            Operator::Greater => numbers(Operator::Greater, a, b),
            Operator::GreaterOrEqual => numbers(Operator::GreaterOrEqual, a, b),
            Operator::Less => numbers(Operator::Less, a, b),
            Operator::LessOrEqual => numbers(Operator::LessOrEqual, a, b),
        },
    }
}

fn three(a: &Bytes, op: &Bytes, b: &Bytes) -> Result<Verdict, NoMemory>
    ensures { IfOk result (λ v. v ≡ three a.now op.now b.now) }
{
    let operator = operator_of(op.as_slice());
    binary(operator, a, op, b)
}

fn four(a: &Bytes, b: &Bytes, c: &Bytes, d: &Bytes) -> Result<Verdict, NoMemory>
    ensures { IfOk result (λ v. v ≡ four a.now b.now c.now d.now) }
{
    if is_bang(a) {
        let verdict = three(b, c, d)?;
        return Ok(negated(verdict));
    }
    misused(a)
}

/// What the operands decide, by how many there are.
pub fn decides(operands: &[Bytes]) -> Result<Verdict, NoMemory>
    ensures { IfOk result (λ v. v ≡ decides operands.now) }
{
    match operands {
        [] => Ok(Verdict::Holds(false)),
        [a] => Ok(one(a)),
        [a, b] => two(a, b),
        [a, b, c] => three(a, b, c),
        [a, b, c, d] => four(a, b, c, d),
        [_, _, _, _, e, ..] => misused(e),
    }
}
