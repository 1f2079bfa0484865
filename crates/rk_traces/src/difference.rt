// Where two records differ.
ghost use Rattle.std.specs.Prelude.{◌≡◌, IfSome, IfNone};
ghost use Rattle.rk_calls.specs.Keys.{KeyValue};
ghost use Rattle.rk_calls.specs.Talk.{Says};
ghost use Rattle.rk_traces.specs.Lasting.{AllLast};
ghost use Rattle.rk_traces.specs.Spoken.{IsSpoken};
ghost use Rattle.rk_traces.specs.Differences.{IsFirstDifference, AnswerAlike, DifferFrom};

use rk_calls::same_answer;
use tr_record::Record;

/// The first step, from 0 on, that both records have and at which their answers differ; `None` exactly where
/// there is none.
///
/// Spoken records of one key have the same calls and costs up to that step and at it; where there is none, they
/// are the same but for their ordinals.
pub fn first_difference(a: &Record, b: &Record) -> Option<usize>
    ensures first { IfSome result (IsFirstDifference a.now.steps b.now.steps) }
    ensures none { IfNone result (AnswerAlike a.now.steps b.now.steps) }
    ensures spoken { (first : KeyValue → Says) → AllLast first → IsSpoken first a.now → IsSpoken first b.now → a.now.key ≡ b.now.key → DifferFrom a.now b.now result }
{
    let mut xs = a.steps.walk();
    let mut ys = b.steps.walk();
    'steps: for i in 0..a.steps.len() {
        let Some((x, more)) = xs.step() else {
            return None;
        };
        let Some((y, others)) = ys.step() else {
            return None;
        };
        if !same_answer(&x.answer, &y.answer) {
            return Some(i);
        }
        xs = more;
        ys = others;
    }
    None
}
