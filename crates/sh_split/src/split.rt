// The fields of an expanded word.
ghost use Rattle.std.specs.Prelude.{◌≡◌, ◌++◌, [], IfOk, OnOk};
ghost use Rattle.sh_split.specs.Marks.{kind};
ghost use Rattle.sh_split.specs.Cutting.{IsCutting};
ghost use Rattle.sh_split.specs.Pass.{fields_from, last_of, cut_fields};

use crate::mark::{Field, Mark, kind_of_mark};
use crate::pass::{State, end, put};
use rk_base::NoMemory;
use std::alloc::Global;

// Ends the field that is open at the text's end.
fn finish(state: State, fields: &mut Vec<Field>, open_field: &mut Vec<Mark>) -> Result<(), NoMemory>
    ensures { OnOk result (fields.new.items ≡ fields.old.items ++ last_of state open_field.old.items) }
{
    match state {
        State::Gap => Ok(()),
        State::In => end(fields, open_field),
        State::After => Ok(()),
    }
}

fn pass(alloc: Global, ifs: &[u8], marks: &[Mark]) -> Result<Vec<Field>, NoMemory>
    ensures { IfOk result (λ fields. fields.items ≡ fields_from (kind ifs.now) State.Gap [] marks.now) }
{
    let mut fields = Vec::new(alloc);
    let mut open_field = Vec::new(alloc);
    let mut state = State::Gap;
    'marks: for mark in marks {
        let kind = kind_of_mark(ifs, *mark);
        state = put(kind, state, *mark, &mut fields, &mut open_field)?;
    }
    finish(state, &mut fields, &mut open_field)?;
    Ok(fields)
}

/// The fields that the marks of a word are cut into (XCU 2.6.5), where IFS has these bytes; none of them cuts nothing.
pub fn split_fields(alloc: Global, ifs: &[u8], marks: &[Mark]) -> Result<Vec<Field>, NoMemory>
    ensures cutting { IfOk result (λ fields. IsCutting (kind ifs.now) marks.now fields.items) }
    ensures fields { IfOk result (λ fields. fields.items ≡ cut_fields (kind ifs.now) marks.now) }
{
    let fields = pass(alloc, ifs, marks)?;
    Ok(fields)
}
