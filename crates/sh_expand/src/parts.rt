// What the parts of a word do.
ghost use Rattle.std.specs.Prelude.{◌≡◌, ◌++◌, ◌+◌, ◌<◌, [], ℕ, IfOk, OnOk, true, false};
ghost use Rattle.rk_base.specs.Text.{Text};
ghost use Rattle.sh_ast.specs.Parameters.{spelling};
ghost use Rattle.sh_ast.specs.Words.{part, parts};
ghost use Rattle.sh_split.specs.Marked.{text_of};
ghost use Rattle.sh_vars.specs.declared.env.Env.{Env};
ghost use Rattle.sh_expand.specs.Values.{values, value};
ghost use Rattle.sh_expand.specs.Expands.{Body, Ended, Failed, is_quoted, literal_marks, unset, use_of, with_values, got, unmeasured, measured, assigning, taken, computed, not_set, manner_of, expand, expand_part, expand_word, expand_text};
ghost use Rattle.sh_expand.specs.Acting.{Does, word_of, parts_in, counts, outcome_by, used_as, acted_size, size, size_part, size_word};

use crate::acts::{Acted, Then, take};
use crate::parameters::{counts, is_apart, separator, value, values};
use rk_base::{Bytes, NoMemory, WordList};
use sh_ast::{Condition, Parameter, Part, Parts, Quoting, Removal, Substitute};
use sh_split::{Mark, joined, put_all, put_given, put_literal};
use sh_vars::Env;
use std::alloc::Global;
use std::rc::Rc;

fn is_quoted(quoting: Quoting) -> bool
    ensures { result ≡ is_quoted quoting }
{
    match quoting {
        Quoting::Quoted => true,
        Quoting::Unquoted => false,
    }
}

// The bytes of a word itself; whether it is an operator's.
fn put_text(
    inner: bool,
    quoting: Quoting,
    text: &[u8],
    marks: &mut Vec<Mark>,
) -> Result<(), NoMemory>
    ensures { OnOk result (marks.new.items ≡ marks.old.items ++ literal_marks inner quoting text.now) }
{
    match quoting {
        Quoting::Quoted => put_given(true, text, marks),
        Quoting::Unquoted => if inner {
            put_given(false, text, marks)
        } else {
            put_literal(text, marks)
        },
    }
}

// A fault of a parameter.
fn fault(alloc: Global, parameter: &Parameter, message: &[u8]) -> Result<Acted, NoMemory>
    ensures less { IfOk result (λ acted. acted_size acted < 1) }
    ensures is { IfOk result (λ acted. acted ≡ Acted.Fault (spelling parameter.now) message.now) }
{
    let parameter = Bytes::from_slice(alloc, parameter.spelling())?;
    let message = Bytes::from_slice(alloc, message)?;
    Ok(Acted::Fault(parameter, message))
}

/// The parts, shared once more.
pub(crate) fn share(parts: &Rc<Parts>) -> Result<Rc<Parts>, NoMemory>
    ensures { IfOk result (λ copy. copy.value ≡ parts.now.value) }
{
    let copy = parts.clone()?;
    Ok(copy)
}

// An operator's word where it stands.
fn put_word(
    splits: bool,
    quoted: bool,
    word: &Option<Rc<Parts>>,
    marks: &mut Vec<Mark>,
) -> Result<Acted, NoMemory>
    ensures less { IfOk result (λ acted. acted_size acted < size_word (word_of word.now) + 2) }
    ensures does { IfOk result (λ acted. (e : Env) → Does (λ body ms k fail e'. expand_word (manner_of body true splits) quoted (word_of word.now) ms k fail e') e marks.old.items marks.new.items acted) }
{
    match word {
        None => {
            put_given(quoted, b"", marks)?;
            Ok(Acted::Put)
        }
        Some(word) => {
            let word = share(word)?;
            Ok(Acted::Enter(word, splits, Then::Keep))
        }
    }
}

// An expression of arithmetic.
fn put_expression(
    quoted: bool,
    expression: &Rc<Parts>,
    marks: &mut Vec<Mark>,
) -> Result<Acted, NoMemory>
    ensures less { IfOk result (λ acted. acted_size acted < size (parts expression.now.value) + 2) }
    ensures does { IfOk result (λ acted. (e : Env) → Does (λ body ms k fail e'. expand (manner_of body true false) (parts expression.now.value) [] (λ xs e''. computed quoted (text_of xs) ms k fail e'') fail e') e marks.old.items marks.new.items acted) }
{
    let inner = share(expression)?;
    Ok(Acted::Enter(inner, false, Then::Compute(quoted, take(marks))))
}

// The parts of an operator's word; none where it is left out.
fn parts_in(alloc: Global, word: &Option<Rc<Parts>>) -> Result<Rc<Parts>, NoMemory>
    ensures { IfOk result (λ inner. parts inner.value ≡ parts_in (word_of word.now)) }
{
    match word {
        None => {
            let none = Rc::new(
                alloc,
                Parts {
                    items: Vec::new(alloc),
                },
            )?;
            Ok(none)
        }
        Some(word) => share(word),
    }
}

// A parameter where it is expanded: in this environment, in a word whose fields are split or aren't, quoted or not.
#[derive(Clone, Copy)]
struct ParameterUse<'a> {
    alloc: Global,
    env: &'a Env,
    splits: bool,
    quoted: bool,
    parameter: &'a Parameter,
}

impl<'a> ParameterUse<'a> {
    // An unset parameter.
    fn put_unset(&self, marks: &mut Vec<Mark>) -> Result<Acted, NoMemory>
        ensures less { IfOk result (λ acted. acted_size acted < 1) }
        ensures does { IfOk result (Does (λ body ms k fail e. unset self.now.env.now.nounset self.now.quoted self.now.parameter.now ms k fail e) self.now.env.now marks.old.items marks.new.items) }
    {
        if self.env.nounset {
            return fault(self.alloc, self.parameter, b"not set");
        }
        put_given(self.quoted, b"", marks)?;
        Ok(Acted::Put)
    }

    // Values where they stand.
    fn put_values(&self, marks: &mut Vec<Mark>) -> Result<Acted, NoMemory>
        ensures less { IfOk result (λ acted. acted_size acted < 1) }
        ensures does { IfOk result (Does (λ body ms k fail e. got (use_of self.now.splits self.now.quoted self.now.parameter.now) (values self.now.env.now self.now.parameter.now) ms k fail e) self.now.env.now marks.old.items marks.new.items) }
    {
        let words = values(self.alloc, self.env, self.parameter)?;
        match words {
            None => self.put_unset(marks),
            Some(words) => {
                let apart = is_apart(self.splits, self.quoted, self.parameter);
                put_all(
                    self.alloc,
                    apart,
                    self.quoted,
                    separator(self.env),
                    words.as_slice(),
                    marks,
                )?;
                Ok(Acted::Put)
            }
        }
    }

    // An unset parameter, whose bytes are counted.
    fn put_unmeasured(&self, marks: &mut Vec<Mark>) -> Result<Acted, NoMemory>
        ensures less { IfOk result (λ acted. acted_size acted < 1) }
        ensures does { IfOk result (Does (λ body ms k fail e. unmeasured self.now.env.now.nounset self.now.quoted self.now.parameter.now ms k fail e) self.now.env.now marks.old.items marks.new.items) }
    {
        if self.env.nounset {
            return fault(self.alloc, self.parameter, b"not set");
        }
        put_given(self.quoted, b"0", marks)?;
        Ok(Acted::Put)
    }

    // How many bytes the values have.
    fn put_length(&self, marks: &mut Vec<Mark>) -> Result<Acted, NoMemory>
        ensures less { IfOk result (λ acted. acted_size acted < 1) }
        ensures does { IfOk result (Does (λ body ms k fail e. measured self.now.quoted self.now.parameter.now (values self.now.env.now self.now.parameter.now) ms k fail e) self.now.env.now marks.old.items marks.new.items) }
    {
        let words = values(self.alloc, self.env, self.parameter)?;
        match words {
            None => self.put_unmeasured(marks),
            Some(words) => {
                let text = joined(self.alloc, separator(self.env), words.as_slice())?;
                let digits = format!(in self.alloc; "{}", text.len() as u64)?;
                put_given(self.quoted, digits.as_bytes(), marks)?;
                Ok(Acted::Put)
            }
        }
    }

    // Values without what a pattern matches.
    fn put_removed(
        &self,
        removal: Removal,
        pattern: &Rc<Parts>,
        marks: &mut Vec<Mark>,
    ) -> Result<Acted, NoMemory>
        ensures less { IfOk result (λ acted. acted_size acted < size (parts pattern.now.value) + 2) }
        ensures does { IfOk result (Does (λ body ms k fail e. with_values (use_of self.now.splits self.now.quoted self.now.parameter.now) (values self.now.env.now self.now.parameter.now) ms (λ words e'. expand (manner_of body true false) (parts pattern.now.value) [] (taken removal (use_of self.now.splits self.now.quoted self.now.parameter.now) words ms k) fail e') k fail e) self.now.env.now marks.old.items marks.new.items) }
    {
        let words = values(self.alloc, self.env, self.parameter)?;
        match words {
            None => self.put_unset(marks),
            Some(words) => {
                let apart = is_apart(self.splits, self.quoted, self.parameter);
                let pattern = share(pattern)?;
                Ok(Acted::Enter(
                    pattern,
                    false,
                    Then::Remove(removal, apart, self.quoted, words, take(marks)),
                ))
            }
        }
    }

    // A variable takes an operator's word.
    fn assign_word(
        &self,
        word: &Option<Rc<Parts>>,
        marks: &mut Vec<Mark>,
    ) -> Result<Acted, NoMemory>
        ensures less { IfOk result (λ acted. acted_size acted < size_word (word_of word.now) + 2) }
        ensures does { IfOk result (λ acted. (e : Env) → Does (λ body ms k fail e'. assigning self.now.quoted self.now.parameter.now ms (λ k' e'. expand_text body [] (word_of word.now) k' fail e') k fail e') e marks.old.items marks.new.items acted) }
    {
        match self.parameter {
            Parameter::Variable(name) => {
                let name = name.copy()?;
                let inner = parts_in(self.alloc, word)?;
                Ok(Acted::Enter(inner, false, Then::Assign(self.quoted, name, take(marks))))
            }
            Parameter::Positional(_) => fault(self.alloc, self.parameter, b"not valid"),
            Parameter::At => fault(self.alloc, self.parameter, b"not valid"),
            Parameter::Asterisk => fault(self.alloc, self.parameter, b"not valid"),
            Parameter::Count => fault(self.alloc, self.parameter, b"not valid"),
            Parameter::Status => fault(self.alloc, self.parameter, b"not valid"),
            Parameter::Zero => fault(self.alloc, self.parameter, b"not valid"),
        }
    }

    // An operator's word is the message of a fault.
    fn fail_with(&self, word: &Option<Rc<Parts>>, marks: &mut Vec<Mark>) -> Result<Acted, NoMemory>
        ensures less { IfOk result (λ acted. acted_size acted < size_word (word_of word.now) + 2) }
        ensures does { IfOk result (λ acted. (e : Env) → Does (λ body ms k fail e'. expand_text body not_set (word_of word.now) (λ t e''. fail (spelling self.now.parameter.now) t e'') fail e') e marks.old.items marks.new.items acted) }
    {
        match word {
            None => fault(self.alloc, self.parameter, b"not set"),
            Some(word) => {
                let _ = take(marks);
                let inner = share(word)?;
                let parameter = Bytes::from_slice(self.alloc, self.parameter.spelling())?;
                Ok(Acted::Enter(inner, false, Then::Message(parameter)))
            }
        }
    }

    // A parameter with an operator, where its value counts.
    fn use_set(
        &self,
        by: Substitute,
        word: &Option<Rc<Parts>>,
        marks: &mut Vec<Mark>,
    ) -> Result<Acted, NoMemory>
        ensures less { IfOk result (λ acted. acted_size acted < size_word (word_of word.now) + 2) }
        ensures does { IfOk result (Does (used_as (outcome_by by true) (use_of self.now.splits self.now.quoted self.now.parameter.now) (word_of word.now)) self.now.env.now marks.old.items marks.new.items) }
    {
        match by {
            Substitute::Default => self.put_values(marks),
            Substitute::Assign => self.put_values(marks),
            Substitute::Fault => self.put_values(marks),
            Substitute::Alternative => put_word(self.splits, self.quoted, word, marks),
        }
    }

    // A parameter with an operator, where its value doesn't count.
    fn use_unset(
        &self,
        by: Substitute,
        word: &Option<Rc<Parts>>,
        marks: &mut Vec<Mark>,
    ) -> Result<Acted, NoMemory>
        ensures less { IfOk result (λ acted. acted_size acted < size_word (word_of word.now) + 2) }
        ensures does { IfOk result (λ acted. (e : Env) → Does (used_as (outcome_by by false) (use_of self.now.splits self.now.quoted self.now.parameter.now) (word_of word.now)) e marks.old.items marks.new.items acted) }
    {
        match by {
            Substitute::Default => put_word(self.splits, self.quoted, word, marks),
            Substitute::Assign => self.assign_word(word, marks),
            Substitute::Fault => self.fail_with(word, marks),
            Substitute::Alternative => {
                put_given(self.quoted, b"", marks)?;
                Ok(Acted::Put)
            }
        }
    }

    // A parameter with an operator.
    fn use_parameter(
        &self,
        condition: Condition,
        by: Substitute,
        word: &Option<Rc<Parts>>,
        marks: &mut Vec<Mark>,
    ) -> Result<Acted, NoMemory>
        ensures less { IfOk result (λ acted. acted_size acted < size_word (word_of word.now) + 2) }
        ensures does { IfOk result (Does (λ body ms k fail e. used_as (outcome_by by (counts condition (value e self.now.parameter.now))) (use_of self.now.splits self.now.quoted self.now.parameter.now) (word_of word.now) body ms k fail e) self.now.env.now marks.old.items marks.new.items) }
    {
        let text = value(self.alloc, self.env, self.parameter)?;
        if counts(condition, text.as_ref()) {
            return self.use_set(by, word, marks);
        }
        self.use_unset(by, word, marks)
    }
}

/// What a part of a word does: whether the word is an operator's, and whether fields are split.
pub(crate) fn act(
    alloc: Global,
    env: &Env,
    inner: bool,
    splits: bool,
    it: &Part,
    marks: &mut Vec<Mark>,
) -> Result<Acted, NoMemory>
    ensures less { IfOk result (λ acted. acted_size acted < size_part (part it.now)) }
    ensures does { IfOk result (Does (λ body ms k fail e. expand_part (manner_of body inner splits) (part it.now) ms k fail e) env.now marks.old.items marks.new.items) }
{
    match it {
        Part::Literal(quoting, text) => {
            put_text(inner, *quoting, text.as_slice(), marks)?;
            Ok(Acted::Put)
        }
        Part::Value(quoting, parameter) => {
            let quoted = is_quoted(*quoting);
            let used = ParameterUse {
                alloc,
                env,
                splits,
                quoted,
                parameter,
            };
            let acted = used.put_values(marks)?;
            Ok(acted)
        }
        Part::Length(quoting, parameter) => {
            let quoted = is_quoted(*quoting);
            let used = ParameterUse {
                alloc,
                env,
                splits,
                quoted,
                parameter,
            };
            let acted = used.put_length(marks)?;
            Ok(acted)
        }
        Part::Substitute(quoting, parameter, condition, by, word) => {
            let quoted = is_quoted(*quoting);
            let used = ParameterUse {
                alloc,
                env,
                splits,
                quoted,
                parameter,
            };
            let acted = used.use_parameter(*condition, *by, word, marks)?;
            Ok(acted)
        }
        Part::Remove(quoting, parameter, removal, pattern) => {
            let quoted = is_quoted(*quoting);
            let used = ParameterUse {
                alloc,
                env,
                splits,
                quoted,
                parameter,
            };
            let acted = used.put_removed(*removal, pattern, marks)?;
            Ok(acted)
        }
        Part::Command(quoting, number) => Ok(Acted::Subst(is_quoted(*quoting), *number)),
        Part::Arithmetic(quoting, expression) => put_expression(
            is_quoted(*quoting),
            expression,
            marks,
        ),
    }
}
