// The parts of words.
use crate::parameter::Parameter;
use rk_base::Bytes;
use std::rc::Rc;

/// Whether a part of a word is quoted (XCU 2.2): a quoted part is neither split nor expanded as a pattern.
#[derive(Clone, Copy, Debug)]
pub enum Quoting {
    Quoted,
    Unquoted,
}

/// When an operator of a parameter takes its word: where the parameter is unset (`-`), or also where it is null (`:-`).
#[derive(Clone, Copy, Debug)]
pub enum Condition {
    Unset,
    UnsetOrNull,
}

/// What stands in for a parameter (XCU 2.6.2).
#[derive(Clone, Copy, Debug)]
pub enum Substitute {
    /// `-`: the word stands in where the condition holds.
    Default,
    /// `=`: so too, and the parameter is set to it.
    Assign,
    /// `?`: the word is the message of a fault where the condition holds.
    Fault,
    /// `+`: the word stands in where the condition doesn't hold.
    Alternative,
}

/// What is taken away from a parameter's value (XCU 2.6.2).
#[derive(Clone, Copy, Debug)]
pub enum Removal {
    /// `%`
    SmallestSuffix,
    /// `%%`
    LargestSuffix,
    /// `#`
    SmallestPrefix,
    /// `##`
    LargestPrefix,
}

/// A part of a word. What single or double quotes hold is quoted parts, an empty pair of them one quoted literal of no bytes.
#[cycle(word)]
#[derive(Drop)]
pub enum Part {
    /// Bytes that stand for themselves.
    Literal(Quoting, Bytes),
    /// The value of a parameter, as `$x` or `${x}`.
    Value(Quoting, Parameter),
    /// How many bytes a parameter's value has, as `${#x}`.
    Length(Quoting, Parameter),
    /// What may stand in for a parameter's value, as `${x:-word}`; the last is the word, or `None` where nothing stands there.
    Substitute(Quoting, Parameter, Condition, Substitute, Option<Rc<Parts>>),
    /// A parameter's value without what a pattern matches, as `${x%word}`.
    Remove(Quoting, Parameter, Removal, Rc<Parts>),
    /// A command substitution (XCU 2.6.3), by its number among those of the whole word, from 0.
    Command(Quoting, u64),
    /// An arithmetic expansion (XCU 2.6.4), of the expression that these parts make up.
    Arithmetic(Quoting, Rc<Parts>),
}

/// The parts of a word, one after another.
#[cycle(word)]
#[derive(Drop)]
pub struct Parts {
    pub items: Vec<Part>,
}
