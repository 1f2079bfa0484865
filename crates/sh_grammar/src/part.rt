// The parts of the syntax.

/// A part of the syntax (XCU 2.10).
#[derive(Clone, Copy)]
pub enum Part {
    /// Commands, maybe none.
    OptList,
    /// Commands, one at least.
    List,
    /// What follows a command in a list.
    ListRest,
    /// A newline, and the bodies of the here-documents that are awaited.
    Newline,
    /// The bodies behind a newline.
    Bodies,
    /// What stands in a body, and its end.
    BodyParts,
    /// Pipelines joined by `&&` and `||`.
    AndOr,
    /// The rest of them.
    AndOrRest,
    /// Newlines, maybe none.
    Linebreak,
    /// A pipeline.
    Pipeline,
    /// The rest of it.
    PipeRest,
    /// A command.
    Command,
    /// A compound command.
    Compound,
    /// What follows a branch of `if`.
    IfRest,
    /// What a `for` goes over.
    ForIn,
    /// What a `for` goes over, behind a newline.
    ForInLater,
    /// The words behind `in`.
    ForWords,
    /// The word `in` of a `case`.
    CaseIn,
    /// The items of a `case`.
    Items,
    /// What follows a pattern.
    PatternRest,
    /// What follows the commands of an item.
    ItemEnd,
    /// Redirections, maybe none.
    Redirects,
    /// A redirection.
    Redirect,
    /// Assignments and redirections before a command's name, and the rest.
    Prefix,
    /// Words and redirections behind it.
    Arguments,
    /// A word.
    Word,
    /// The value of an assignment.
    Value,
    /// The rest of a word.
    Parts,
    /// What quotes or expands in a word.
    Quoted,
    /// What begins with a dollar sign, but `${x` and a word.
    Expansion,
    /// What stands in double quotes, and the closing ones.
    QuotedParts,
    /// The word of a parameter, and the closing brace.
    BraceStart,
    /// The rest of the word of a parameter, and the closing brace.
    BraceParts,
    /// The rest of the word of a parameter in double quotes, and the closing brace.
    QuotedBraceParts,
    /// What stands in an arithmetic expansion, and the closing parentheses (XCU 2.6.4).
    Arithmetic,
}
