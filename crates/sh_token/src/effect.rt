// What a token leaves open, by its kind.
ghost use Rattle.std.specs.Prelude.{◌≡◌};
ghost use Rattle.sh_token.specs.Effects.{effect_of as effect_lem};
ghost use Rattle.sh_token.specs.Steps.{opens_level as opens_lem, takes_body as body_lem};

use sh_rules::TokenKind;

/// What a token leaves open behind it.
#[derive(Clone, Copy)]
pub enum Effect {
    /// It stands within a word.
    Inside,
    /// A command may begin after it.
    Separates,
    /// It opens a level.
    Opens,
    /// It opens a level, and a word follows.
    OpensWord,
    /// It opens a level in parentheses.
    OpensParen,
    /// It closes a level.
    Closes,
    /// It closes parentheses or a substitution.
    ClosesParen,
    /// It opens a substitution.
    Substitutes,
    /// It opens quotes.
    Quotes,
    /// It closes them.
    Unquotes,
    /// It opens the word of a parameter.
    OpensBraces,
    /// It closes it.
    ClosesBraces,
    /// It opens an arithmetic expansion.
    OpensArithmetic,
    /// It closes it.
    ClosesArithmetic,
    /// It opens parentheses in one.
    OpensParenthesis,
    /// It closes them.
    ClosesParenthesis,
    /// No word is reserved after it.
    EndsWord,
    /// A word that goes on is reserved after it.
    EndsName,
    /// A here-document is awaited.
    Awaits,
    /// Its delimiter.
    Delimits,
    /// The bodies follow.
    EndsLine,
    /// A body that is read as it stands.
    TakesBody,
    /// A body that is expanded begins: a text by itself.
    OpensBody,
    /// It ends.
    ClosesBody,
    /// It opens a level and closes it.
    Encloses,
}

/// The effect of a token of a kind.
pub fn effect_of(kind: TokenKind) -> Effect
    ensures { result ≡ effect_lem kind }
{
    match kind {
        TokenKind::Semi => Effect::Separates,
        TokenKind::Newline => Effect::EndsLine,
        TokenKind::NoBody => Effect::Separates,
        TokenKind::LiteralBody => Effect::TakesBody,
        TokenKind::BodyOpen => Effect::OpensBody,
        TokenKind::BodyClose => Effect::ClosesBody,
        TokenKind::BodyText => Effect::Inside,
        TokenKind::BodyEscape => Effect::Inside,
        TokenKind::QuotedBrace => Effect::OpensBraces,
        TokenKind::AndIf => Effect::Separates,
        TokenKind::OrIf => Effect::Separates,
        TokenKind::Bang => Effect::Separates,
        TokenKind::Pipe => Effect::Separates,
        TokenKind::FunctionName => Effect::EndsWord,
        TokenKind::FunctionOpen => Effect::EndsWord,
        TokenKind::FunctionClose => Effect::Separates,
        TokenKind::Assignment => Effect::Inside,
        TokenKind::CommandText => Effect::Inside,
        TokenKind::LeftBrace => Effect::Opens,
        TokenKind::RightBrace => Effect::Closes,
        TokenKind::LeftParen => Effect::OpensParen,
        TokenKind::RightParen => Effect::ClosesParen,
        TokenKind::If => Effect::Opens,
        TokenKind::Then => Effect::Separates,
        TokenKind::While => Effect::Opens,
        TokenKind::Do => Effect::Separates,
        TokenKind::Done => Effect::Closes,
        TokenKind::Until => Effect::Opens,
        TokenKind::For => Effect::OpensWord,
        TokenKind::Name => Effect::EndsName,
        TokenKind::Case => Effect::OpensWord,
        TokenKind::Fi => Effect::Closes,
        TokenKind::Else => Effect::Separates,
        TokenKind::Elif => Effect::Separates,
        TokenKind::In => Effect::EndsWord,
        TokenKind::CaseIn => Effect::Separates,
        TokenKind::Esac => Effect::Closes,
        TokenKind::PatternOpen => Effect::EndsWord,
        TokenKind::PatternText => Effect::Inside,
        TokenKind::PatternClose => Effect::Separates,
        TokenKind::PatternBar => Effect::EndsWord,
        TokenKind::DoubleSemi => Effect::Separates,
        TokenKind::Redirect => Effect::EndsWord,
        TokenKind::Here => Effect::Awaits,
        TokenKind::Delimiter => Effect::Delimits,
        TokenKind::PrefixText => Effect::Inside,
        TokenKind::WordText => Effect::Inside,
        TokenKind::WordEnd => Effect::EndsWord,
        TokenKind::ValueText => Effect::Inside,
        TokenKind::Text => Effect::Inside,
        TokenKind::Escape => Effect::Inside,
        TokenKind::Single => Effect::Inside,
        TokenKind::QuoteOpen => Effect::Quotes,
        TokenKind::Brace => Effect::OpensBraces,
        TokenKind::Parameter => Effect::Inside,
        TokenKind::Braced => Effect::Encloses,
        TokenKind::Substitution => Effect::Substitutes,
        TokenKind::Dollar => Effect::Inside,
        TokenKind::PatternBrace => Effect::OpensBraces,
        TokenKind::QuoteClose => Effect::Unquotes,
        TokenKind::QuotedText => Effect::Inside,
        TokenKind::QuotedEscape => Effect::Inside,
        TokenKind::BraceClose => Effect::ClosesBraces,
        TokenKind::BraceStartText => Effect::Inside,
        TokenKind::BraceText => Effect::Inside,
        TokenKind::QuotedBraceText => Effect::Inside,
        TokenKind::QuotedBraceEscape => Effect::Inside,
        TokenKind::Arithmetic => Effect::OpensArithmetic,
        TokenKind::ArithmeticText => Effect::Inside,
        TokenKind::ArithmeticEscape => Effect::Inside,
        TokenKind::ParenthesisOpen => Effect::OpensParenthesis,
        TokenKind::ParenthesisClose => Effect::ClosesParenthesis,
        TokenKind::ArithmeticClose => Effect::ClosesArithmetic,
        TokenKind::End => Effect::Inside,
    }
}

/// Whether a token with an effect opens a level.
pub fn opens_level(effect: Effect) -> bool
    ensures { result ≡ opens_lem effect }
{
    match effect {
        Effect::Inside => false,
        Effect::Separates => false,
        Effect::Opens => true,
        Effect::OpensWord => true,
        Effect::OpensParen => true,
        Effect::Closes => false,
        Effect::ClosesParen => false,
        Effect::Substitutes => true,
        Effect::Quotes => false,
        Effect::Unquotes => false,
        Effect::OpensBraces => true,
        Effect::ClosesBraces => false,
        Effect::OpensArithmetic => true,
        Effect::ClosesArithmetic => false,
        Effect::OpensParenthesis => false,
        Effect::ClosesParenthesis => false,
        Effect::EndsWord => false,
        Effect::EndsName => false,
        Effect::Awaits => false,
        Effect::Delimits => false,
        Effect::EndsLine => false,
        Effect::TakesBody => false,
        Effect::OpensBody => false,
        Effect::ClosesBody => false,
        Effect::Encloses => true,
    }
}

/// Whether a token with an effect is a literal body.
pub fn takes_body(effect: Effect) -> bool
    ensures { result ≡ body_lem effect }
{
    match effect {
        Effect::Inside => false,
        Effect::Separates => false,
        Effect::Opens => false,
        Effect::OpensWord => false,
        Effect::OpensParen => false,
        Effect::Closes => false,
        Effect::ClosesParen => false,
        Effect::Substitutes => false,
        Effect::Quotes => false,
        Effect::Unquotes => false,
        Effect::OpensBraces => false,
        Effect::ClosesBraces => false,
        Effect::OpensArithmetic => false,
        Effect::ClosesArithmetic => false,
        Effect::OpensParenthesis => false,
        Effect::ClosesParenthesis => false,
        Effect::EndsWord => false,
        Effect::EndsName => false,
        Effect::Awaits => false,
        Effect::Delimits => false,
        Effect::EndsLine => false,
        Effect::TakesBody => true,
        Effect::OpensBody => false,
        Effect::ClosesBody => false,
        Effect::Encloses => false,
    }
}
