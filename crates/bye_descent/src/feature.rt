ghost use Rattle.std.specs.Prelude.{◌≡◌};
ghost use Rattle.bye_descent.specs.Features as spec;

use bye_tokens::{Sign, Token, Word};

/// A word or a sign of SPARQL 1.1 Query and Update that queries here leave out, or that stands where they leave it out.
#[derive(Debug, Copy, Clone)]
pub enum Feature {
    Ask,
    Construct,
    Describe,
    Base,
    Reduced,
    From,
    Named,
    Union,
    Minus,
    Graph,
    Service,
    Bind,
    Values,
    Select,
    Exists,
    Not,
    Order,
    Group,
    Having,
    Limit,
    Offset,
    Insert,
    Delete,
    Load,
    Clear,
    Create,
    Drop,
    Copy,
    Move,
    Add,
    With,
    /// `_:`
    BlankNode,
    /// `[`
    Square,
    /// `(`
    Bracket,
    /// `^`
    Caret,
    /// `|`
    Bar,
    /// `/`
    Slash,
    /// `*`
    Star,
    /// `+`
    Plus,
    /// `-`
    Dash,
    /// `?`
    Question,
    /// `!`
    Bang,
    /// `||`
    Or,
    /// `=`
    Equal,
    /// `!=`
    Differs,
    /// `<`
    Less,
    /// `>`
    Greater,
    /// `<=`
    AtMost,
    /// `>=`
    AtLeast,
}

impl Feature {
    /// How it is written.
    pub fn word(self) -> &'static str
        ensures { result.now ≡ spec.feature_text self }
    {
        match self {
            Feature::Ask => "ASK",
            Feature::Construct => "CONSTRUCT",
            Feature::Describe => "DESCRIBE",
            Feature::Base => "BASE",
            Feature::Reduced => "REDUCED",
            Feature::From => "FROM",
            Feature::Named => "NAMED",
            Feature::Union => "UNION",
            Feature::Minus => "MINUS",
            Feature::Graph => "GRAPH",
            Feature::Service => "SERVICE",
            Feature::Bind => "BIND",
            Feature::Values => "VALUES",
            Feature::Select => "SELECT",
            Feature::Exists => "EXISTS",
            Feature::Not => "NOT",
            Feature::Order => "ORDER",
            Feature::Group => "GROUP",
            Feature::Having => "HAVING",
            Feature::Limit => "LIMIT",
            Feature::Offset => "OFFSET",
            Feature::Insert => "INSERT",
            Feature::Delete => "DELETE",
            Feature::Load => "LOAD",
            Feature::Clear => "CLEAR",
            Feature::Create => "CREATE",
            Feature::Drop => "DROP",
            Feature::Copy => "COPY",
            Feature::Move => "MOVE",
            Feature::Add => "ADD",
            Feature::With => "WITH",
            Feature::BlankNode => "_:",
            Feature::Square => "[",
            Feature::Bracket => "(",
            Feature::Caret => "^",
            Feature::Bar => "|",
            Feature::Slash => "/",
            Feature::Star => "*",
            Feature::Plus => "+",
            Feature::Dash => "-",
            Feature::Question => "?",
            Feature::Bang => "!",
            Feature::Or => "||",
            Feature::Equal => "=",
            Feature::Differs => "!=",
            Feature::Less => "<",
            Feature::Greater => ">",
            Feature::AtMost => "<=",
            Feature::AtLeast => ">=",
        }
    }
}

/// The feature that a word is.
fn of_word(word: Word) -> Option<Feature>
    ensures { result ≡ spec.word_feature word }
{
    match word {
        Word::Ask => Some(Feature::Ask),
        Word::Construct => Some(Feature::Construct),
        Word::Describe => Some(Feature::Describe),
        Word::Base => Some(Feature::Base),
        Word::Reduced => Some(Feature::Reduced),
        Word::From => Some(Feature::From),
        Word::Named => Some(Feature::Named),
        Word::Union => Some(Feature::Union),
        Word::Minus => Some(Feature::Minus),
        Word::Graph => Some(Feature::Graph),
        Word::Service => Some(Feature::Service),
        Word::Bind => Some(Feature::Bind),
        Word::Values => Some(Feature::Values),
        Word::Select => Some(Feature::Select),
        Word::Exists => Some(Feature::Exists),
        Word::Not => Some(Feature::Not),
        Word::Order => Some(Feature::Order),
        Word::Group => Some(Feature::Group),
        Word::Having => Some(Feature::Having),
        Word::Limit => Some(Feature::Limit),
        Word::Offset => Some(Feature::Offset),
        Word::Insert => Some(Feature::Insert),
        Word::Delete => Some(Feature::Delete),
        Word::Load => Some(Feature::Load),
        Word::Clear => Some(Feature::Clear),
        Word::Create => Some(Feature::Create),
        Word::Drop => Some(Feature::Drop),
        Word::Copy => Some(Feature::Copy),
        Word::Move => Some(Feature::Move),
        Word::Add => Some(Feature::Add),
        Word::With => Some(Feature::With),
        _ => None,
    }
}

/// The feature that a sign is.
fn of_sign(sign: Sign) -> Option<Feature>
    ensures { result ≡ spec.sign_feature sign }
{
    match sign {
        Sign::BlankMark => Some(Feature::BlankNode),
        Sign::OpenSquare => Some(Feature::Square),
        Sign::Open => Some(Feature::Bracket),
        Sign::Caret => Some(Feature::Caret),
        Sign::Bar => Some(Feature::Bar),
        Sign::Slash => Some(Feature::Slash),
        Sign::Star => Some(Feature::Star),
        Sign::Plus => Some(Feature::Plus),
        Sign::Dash => Some(Feature::Dash),
        Sign::Question => Some(Feature::Question),
        Sign::Bang => Some(Feature::Bang),
        Sign::Or => Some(Feature::Or),
        Sign::Equal => Some(Feature::Equal),
        Sign::Differs => Some(Feature::Differs),
        Sign::Less => Some(Feature::Less),
        Sign::Greater => Some(Feature::Greater),
        Sign::AtMost => Some(Feature::AtMost),
        Sign::AtLeast => Some(Feature::AtLeast),
        _ => None,
    }
}

/// The feature that a token is, where it is one that is left out.
pub fn feature_of(token: &Token) -> Option<Feature>
    ensures { result ≡ spec.feature token.now }
{
    match token {
        Token::Keyword(word) => of_word(*word),
        Token::Mark(sign) => of_sign(*sign),
        _ => None,
    }
}
