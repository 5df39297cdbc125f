ghost use Rattle.bye_tokens.specs.Fronts as spec;
ghost use Rattle.std.specs.Prelude.{◌≡◌};

/// A sign (SPARQL 1.1 Query, section 19.8).
#[derive(Debug, Copy, Clone)]
pub enum Sign {
    /// `{`
    OpenGroup,
    /// `}`
    CloseGroup,
    /// `(`
    Open,
    /// `)`
    Close,
    /// `.`
    Dot,
    /// `;`
    Semicolon,
    /// `,`
    Comma,
    /// `^^`
    Carets,
    /// `&&`
    And,
    /// `||`
    Or,
    /// `!`
    Bang,
    /// `*`
    Star,
    /// `_:`
    BlankMark,
    /// `[`
    OpenSquare,
    /// `]`
    CloseSquare,
    /// `^`
    Caret,
    /// `|`
    Bar,
    /// `/`
    Slash,
    /// `+`
    Plus,
    /// `-`
    Dash,
    /// `?`
    Question,
    /// `=`
    Equal,
    /// `!=`
    Differs,
    /// `<`
    Less,
    /// `>`
    Greater,
    /// `<=`
    AtMost,
    /// `>=`
    AtLeast,
}

/// The sign of one character.
pub fn single(c: char) -> Option<Sign>
    ensures { result ≡ spec.single c }
{
    match c {
        '{' => Some(Sign::OpenGroup),
        '}' => Some(Sign::CloseGroup),
        '(' => Some(Sign::Open),
        ')' => Some(Sign::Close),
        '.' => Some(Sign::Dot),
        ';' => Some(Sign::Semicolon),
        ',' => Some(Sign::Comma),
        '!' => Some(Sign::Bang),
        '*' => Some(Sign::Star),
        '[' => Some(Sign::OpenSquare),
        ']' => Some(Sign::CloseSquare),
        '^' => Some(Sign::Caret),
        '|' => Some(Sign::Bar),
        '/' => Some(Sign::Slash),
        '+' => Some(Sign::Plus),
        '-' => Some(Sign::Dash),
        '?' => Some(Sign::Question),
        '=' => Some(Sign::Equal),
        '<' => Some(Sign::Less),
        '>' => Some(Sign::Greater),
        _ => None,
    }
}

/// The sign of two characters.
pub fn double(c: char, d: char) -> Option<Sign>
    ensures { result ≡ spec.double c d }
{
    match (c, d) {
        ('^', '^') => Some(Sign::Carets),
        ('&', '&') => Some(Sign::And),
        ('|', '|') => Some(Sign::Or),
        ('_', ':') => Some(Sign::BlankMark),
        ('!', '=') => Some(Sign::Differs),
        ('<', '=') => Some(Sign::AtMost),
        ('>', '=') => Some(Sign::AtLeast),
        _ => None,
    }
}
