//! A number for each kind of token.

ghost use Rattle.bye_tokens.specs.KindNumbers as spec;
ghost use Rattle.std.specs.Prelude.{◌≡◌};

use crate::sign::Sign;
use crate::token::Token;
use crate::word::Word;

impl Word {
    /// Its kind of token.
    pub fn kind(self) -> u8
        ensures { result ≡ spec.word_number self }
    {
        match self {
            Word::A => 10,
            Word::Select => 11,
            Word::Distinct => 12,
            Word::Where => 13,
            Word::Prefix => 14,
            Word::Optional => 15,
            Word::Filter => 16,
            Word::Bound => 17,
            Word::SameTerm => 18,
            Word::IsIri => 19,
            Word::IsUri => 20,
            Word::IsBlank => 21,
            Word::IsLiteral => 22,
            Word::True => 23,
            Word::False => 24,
            Word::Ask => 25,
            Word::Construct => 26,
            Word::Describe => 27,
            Word::Base => 28,
            Word::Reduced => 29,
            Word::From => 30,
            Word::Named => 31,
            Word::Union => 32,
            Word::Minus => 33,
            Word::Graph => 34,
            Word::Service => 35,
            Word::Bind => 36,
            Word::Values => 37,
            Word::Exists => 38,
            Word::Not => 39,
            Word::Order => 40,
            Word::Group => 41,
            Word::Having => 42,
            Word::Limit => 43,
            Word::Offset => 44,
            Word::Insert => 45,
            Word::Delete => 46,
            Word::Load => 47,
            Word::Clear => 48,
            Word::Create => 49,
            Word::Drop => 50,
            Word::Copy => 51,
            Word::Move => 52,
            Word::Add => 53,
            Word::With => 54,
            Word::Other => 55,
        }
    }
}

impl Sign {
    /// Its kind of token.
    pub fn kind(self) -> u8
        ensures { result ≡ spec.sign_number self }
    {
        match self {
            Sign::OpenGroup => 60,
            Sign::CloseGroup => 61,
            Sign::Open => 62,
            Sign::Close => 63,
            Sign::Dot => 64,
            Sign::Semicolon => 65,
            Sign::Comma => 66,
            Sign::Carets => 67,
            Sign::And => 68,
            Sign::Or => 69,
            Sign::Bang => 70,
            Sign::Star => 71,
            Sign::BlankMark => 72,
            Sign::OpenSquare => 73,
            Sign::CloseSquare => 74,
            Sign::Caret => 75,
            Sign::Bar => 76,
            Sign::Slash => 77,
            Sign::Plus => 78,
            Sign::Dash => 79,
            Sign::Question => 80,
            Sign::Equal => 81,
            Sign::Differs => 82,
            Sign::Less => 83,
            Sign::Greater => 84,
            Sign::AtMost => 85,
            Sign::AtLeast => 86,
        }
    }
}

impl Token {
    /// Its kind: each word and each sign is a kind of its own.
    pub fn kind(&self) -> u8
        ensures { result ≡ spec.kind self.now }
    {
        match self {
            Token::IriRef(_) => 0,
            Token::Prefixed(_, _) => 1,
            Token::Variable(_) => 2,
            Token::Quoted(_) => 3,
            Token::Tagged(_) => 4,
            Token::Numeral(_, _) => 5,
            Token::Bad(_) => 6,
            Token::Keyword(word) => word.kind(),
            Token::Mark(sign) => sign.kind(),
        }
    }
}
