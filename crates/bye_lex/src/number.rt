//! The machine of numbers (SPARQL 1.1 Query, section 19.8, INTEGER, DECIMAL and DOUBLE with an optional sign).

ghost use Rattle.bye_lex.specs.NumberSteps as spec;
ghost use Rattle.bye_lex.specs.Numbers as numbers;
ghost use Rattle.bye_terms.specs.Characters.{is_digit as is_ascii_digit};
ghost use Rattle.std.specs.Prelude.{◌≡◌};

use crate::scanner::Scanner;

/// Which datatype a number has: xsd:integer, xsd:decimal or xsd:double.
#[derive(Debug, Copy, Clone)]
pub enum Number {
    Integer,
    Decimal,
    Double,
}

/// How far a number was read.
#[derive(Debug, Copy, Clone)]
pub enum NumberAt {
    Start,
    /// After its sign.
    Signed,
    /// After digits, without a point.
    Whole,
    /// After the point, with whether a digit stands before that.
    Point(bool),
    /// After a digit behind the point.
    Fraction,
    /// After the mark of the exponent.
    Exponent,
    ExponentSign,
    ExponentDigits,
}

fn is_digit(c: char) -> bool
    ensures { result ≡ is_ascii_digit c }
{
    matches!(c, '0'..='9')
}

fn is_sign(c: char) -> bool
    ensures { result ≡ numbers.is_sign c }
{
    c == '+' || c == '-'
}

fn is_exponent_mark(c: char) -> bool
    ensures { result ≡ numbers.is_exponent_mark c }
{
    c == 'e' || c == 'E'
}

/// After the sign of a number.
fn unsigned(c: char) -> Option<NumberAt>
    ensures { result ≡ spec.unsigned c }
{
    if is_digit(c) {
        return Some(NumberAt::Whole);
    }
    if c == '.' {
        return Some(NumberAt::Point(false));
    }
    None
}

/// The mark of an exponent, which wants a digit before it.
fn scaled(some: bool, c: char) -> Option<NumberAt>
    ensures { result ≡ spec.scaled some c }
{
    if some && is_exponent_mark(c) {
        return Some(NumberAt::Exponent);
    }
    None
}

fn start(c: char) -> Option<NumberAt>
    ensures { result ≡ spec.step NumberAt.Start c }
{
    if is_sign(c) {
        return Some(NumberAt::Signed);
    }
    unsigned(c)
}

fn whole(c: char) -> Option<NumberAt>
    ensures { result ≡ spec.step NumberAt.Whole c }
{
    if is_digit(c) {
        return Some(NumberAt::Whole);
    }
    if c == '.' {
        return Some(NumberAt::Point(true));
    }
    scaled(true, c)
}

/// After the point; `some` where a digit stands before.
fn fraction(some: bool, c: char) -> Option<NumberAt>
    ensures { result ≡ spec.step (NumberAt.Point some) c }
{
    if is_digit(c) {
        return Some(NumberAt::Fraction);
    }
    scaled(some, c)
}

fn exponent_digits(c: char) -> Option<NumberAt>
    ensures { result ≡ spec.step NumberAt.ExponentDigits c }
{
    if is_digit(c) {
        return Some(NumberAt::ExponentDigits);
    }
    None
}

fn exponent(c: char) -> Option<NumberAt>
    ensures { result ≡ spec.step NumberAt.Exponent c }
{
    if is_sign(c) {
        return Some(NumberAt::ExponentSign);
    }
    exponent_digits(c)
}

impl Scanner for NumberAt {
    ghost use Rattle.bye_lex.specs.NumberSteps as spec;

    type Form = Number;

    ghost next = { spec.step };

    ghost whole = { spec.form };

    fn step(self, c: char) -> Option<NumberAt> {
        match self {
            NumberAt::Start => start(c),
            NumberAt::Signed => unsigned(c),
            NumberAt::Whole => whole(c),
            NumberAt::Point(some) => fraction(some, c),
            NumberAt::Fraction => fraction(true, c),
            NumberAt::Exponent => exponent(c),
            NumberAt::ExponentSign | NumberAt::ExponentDigits => exponent_digits(c),
        }
    }

    fn form(self) -> Option<Number> {
        match self {
            NumberAt::Whole => Some(Number::Integer),
            NumberAt::Fraction => Some(Number::Decimal),
            NumberAt::ExponentDigits => Some(Number::Double),
            _ => None,
        }
    }
}
