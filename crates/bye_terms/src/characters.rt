//! Classes of characters (RDF 1.1 N-Triples, section 7).

ghost use Rattle.std.specs.Prelude.{◌≡◌};
ghost use Rattle.bye_terms.specs.Characters as spec;

/// An ASCII letter.
pub fn is_letter(c: char) -> bool
    ensures { result ≡ spec.is_letter c }
{
    matches!(c, 'A'..='Z' | 'a'..='z')
}

fn is_digit(c: char) -> bool
    ensures { result ≡ spec.is_digit c }
{
    matches!(c, '0'..='9')
}

/// An ASCII letter or digit.
pub fn is_letter_or_digit(c: char) -> bool
    ensures { result ≡ spec.is_letter_or_digit c }
{
    is_letter(c) || is_digit(c)
}

/// A character of a scheme after its first letter (RFC 3986, section 3.1).
pub fn is_scheme_char(c: char) -> bool
    ensures { result ≡ spec.is_scheme_char c }
{
    is_letter(c) || is_digit(c) || c == '+' || c == '.' || c == '-'
}

/// A character that stands raw in an IRI.
pub fn is_iri_char(c: char) -> bool
    ensures { result ≡ spec.is_iri_char c }
{
    c > ' ' && !matches!(c, '<' | '>' | '"' | '{' | '}' | '|' | '^' | '`' | '\\')
}

fn is_low_base(c: char) -> bool
    ensures { result ≡ spec.is_low_base c }
{
    matches!(
        c,
        '\u{C0}'..='\u{D6}'
            | '\u{D8}'..='\u{F6}'
            | '\u{F8}'..='\u{2FF}'
            | '\u{370}'..='\u{37D}'
            | '\u{37F}'..='\u{1FFF}'
            | '\u{200C}'..='\u{200D}'
    )
}

fn is_high_base(c: char) -> bool
    ensures { result ≡ spec.is_high_base c }
{
    matches!(
        c,
        '\u{2070}'..='\u{218F}'
            | '\u{2C00}'..='\u{2FEF}'
            | '\u{3001}'..='\u{D7FF}'
            | '\u{F900}'..='\u{FDCF}'
            | '\u{FDF0}'..='\u{FFFD}'
            | '\u{10000}'..='\u{EFFFF}'
    )
}

fn is_name_base(c: char) -> bool
    ensures { result ≡ spec.is_name_base c }
{
    is_letter(c) || is_low_base(c) || is_high_base(c)
}

fn is_name_mark(c: char) -> bool
    ensures { result ≡ spec.is_name_mark c }
{
    matches!(c, '\u{B7}' | '\u{300}'..='\u{36F}' | '\u{203F}'..='\u{2040}')
}

/// The first character of a name.
pub fn is_name_start(c: char) -> bool
    ensures { result ≡ spec.is_name_start c }
{
    is_name_base(c) || c == '_' || is_digit(c)
}

/// A later character of a name.
pub fn is_name_part(c: char) -> bool
    ensures { result ≡ spec.is_name_part c }
{
    is_name_start(c) || is_name_mark(c)
}

/// The first character of a label.
pub fn is_label_start(c: char) -> bool
    ensures { result ≡ spec.is_label_start c }
{
    is_name_start(c) || c == ':'
}

/// A later character of a label that may also end it.
pub fn is_label_part(c: char) -> bool
    ensures { result ≡ spec.is_label_part c }
{
    is_label_start(c) || c == '-' || is_name_mark(c)
}
