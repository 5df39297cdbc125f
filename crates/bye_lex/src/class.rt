//! Classes of characters that have all beyond ASCII, so that a byte tells.

ghost use Rattle.std.specs.Prelude.{◌≡◌, ◌≤◌, ℕ, Bool, true};

/// A class of characters, with all beyond ASCII.
pub trait Class {
    ghost holds: { ℕ → Bool };

    /// Whether the byte is an ASCII character of the class, or one of a character beyond ASCII.
    fn has(byte: u8) -> bool
        ensures { result ≡ holds byte };

    ghost wide: { (c : ℕ) → 128 ≤ c → holds c ≡ true };
}

/// What stands raw in an IRI.
pub struct InIri;

impl Class for InIri {
    ghost use Rattle.bye_terms.specs.Characters.{is_iri_char};
    ghost use Rattle.bye_lex.specs.Wide.{wide_iri};

    ghost holds = { is_iri_char };

    ghost wide = { wide_iri };

    fn has(byte: u8) -> bool {
        byte > b' '
            && !matches!(
                byte,
                b'<' | b'>' | b'"' | b'{' | b'}' | b'|' | b'^' | b'`' | b'\\'
            )
    }
}

/// What stands raw in a string of each format, whatever its quotes are.
pub struct InString;

impl Class for InString {
    ghost use Rattle.bye_lex.specs.Runs.{is_plain};
    ghost use Rattle.bye_lex.specs.Wide.{wide_plain};

    ghost holds = { is_plain };

    ghost wide = { wide_plain };

    fn has(byte: u8) -> bool {
        !matches!(byte, b'"' | b'\'' | b'\\' | b'\n' | b'\r' | b'\t')
    }
}
