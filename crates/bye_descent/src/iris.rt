//! IRIs of tokens.

ghost use Rattle.std.specs.Prelude.{◌≡◌, IfOk, IsTrue, true};
ghost use Rattle.bye_terms.specs.Ascii.{is_ascii};
ghost use Rattle.bye_terms.specs.Names.{is_iri};
ghost use Rattle.bye_grammar.specs.Fits as fits;

use crate::prefixes::Prefixes;
use bye_terms::{Iri, Memory, Text};
use bye_tokens::{Number, Token};
use std::alloc::Global;

/// A text of ASCII.
pub fn ascii(alloc: Global, text: &str) -> Result<Text, Memory>
    requires { IsTrue (is_ascii text.now) }
    ensures { IfOk result (λ t. t ≡ text.now) }
{
    let mut copy = Text::new(alloc);
    copy.push_ascii(text)?;
    Ok(copy)
}

/// An IRI of the grammar's own.
fn own_iri(alloc: Global, text: &str) -> Result<Iri, Memory>
    requires ascii { IsTrue (is_ascii text.now) }
    requires iri { is_iri text.now ≡ true }
    ensures { IfOk result (λ i. i ≡ text.now) }
{
    Ok(Iri::new(ascii(alloc, text)?))
}

/// rdf:type
pub fn rdf_type(alloc: Global) -> Result<Iri, Memory>
    ensures { IfOk result (λ i. i ≡ fits.rdf_type) }
{
    own_iri(alloc, "http://www.w3.org/1999/02/22-rdf-syntax-ns#type")
}

/// xsd:boolean
pub fn xsd_boolean(alloc: Global) -> Result<Iri, Memory>
    ensures { IfOk result (λ i. i ≡ fits.xsd_boolean) }
{
    own_iri(alloc, "http://www.w3.org/2001/XMLSchema#boolean")
}

/// The datatype of a number.
pub fn number_datatype(alloc: Global, number: Number) -> Result<Iri, Memory>
    ensures { IfOk result (λ i. i ≡ fits.number_datatype number) }
{
    match number {
        Number::Integer => own_iri(alloc, "http://www.w3.org/2001/XMLSchema#integer"),
        Number::Decimal => own_iri(alloc, "http://www.w3.org/2001/XMLSchema#decimal"),
        Number::Double => own_iri(alloc, "http://www.w3.org/2001/XMLSchema#double"),
    }
}

/// The IRI that the text is, where it has a scheme.
pub fn only_iri(alloc: Global, text: &Text) -> Result<Option<Iri>, Memory>
    ensures { IfOk result (λ o. o ≡ fits.only_iri text.now) }
{
    Ok(Iri::from_text(text.copy(alloc)?))
}

/// The IRI of a prefix, followed by a local part.
fn joined_iri(
    alloc: Global,
    prefixes: &Prefixes,
    prefix: &Text,
    local: &Text,
) -> Result<Option<Iri>, Memory>
    ensures { IfOk result (λ o. o ≡ fits.joined_iri (fits.look prefixes.now prefix.now) local.now) }
{
    let Some(iri) = prefixes.look(alloc, prefix)? else {
        return Ok(None);
    };
    let mut text = iri.text().copy(alloc)?;
    text.push_text(local)?;
    Ok(Iri::from_text(text))
}

/// The IRI that the token stands for, where it stands for one.
pub fn iri_of(alloc: Global, prefixes: &Prefixes, token: &Token) -> Result<Option<Iri>, Memory>
    ensures { IfOk result (λ o. o ≡ fits.iri prefixes.now token.now) }
{
    match token {
        Token::IriRef(text) => only_iri(alloc, text),
        Token::Prefixed(prefix, local) => joined_iri(alloc, prefixes, prefix, local),
        _ => Ok(None),
    }
}
