//! What single tokens stand for in a triple pattern.

ghost use Rattle.std.specs.Prelude.{◌≡◌, IfOk, IfSome, true, false};
ghost use Rattle.bye_terms.specs.Literals.{is_lang_string, xsd_string};
ghost use Rattle.bye_terms.specs.Terms.{is_blank};
ghost use Rattle.bye_pattern.specs.Patterns.{is_place};
ghost use Rattle.bye_pattern.specs.declared.slot.Slot.TheVariants.{Const};
ghost use Rattle.bye_grammar.specs.Fits as fits;

use crate::iris::{ascii, iri_of, number_datatype, rdf_type, xsd_boolean};
use crate::prefixes::Prefixes;
use bye_pattern::{Constant, Slot};
use bye_terms::{Iri, Literal, Memory, Tag, Term, Text};
use bye_tokens::{Token, Word};
use std::alloc::Global;

/// A constant that is no blank node.
fn constant(term: Term) -> Slot
    requires { is_blank term ≡ false }
    ensures { result ≡ Const term }
{
    match Constant::of_term(term) {
        Some(constant) => Slot::Const(constant),
        None => unreachable!(),
    }
}

/// This IRI.
fn iri_slot(iri: Option<Iri>) -> Option<Slot>
    ensures { result ≡ fits.iri_slot iri }
{
    match iri {
        None => None,
        Some(iri) => Some(constant(Term::Iri(iri))),
    }
}

/// A literal without a tag, of a datatype that is not rdf:langString.
pub fn typed(lexical: Text, datatype: Iri) -> Slot
    requires { is_lang_string datatype ≡ false }
    ensures { result ≡ fits.typed lexical datatype }
{
    match Literal::typed(lexical, datatype) {
        Some(literal) => constant(Term::Lit(literal)),
        None => unreachable!(),
    }
}

/// A literal with a tag.
pub fn tagged(alloc: Global, lexical: Text, tag: Tag) -> Result<Slot, Memory>
    ensures { IfOk result (λ s. s ≡ fits.tagged lexical tag) }
{
    Ok(constant(Term::Lit(Literal::tagged(alloc, lexical, tag)?)))
}

/// A string without tag and datatype.
pub fn plain(alloc: Global, lexical: Text) -> Result<Slot, Memory>
    ensures { IfOk result (λ s. s ≡ fits.typed lexical xsd_string) }
{
    Ok(constant(Term::Lit(Literal::string(alloc, lexical)?)))
}

/// A variable or an IRI.
pub fn subject_of(alloc: Global, prefixes: &Prefixes, token: &Token) -> Result<Option<Slot>, Memory>
    ensures value { IfOk result (λ o. o ≡ fits.subject prefixes.now token.now) }
    ensures place { IfOk result (λ o. IfSome o (λ s. is_place s ≡ true)) }
{
    match token {
        Token::Variable(v) => Ok(Some(Slot::Var(v.copy(alloc)?))),
        Token::IriRef(_) | Token::Prefixed(_, _) => Ok(iri_slot(iri_of(alloc, prefixes, token)?)),
        _ => Ok(None),
    }
}

/// A variable, an IRI, or `a`.
pub fn verb_of(alloc: Global, prefixes: &Prefixes, token: &Token) -> Result<Option<Slot>, Memory>
    ensures value { IfOk result (λ o. o ≡ fits.verb prefixes.now token.now) }
    ensures place { IfOk result (λ o. IfSome o (λ s. is_place s ≡ true)) }
{
    match token {
        Token::Keyword(Word::A) => Ok(iri_slot(Some(rdf_type(alloc)?))),
        _ => subject_of(alloc, prefixes, token),
    }
}

/// A variable, an IRI, a number, `true` or `false`.
pub fn object_of(alloc: Global, prefixes: &Prefixes, token: &Token) -> Result<Option<Slot>, Memory>
    ensures { IfOk result (λ o. o ≡ fits.short_object prefixes.now token.now) }
{
    match token {
        Token::Keyword(Word::True) => Ok(Some(typed(ascii(alloc, "true")?, xsd_boolean(alloc)?))),
        Token::Keyword(Word::False) => Ok(Some(typed(ascii(alloc, "false")?, xsd_boolean(alloc)?))),
        Token::Numeral(number, text) => {
            let datatype = number_datatype(alloc, *number)?;
            Ok(Some(typed(text.copy(alloc)?, datatype)))
        }
        _ => subject_of(alloc, prefixes, token),
    }
}

/// An IRI, a number, `true` or `false`.
pub fn constant_of(
    alloc: Global,
    prefixes: &Prefixes,
    token: &Token,
) -> Result<Option<Slot>, Memory>
    ensures { IfOk result (λ o. o ≡ fits.short_constant prefixes.now token.now) }
{
    match token {
        Token::Variable(_) => Ok(None),
        _ => object_of(alloc, prefixes, token),
    }
}

/// An IRI that may be the datatype of a string without a tag.
pub fn datatype_of(alloc: Global, prefixes: &Prefixes, token: &Token) -> Result<Option<Iri>, Memory>
    ensures value { IfOk result (λ o. o ≡ fits.datatype prefixes.now token.now) }
    ensures plain { IfOk result (λ o. IfSome o (λ i. is_lang_string i ≡ false)) }
{
    match iri_of(alloc, prefixes, token)? {
        Some(iri) if !iri.is_lang_string() => Ok(Some(iri)),
        _ => Ok(None),
    }
}
