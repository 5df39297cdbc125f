//! Terms from the objects that stand for them (SPARQL 1.1 Query Results JSON Format, section 3.2.2).

ghost use Rattle.bye_json.specs.TermObjects as spec;
ghost use Rattle.bye_json.specs.Strings.{strings_at};
ghost use Rattle.bye_json.specs.Trees.{count};
ghost use Rattle.bye_terms.specs.Literals.{is_lang_string};
ghost use Rattle.serde_json.specs.Find.{get, as_object};
ghost use Rattle.serde_json.specs.View.{view};
ghost use Rattle.std.specs.Prelude.{◌≡◌, IfOk, option_map};
ghost use Rattle.std.specs.Str.{chars};

use bye_terms::{Iri, Label, Literal, Memory, Tag, Term, Text};
use serde_json::Value;
use std::alloc::Global;

/// The strings of a term object.
#[derive(Drop)]
struct Strings<'a> {
    kind: &'a str,
    value: &'a str,
    datatype: Option<&'a str>,
    language: Option<&'a str>,
}

/// A member that has to be there. None where it is missing or no string.
fn text_at<'a>(object: &'a Value, name: &str) -> Option<&'a str>
    ensures { option_map (λ s. s.now) result ≡ spec.text_at name.now (view object.now) }
{
    object.get(name)?.as_str()
}

/// A member that may be missing. None where it is there and no string.
fn text_if_there<'a>(object: &'a Value, name: &str) -> Option<Option<&'a str>>
    ensures { option_map (λ o. option_map (λ s. s.now) o) result ≡ spec.if_there (get name.now (view object.now)) }
{
    match object.get(name) {
        Some(value) => Some(Some(value.as_str()?)),
        None => Some(None),
    }
}

/// How many members an object has. None where the value is no object.
fn count_of(value: &Value) -> Option<usize>
    ensures { result ≡ option_map count (as_object (view value.now)) }
{
    let members = value.as_object()?;
    Some(members.len())
}

fn one_if(member: Option<&str>) -> usize
    ensures { result ≡ spec.one_if (option_map (λ s. s.now) member.entry) }
{
    match member {
        Some(_) => 1,
        None => 0,
    }
}

/// The strings of a term object. None where a member is missing or no string, or where there is another one.
#[tactic(auto, unfolding(crate::specs::TermObjects::strings_of))]
fn strings_of(object: &Value) -> Option<Strings<'_>>
    ensures { option_map strings_at result ≡ spec.strings_of (view object.now) }
{
    let kind = text_at(object, "type")?;
    let value = text_at(object, "value")?;
    let datatype = text_if_there(object, "datatype")?;
    let language = text_if_there(object, "xml:lang")?;
    if count_of(object)? != 2 + one_if(datatype) + one_if(language) {
        return None;
    }
    Some(Strings {
        kind,
        value,
        datatype,
        language,
    })
}

/// The IRI of a value that has no other member beside it.
fn of_uri(alloc: Global, strings: &Strings<'_>) -> Result<Option<Term>, Memory>
    ensures { IfOk result (λ o. o ≡ spec.of_uri (strings_at strings.now)) }
{
    if strings.datatype.is_some() || strings.language.is_some() {
        return Ok(None);
    }
    let text = Text::copy_of(alloc, strings.value)?;
    Ok(Iri::from_text(text).map(Term::Iri))
}

/// The blank node of a label that has no other member beside it.
fn of_bnode(alloc: Global, strings: &Strings<'_>) -> Result<Option<Term>, Memory>
    ensures { IfOk result (λ o. o ≡ spec.of_bnode (strings_at strings.now)) }
{
    if strings.datatype.is_some() || strings.language.is_some() {
        return Ok(None);
    }
    let text = Text::copy_of(alloc, strings.value)?;
    Ok(Label::from_text(text).map(Term::Blank))
}

/// A string of a datatype. None where that is no IRI, or rdf:langString.
fn typed(alloc: Global, value: &str, datatype: &str) -> Result<Option<Term>, Memory>
    ensures { IfOk result (λ o. o ≡ spec.typed (chars value.now) (chars datatype.now)) }
{
    let Some(datatype) = Iri::from_text(Text::copy_of(alloc, datatype)?) else {
        return Ok(None);
    };
    let lexical = Text::copy_of(alloc, value)?;
    Ok(Literal::typed(lexical, datatype).map(Term::Lit))
}

/// A string with a language tag. None where it is none.
fn tagged(alloc: Global, value: &str, language: &str) -> Result<Option<Term>, Memory>
    ensures { IfOk result (λ o. o ≡ spec.tagged (chars value.now) (chars language.now)) }
{
    let Some(tag) = Tag::from_text(Text::copy_of(alloc, language)?) else {
        return Ok(None);
    };
    let lexical = Text::copy_of(alloc, value)?;
    Ok(Some(Term::Lit(Literal::tagged(alloc, lexical, tag)?)))
}

fn string(alloc: Global, value: &str) -> Result<Term, Memory>
    ensures { IfOk result (λ t. t ≡ spec.string (chars value.now)) }
{
    let lexical = Text::copy_of(alloc, value)?;
    Ok(Term::Lit(Literal::string(alloc, lexical)?))
}

/// Whether the text is rdf:langString.
fn is_lang_string(text: &str) -> bool
    ensures { result ≡ is_lang_string (chars text.now) }
{
    text == "http://www.w3.org/1999/02/22-rdf-syntax-ns#langString"
}

/// A literal, by its datatype and its language; both of them only with rdf:langString.
fn of_literal(alloc: Global, strings: &Strings<'_>) -> Result<Option<Term>, Memory>
    ensures { IfOk result (λ o. o ≡ spec.of_literal (strings_at strings.now)) }
{
    match (strings.datatype, strings.language) {
        (None, None) => Ok(Some(string(alloc, strings.value)?)),
        (None, Some(language)) => tagged(alloc, strings.value, language),
        (Some(datatype), None) => typed(alloc, strings.value, datatype),
        (Some(datatype), Some(language)) => {
            if is_lang_string(datatype) {
                tagged(alloc, strings.value, language)
            } else {
                Ok(None)
            }
        }
    }
}

/// A literal with a datatype and no language.
fn of_typed(alloc: Global, strings: &Strings<'_>) -> Result<Option<Term>, Memory>
    ensures { IfOk result (λ o. o ≡ spec.of_typed (strings_at strings.now)) }
{
    match (strings.datatype, strings.language) {
        (Some(datatype), None) => typed(alloc, strings.value, datatype),
        _ => Ok(None),
    }
}

/// The term of the strings, by their type.
fn of_strings(alloc: Global, strings: &Strings<'_>) -> Result<Option<Term>, Memory>
    ensures { IfOk result (λ o. o ≡ spec.term_of (strings_at strings.now)) }
{
    match strings.kind {
        "uri" => of_uri(alloc, strings),
        "bnode" => of_bnode(alloc, strings),
        "literal" => of_literal(alloc, strings),
        "typed-literal" => of_typed(alloc, strings),
        _ => Ok(None),
    }
}

/// The term that a value stands for. None where it is no term object.
#[tactic(auto, unfolding(crate::specs::TermObjects::term_at))]
pub fn term_at(alloc: Global, value: &Value) -> Result<Option<Term>, Memory>
    ensures { IfOk result (λ o. o ≡ spec.term_at (view value.now)) }
{
    match strings_of(value) {
        Some(strings) => of_strings(alloc, &strings),
        None => Ok(None),
    }
}
