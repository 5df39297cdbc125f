//! Terms, written as the objects that stand for them (SPARQL 1.1 Query Results JSON Format, section 3.2.2).

ghost use Rattle.bye_json.specs.Tokens.{Adds, tokens_of};
ghost use Rattle.bye_json.specs.Written.{literal_object, term_object, type_and_value};
ghost use Rattle.bye_terms.specs.Literals.{lang_string};
ghost use Rattle.bye_terms.specs.declared.term.Term.TheVariants as terms;
ghost use Rattle.serde_json.specs.Data.{no_members, object};
ghost use Rattle.json.specs.Token.{key, string};
ghost use Rattle.std.specs.Prelude.{[], ◌∷◌, None, OnOk, Some, codes};
ghost use Rattle.std.specs.Str.{encode_utf8_all};

use bye_terms::{Iri, Literal, Memory, Tag, Term, Text};
use json::Writer;

/// Writes a member that is a string.
fn write_member(out: &mut Writer, name: &str, text: &str) -> Result<(), Memory>
    ensures { OnOk result (Adds out.old (key name.now ∷ string text.now ∷ []) out.new) }
{
    out.key(name)?;
    out.string(text)?;
    Ok(())
}

/// Writes a member that is the string of a text.
fn write_text(out: &mut Writer, name: &str, text: &Text) -> Result<(), Memory>
    ensures { OnOk result (Adds out.old (key name.now ∷ string (encode_utf8_all text.now) ∷ []) out.new) }
{
    write_member(out, name, text.as_str())
}

/// Writes the members that all objects of terms have.
fn write_type_and_value(out: &mut Writer, kind: &str, value: &Text) -> Result<(), Memory>
    ensures { OnOk result (Adds out.old (key (codes "type") ∷ string kind.now ∷ key (codes "value") ∷ string (encode_utf8_all value.now) ∷ []) out.new) }
{
    write_member(out, "type", kind)?;
    write_text(out, "value", value)
}

/// Writes an object of a type and a value.
fn write_plain(out: &mut Writer, kind: &str, value: &Text) -> Result<(), Memory>
    ensures { OnOk result (Adds out.old (tokens_of (object (type_and_value kind.now value.now no_members))) out.new) }
{
    out.begin_object()?;
    write_type_and_value(out, kind, value)?;
    out.end_object()?;
    Ok(())
}

fn write_tagged(out: &mut Writer, lexical: &Text, tag: &Tag) -> Result<(), Memory>
    ensures { OnOk result (Adds out.old (tokens_of (literal_object lexical.now lang_string (Some tag.now))) out.new) }
{
    out.begin_object()?;
    write_type_and_value(out, "literal", lexical)?;
    write_text(out, "xml:lang", tag.text())?;
    out.end_object()?;
    Ok(())
}

fn write_typed(out: &mut Writer, lexical: &Text, datatype: &Iri) -> Result<(), Memory>
    ensures { OnOk result (Adds out.old (tokens_of (literal_object lexical.now datatype.now None)) out.new) }
{
    if datatype.is_xsd_string() {
        return write_plain(out, "literal", lexical);
    }
    out.begin_object()?;
    write_text(out, "datatype", datatype.text())?;
    write_type_and_value(out, "literal", lexical)?;
    out.end_object()?;
    Ok(())
}

fn write_literal(out: &mut Writer, literal: &Literal) -> Result<(), Memory>
    ensures { OnOk result (Adds out.old (tokens_of (term_object (terms.Lit literal.now))) out.new) }
{
    match literal.tag() {
        Some(tag) => write_tagged(out, literal.lexical(), tag),
        None => write_typed(out, literal.lexical(), literal.datatype()),
    }
}

/// Writes the object of a term.
pub fn write_term(out: &mut Writer, term: &Term) -> Result<(), Memory>
    ensures { OnOk result (Adds out.old (tokens_of (term_object term.now)) out.new) }
{
    match term {
        Term::Iri(iri) => write_plain(out, "uri", iri.text()),
        Term::Blank(label) => write_plain(out, "bnode", label.text()),
        Term::Lit(literal) => write_literal(out, literal),
    }
}
