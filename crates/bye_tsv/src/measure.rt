//! How many bytes of texts are kept, of names and of the terms of a row.

ghost use Rattle.bye_tsv.specs.Kept as spec;
ghost use Rattle.bye_terms.specs.Ascii.{is_ascii};
ghost use Rattle.std.specs.Prelude.{◌≡◌, ◌<◌, ◌^◌, IsTrue};
ghost use Rattle.std.specs.Str.{bytes_eq};

use bye_lex::size;
use bye_terms::{Iri, Tag, Term, Var};

/// Whether the IRI is this one.
fn is_named(iri: &Iri, name: &str) -> bool
    requires { IsTrue (is_ascii name.now) }
    ensures { result ≡ bytes_eq iri.now name.now }
{
    iri.text().as_str() == name
}

/// Whether the datatype is one that the reader adds where the line does not spell it.
fn is_added(datatype: &Iri) -> bool
    ensures { result ≡ spec.is_added datatype.now }
{
    datatype.is_xsd_string()
        || is_named(datatype, "http://www.w3.org/2001/XMLSchema#integer")
        || is_named(datatype, "http://www.w3.org/2001/XMLSchema#decimal")
        || is_named(datatype, "http://www.w3.org/2001/XMLSchema#double")
        || is_named(datatype, "http://www.w3.org/2001/XMLSchema#boolean")
}

fn suffix_kept(tag: &Option<Tag>, datatype: &Iri) -> usize
    ensures { result ≡ spec.suffix_kept tag.now datatype.now }
{
    match tag {
        Some(tag) => size(tag.text()),
        None if is_added(datatype) => 0,
        None => size(datatype.text()),
    }
}

/// How many bytes of a term are kept.
pub fn term_kept(term: &Term) -> usize
    requires { spec.term_kept term.now < 2 ^ 64 }
    ensures { result ≡ spec.term_kept term.now }
{
    match term {
        Term::Iri(iri) => size(iri.text()),
        Term::Blank(label) => size(label.text()),
        Term::Lit(literal) => {
            size(literal.lexical()) + suffix_kept(literal.tag(), literal.datatype())
        }
    }
}

/// How many bytes of the terms of a row are kept.
pub fn row_kept(pairs: &[(Var, Term)]) -> usize
    requires { spec.row_kept pairs.now < 2 ^ 64 }
    ensures { result ≡ spec.row_kept pairs.now }
{
    let mut total = 0;
    for (_, term) in pairs {
        total += term_kept(term);
    }
    total
}

/// How many bytes names are.
pub fn names_kept(names: &[Var]) -> usize
    requires { spec.names_kept names.now < 2 ^ 64 }
    ensures { result ≡ spec.names_kept names.now }
{
    let mut total = 0;
    for name in names {
        total += size(name.name());
    }
    total
}
