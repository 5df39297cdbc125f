//! The literals that numbers are short for.

ghost use Rattle.bye_tsv.specs.Numbers.{datatype_of, number_of};
ghost use Rattle.std.specs.Prelude.{◌≡◌, IfOk};

use bye_lex::Number;
use bye_terms::{Iri, Literal, Memory, Term, Text};
use std::alloc::Global;

fn datatype(alloc: Global, kind: Number) -> Result<Iri, Memory>
    ensures { IfOk result (λ i. i ≡ datatype_of kind) }
{
    let mut text = Text::new(alloc);
    match kind {
        Number::Integer => text.push_ascii("http://www.w3.org/2001/XMLSchema#integer")?,
        Number::Decimal => text.push_ascii("http://www.w3.org/2001/XMLSchema#decimal")?,
        Number::Double => text.push_ascii("http://www.w3.org/2001/XMLSchema#double")?,
    }
    Ok(Iri::new(text))
}

/// The literal of a number, which keeps its spelling.
pub fn number(alloc: Global, kind: Number, text: Text) -> Result<Term, Memory>
    ensures { IfOk result (λ t. t ≡ number_of kind text) }
{
    let datatype = datatype(alloc, kind)?;
    Ok(Term::Lit(Literal {
        lexical: text,
        datatype,
        tag: None,
    }))
}
