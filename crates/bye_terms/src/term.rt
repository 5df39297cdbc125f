ghost use Rattle.std.specs.Prelude.{◌≡◌, IfOk, IsTrue, ◌↔◌, ◌++◌};
ghost use Rattle.std.specs.Cmp.Lexicographic.{slice_cmp};
ghost use Rattle.std.specs.Ordering.{nat_cmp};
ghost use Rattle.std.specs.Str.{encode_utf8_all};
ghost use Rattle.bye_terms.specs.Pieces.{left_of};
ghost use Rattle.bye_terms.specs.Spellings.{term_bytes};
ghost use Rattle.bye_terms.specs.Valid.{IsRdfTerm};

use crate::iri::Iri;
use crate::label::Label;
use crate::literal::Literal;
use crate::memory::Memory;
use crate::spelling::{Spelling, compare};
use crate::text::Text;
use std::alloc::Global;
use std::cmp::Ordering;
use std::hash::{Hash, Hasher};

/// A term of RDF (RDF 1.1 Concepts, section 3): an IRI, a blank node with its label, or a literal.
#[derive(Debug, Drop)]
pub enum Term {
    Iri(Iri),
    Blank(Label),
    Lit(Literal),
}

/// The spelling of a text that stands between two others as it is.
fn unescaped<'a>(head: &'a [u8], text: &'a Text, last: &'a [u8]) -> Spelling<'a>
    ensures { left_of result ≡ head.now ++ encode_utf8_all text.now ++ last.now }
{
    Spelling {
        head,
        lexical: b"",
        middle: b"",
        text: text.as_str().as_bytes(),
        last,
    }
}

impl Term {
    /// The term, which its parts tell to be one of RDF.
    pub fn as_rdf(&self) -> &Term
        ensures same { result.now ≡ self.now }
        ensures valid { IsRdfTerm self.now }
    {
        match self {
            Term::Iri(iri) => {
                let _text = iri.text();
            }
            Term::Blank(label) => {
                let _text = label.text();
            }
            Term::Lit(literal) => {
                let _literal = literal.as_rdf();
            }
        }
        self
    }

    /// Whether the two are the same term: all parts equal, character by character.
    pub fn same(&self, other: &Term) -> bool
        ensures { IsTrue result ↔ (self.now ≡ other.now) }
    {
        match (self, other) {
            (Term::Iri(a), Term::Iri(b)) => a.same(b),
            (Term::Blank(a), Term::Blank(b)) => a.same(b),
            (Term::Lit(a), Term::Lit(b)) => a.same(b),
            _ => false,
        }
    }

    /// An equal term.
    pub fn copy(&self, alloc: Global) -> Result<Term, Memory>
        ensures { IfOk result (λ t. t ≡ self.now) }
    {
        match self {
            Term::Iri(a) => Ok(Term::Iri(a.copy(alloc)?)),
            Term::Blank(a) => Ok(Term::Blank(a.copy(alloc)?)),
            Term::Lit(a) => Ok(Term::Lit(a.copy(alloc)?)),
        }
    }

    fn spelling(&self) -> Spelling<'_>
        ensures { left_of result ≡ term_bytes self.now }
    {
        match self {
            Term::Iri(iri) => unescaped(b"<", iri.text(), b">"),
            Term::Blank(label) => unescaped(b"_:", label.text(), b""),
            Term::Lit(literal) => literal.spelling(),
        }
    }

    /// The order of the two terms by the bytes of their whole N-Triples spellings.
    pub fn cmp(&self, other: &Term) -> Ordering
        ensures { result ≡ slice_cmp nat_cmp (term_bytes self.now) (term_bytes other.now) }
    {
        compare(self.spelling(), other.spelling())
    }
}

impl PartialEq for Term {
    ghost use Rattle.std.specs.Cmp.{partial_equiv_from_equiv};
    ghost use Rattle.bye_terms.specs.Sameness.{same_equivalence, same_term};

    ghost eq = { same_term };

    ghost laws = { partial_equiv_from_equiv same_equivalence };

    fn eq(&self, other: &Term) -> bool {
        self.same(other)
    }
}

impl Eq for Term {
    ghost use Rattle.bye_terms.specs.Sameness.{same_equivalence};

    ghost laws = { same_equivalence };
}

impl Hash for Term {
    ghost use Rattle.bye_terms.specs.Sameness.{same_fed, term_fed};

    ghost hash_input = { term_fed };

    ghost respects_eq = { same_fed };

    fn hash<H: Hasher>(&self, state: &mut H) {
        match self {
            Term::Iri(iri) => {
                state.write_u8(0);
                iri.text().as_str().hash(state);
            }
            Term::Blank(label) => {
                state.write_u8(1);
                label.text().as_str().hash(state);
            }
            Term::Lit(literal) => {
                state.write_u8(2);
                literal.hash_texts(state);
            }
        }
    }
}

#[cfg(test)]
mod tests {
    use super::*;
    use crate::memory::push_item;
    use std::test::Fail;

    fn text(alloc: Global, s: &str) -> Result<Text, Fail> {
        Ok(Text::copy_of(alloc, s)?)
    }

    fn string(alloc: Global, s: &str) -> Result<Term, Fail> {
        Ok(Term::Lit(Literal::string(alloc, text(alloc, s)?)?))
    }

    fn iri(alloc: Global, s: &str) -> Result<Term, Fail> {
        Ok(Term::Iri(Iri::from_text(text(alloc, s)?).ok_or("no IRI")?))
    }

    fn blank(alloc: Global, s: &str) -> Result<Term, Fail> {
        Ok(Term::Blank(Label::from_text(text(alloc, s)?).ok_or("no label")?))
    }

    #[test]
    fn orders_terms_by_their_spellings(rt: HostRuntime) -> Result<(), Fail> {
        let alloc = rt.alloc();
        let mut terms = Vec::new(alloc);
        // The escape of the line feed stands between the letters P and p, and the bracket above the digits.
        for s in ["aP", "a\n", "ap"] {
            push_item(&mut terms, string(alloc, s)?)?;
        }
        for s in ["http://e/p10", "http://e/p1"] {
            push_item(&mut terms, iri(alloc, s)?)?;
        }
        push_item(&mut terms, blank(alloc, "a")?)?;
        for (i, one) in terms.iter().enumerate() {
            for (j, other) in terms.iter().enumerate() {
                assert_eq!(rt; one.cmp(other), i.cmp(&j), "{one:?} and {other:?}");
                assert_eq!(rt; one.same(other), i == j, "{one:?} and {other:?}");
            }
            assert_eq!(rt; one.cmp(&one.copy(alloc)?), Ordering::Equal, "{one:?}");
        }
        Ok(())
    }
}
