ghost use Rattle.std.specs.Prelude.{◌≡◌, List, ℕ, IfOk, IfSome, IfNone, IsTrue, true, false, ◌↔◌};
ghost use Rattle.std.specs.Str.{all_scalars};
ghost use Rattle.bye_terms.specs.Literals as literals;
ghost use Rattle.bye_terms.specs.Names.{is_iri};

use crate::memory::Memory;
use crate::rules;
use crate::text::Text;
use std::alloc::Global;
use std::marker::Model;

/// An absolute IRI, without its brackets (RDF 1.1 Concepts, section 3.2).
#[derive(Debug, Drop)]
pub struct Iri {
    text: Text,
}

impl Model for Iri {
    ghost Value = { List ℕ };

    ghost view = { λ i. i.text };

    ghost invariant = { λ i. is_iri i.text ≡ true };
}

impl Iri {
    /// The IRI of a text that is one.
    pub fn new(text: Text) -> Iri
        requires { is_iri text ≡ true }
        ensures { result ≡ text }
    {
        Iri { text }
    }

    /// None exactly where the text is no absolute IRI.
    pub fn from_text(text: Text) -> Option<Iri>
        ensures some { IfSome result (λ i. (i ≡ text) × IsTrue (is_iri text)) }
        ensures none { IfNone result (is_iri text ≡ false) }
    {
        if rules::is_iri(text.as_str()) {
            Some(Iri { text })
        } else {
            None
        }
    }

    /// xsd:string, the datatype of a string without a tag (RDF 1.1 Concepts, section 3.3).
    pub fn xsd_string(alloc: Global) -> Result<Iri, Memory>
        ensures { IfOk result (λ i. i ≡ literals.xsd_string) }
    {
        let mut text = Text::new(alloc);
        text.push_ascii("http://www.w3.org/2001/XMLSchema#string")?;
        Ok(Iri { text })
    }

    /// rdf:langString, the datatype of the strings with a language tag (RDF 1.1 Concepts, section 3.3).
    pub fn lang_string(alloc: Global) -> Result<Iri, Memory>
        ensures { IfOk result (λ i. i ≡ literals.lang_string) }
    {
        let mut text = Text::new(alloc);
        text.push_ascii("http://www.w3.org/1999/02/22-rdf-syntax-ns#langString")?;
        Ok(Iri { text })
    }

    /// The text of the IRI, given up.
    pub fn into_text(self) -> Text
        ensures text { result ≡ self }
        ensures valid { IsTrue (is_iri self) }
    {
        self.text
    }

    /// The text of the IRI, which no `<` and no `>` stands around.
    pub fn text(&self) -> &Text
        ensures text { result.now ≡ self.now }
        ensures valid { IsTrue (is_iri self.now) }
        ensures scalars { IsTrue (all_scalars self.now) }
    {
        self.text.as_unicode()
    }

    /// Whether the two are equal, character by character.
    pub fn same(&self, other: &Iri) -> bool
        ensures { IsTrue result ↔ (self.now ≡ other.now) }
    {
        self.text.same(&other.text)
    }

    /// An equal one.
    pub fn copy(&self, alloc: Global) -> Result<Iri, Memory>
        ensures { IfOk result (λ t. t ≡ self.now) }
    {
        let text = self.text.copy(alloc)?;
        Ok(Iri { text })
    }

    /// Whether it is xsd:string, which is not written after a string.
    pub fn is_xsd_string(&self) -> bool
        ensures { result ≡ literals.is_xsd_string self.now }
    {
        self.text.as_str() == "http://www.w3.org/2001/XMLSchema#string"
    }

    /// Whether it is rdf:langString, the datatype of the strings with a language tag.
    pub fn is_lang_string(&self) -> bool
        ensures { result ≡ literals.is_lang_string self.now }
    {
        self.text.as_str() == "http://www.w3.org/1999/02/22-rdf-syntax-ns#langString"
    }
}
