ghost use Rattle.bye_terms.specs.Sameness.{literal_fed};
ghost use Rattle.std.specs.Prelude.{◌≡◌, fold, IfOk, IfSome, IsNone, Some, None, IsTrue, true, ◌↔◌, ◌++◌, codes};
ghost use Rattle.std.specs.Str.{encode_utf8_all};
ghost use Rattle.bye_terms.specs.Literals.{is_lang_string, lang_string, xsd_string};
ghost use Rattle.bye_terms.specs.Pieces.{left_of};
ghost use Rattle.bye_terms.specs.Spellings.{escaped, literal_bytes};
ghost use Rattle.bye_terms.specs.Valid.{IsRdfTerm};
ghost use Rattle.bye_terms.specs.declared.term.Term.TheVariants as terms;

use crate::iri::Iri;
use crate::memory::Memory;
use crate::spelling::Spelling;
use crate::tag::Tag;
use crate::text::Text;
use std::alloc::Global;
use std::hash::{Hash, Hasher};
use std::marker::Model;

/// A literal (RDF 1.1 Concepts, section 3.3). A tag is there exactly where the datatype is rdf:langString.
#[derive(Debug, Drop)]
pub struct Literal {
    pub lexical: Text,
    pub datatype: Iri,
    pub tag: Option<Tag>,
}

impl Model for Literal {
    ghost use Rattle.std.specs.Prelude.{◌≡◌, is_some};
    ghost use Rattle.bye_terms.specs.Literals.{LiteralValue, is_lang_string};

    ghost Value = { LiteralValue };

    ghost view = { λ l. record { lexical = l.lexical; datatype = l.datatype; tag = l.tag } };

    ghost invariant = { λ l. is_some l.tag ≡ is_lang_string l.datatype };
}

fn same_tag(one: &Option<Tag>, other: &Option<Tag>) -> bool
    ensures { IsTrue result ↔ (one.now ≡ other.now) }
{
    match (one, other) {
        (None, None) => true,
        (Some(a), Some(b)) => a.same(b),
        _ => false,
    }
}

/// The spelling of a string, with what follows it in three pieces.
fn quoted<'a>(lexical: &'a Text, middle: &'a [u8], text: &'a str, last: &'a [u8]) -> Spelling<'a>
    ensures { left_of result ≡ codes "\"" ++ escaped (encode_utf8_all lexical.now) ++ middle.now ++ text.now ++ last.now }
{
    Spelling {
        head: b"\"",
        lexical: lexical.as_str().as_bytes(),
        middle,
        text: text.as_bytes(),
        last,
    }
}

fn copy_tag(alloc: Global, tag: &Option<Tag>) -> Result<Option<Tag>, Memory>
    ensures { IfOk result (λ t. t ≡ tag.now) }
{
    match tag {
        None => Ok(None),
        Some(t) => Ok(Some(t.copy(alloc)?)),
    }
}

impl Literal {
    /// A literal without a language tag. None exactly where the datatype is rdf:langString.
    pub fn typed(lexical: Text, datatype: Iri) -> Option<Literal>
        ensures some { IfSome result (λ l. l ≡ record { lexical = lexical; datatype = datatype; tag = None }) }
        ensures none { IsNone result ↔ (is_lang_string datatype ≡ true) }
    {
        if datatype.is_lang_string() {
            return None;
        }
        Some(Literal {
            lexical,
            datatype,
            tag: None,
        })
    }

    /// A string without a language tag, whose datatype is xsd:string.
    pub fn string(alloc: Global, lexical: Text) -> Result<Literal, Memory>
        ensures { IfOk result (λ l. l ≡ record { lexical = lexical; datatype = xsd_string; tag = None }) }
    {
        let datatype = Iri::xsd_string(alloc)?;
        Ok(Literal {
            lexical,
            datatype,
            tag: None,
        })
    }

    /// A string with a language tag, whose datatype is rdf:langString.
    pub fn tagged(alloc: Global, lexical: Text, tag: Tag) -> Result<Literal, Memory>
        ensures { IfOk result (λ l. l ≡ record { lexical = lexical; datatype = lang_string; tag = Some tag }) }
    {
        let datatype = Iri::lang_string(alloc)?;
        Ok(Literal {
            lexical,
            datatype,
            tag: Some(tag),
        })
    }

    /// The literal, which its parts tell to be one of RDF.
    pub fn as_rdf(&self) -> &Literal
        ensures same { result.now ≡ self.now }
        ensures valid { IsRdfTerm (terms.Lit self.now) }
    {
        let _lexical = self.lexical.as_unicode();
        match &self.tag {
            Some(tag) => tag.text(),
            None => self.datatype.text(),
        };
        self
    }

    /// The lexical form.
    pub fn lexical(&self) -> &Text
        ensures { result.now ≡ self.now.lexical }
    {
        &self.lexical
    }

    /// The datatype.
    pub fn datatype(&self) -> &Iri
        ensures { result.now ≡ self.now.datatype }
    {
        &self.datatype
    }

    /// The language tag, where it has one.
    pub fn tag(&self) -> &Option<Tag>
        ensures { result.now ≡ self.now.tag }
    {
        &self.tag
    }

    /// Whether all parts of the two are equal, character by character.
    pub fn same(&self, other: &Literal) -> bool
        ensures { IsTrue result ↔ (self.now ≡ other.now) }
    {
        self.lexical.same(&other.lexical)
            && self.datatype.same(&other.datatype)
            && same_tag(&self.tag, &other.tag)
    }

    /// Feeds a hash the texts of the literal.
    pub fn hash_texts<H: Hasher>(&self, state: &mut H)
        ensures { state.new ≡ fold H.write state.old (literal_fed self.now) }
    {
        self.lexical.as_str().hash(state);
        self.datatype.text().as_str().hash(state);
        if let Some(tag) = &self.tag {
            tag.text().as_str().hash(state);
        }
    }

    /// An equal literal.
    pub fn copy(&self, alloc: Global) -> Result<Literal, Memory>
        ensures { IfOk result (λ l. l ≡ self.now) }
    {
        let lexical = self.lexical.copy(alloc)?;
        let datatype = self.datatype.copy(alloc)?;
        let tag = copy_tag(alloc, &self.tag)?;
        Ok(Literal {
            lexical,
            datatype,
            tag,
        })
    }

    /// The written spelling, as a row of pieces.
    pub fn spelling(&self) -> Spelling<'_>
        ensures { left_of result ≡ literal_bytes self.now }
    {
        match &self.tag {
            Some(tag) => quoted(&self.lexical, b"\"@", tag.text().as_str(), b""),
            None if self.datatype.is_xsd_string() => quoted(&self.lexical, b"\"", "", b""),
            None => quoted(&self.lexical, b"\"^^<", self.datatype.text().as_str(), b">"),
        }
    }
}
