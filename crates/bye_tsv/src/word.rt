//! The words `true` and `false`, and the literals that they are short for.

ghost use Rattle.bye_tsv.specs.Fields.{boolean_of};
ghost use Rattle.bye_tsv.specs.FieldSteps as spec;
ghost use Rattle.bye_tsv.specs.Kept.{word_kept};
ghost use Rattle.std.specs.Prelude.{◌≡◌, IfOk};

use bye_terms::{Iri, Literal, Memory, Term, Text};
use std::alloc::Global;

/// How far a word was read: its letters up to there.
#[derive(Debug, Clone, Copy)]
pub enum WordAt {
    T,
    Tr,
    Tru,
    True,
    F,
    Fa,
    Fal,
    Fals,
    False,
}

impl WordAt {
    /// The state after one more character, and None where no continuation is a word.
    pub fn step(self, c: char) -> Option<WordAt>
        ensures { result ≡ spec.word_step self c }
    {
        match (self, c) {
            (WordAt::T, 'r') => Some(WordAt::Tr),
            (WordAt::Tr, 'u') => Some(WordAt::Tru),
            (WordAt::Tru, 'e') => Some(WordAt::True),
            (WordAt::F, 'a') => Some(WordAt::Fa),
            (WordAt::Fa, 'l') => Some(WordAt::Fal),
            (WordAt::Fal, 's') => Some(WordAt::Fals),
            (WordAt::Fals, 'e') => Some(WordAt::False),
            _ => None,
        }
    }

    /// How many letters were read.
    pub fn kept(self) -> usize
        ensures { result ≡ word_kept self }
    {
        match self {
            WordAt::T | WordAt::F => 1,
            WordAt::Tr | WordAt::Fa => 2,
            WordAt::Tru | WordAt::Fal => 3,
            WordAt::True | WordAt::Fals => 4,
            WordAt::False => 5,
        }
    }

    /// The value of what was read, where it is a word.
    pub fn value(self) -> Option<bool>
        ensures { result ≡ spec.word_value self }
    {
        match self {
            WordAt::True => Some(true),
            WordAt::False => Some(false),
            _ => None,
        }
    }
}

/// The literal of a word.
pub fn boolean(alloc: Global, value: bool) -> Result<Term, Memory>
    ensures { IfOk result (λ t. t ≡ boolean_of value) }
{
    let mut lexical = Text::new(alloc);
    lexical.push_ascii(if value { "true" } else { "false" })?;
    let mut datatype = Text::new(alloc);
    datatype.push_ascii("http://www.w3.org/2001/XMLSchema#boolean")?;
    Ok(Term::Lit(Literal {
        lexical,
        datatype: Iri::new(datatype),
        tag: None,
    }))
}
