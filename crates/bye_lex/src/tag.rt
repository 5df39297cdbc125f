ghost use Rattle.bye_lex.specs.Answers.{IsBorder, Reads, text_at};
ghost use Rattle.bye_lex.specs.Machines.{stepped};
ghost use Rattle.bye_lex.specs.Marks.{TagToken};
ghost use Rattle.bye_lex.specs.TagSteps as spec;
ghost use Rattle.bye_lex.specs.declared.tag.TagAt.TheVariants.{Start as spec_start, Sign as spec_sign, Letters as spec_letters, Hyphen as spec_hyphen, Subtag as spec_subtag};
ghost use Rattle.bye_terms.specs.Characters.{is_letter as is_alpha};
ghost use Rattle.std.specs.Prelude.{◌≡◌, ◌++◌, ◌∷◌, [], true, IfOk};
ghost use Rattle.std.specs.Str.{IsUtf8};

use crate::fault::LexErr;
use crate::machine::{Machine, read_token};
use crate::measure::size;
use crate::place::cursor_at;
use crate::stepped::Stepped;
use crate::style::Style;
use crate::subtagged::Subtagged;
use bye_terms::characters::{is_letter, is_letter_or_digit};
use bye_terms::{Memory, Tag, Text};
use std::alloc::Global;

/// How far a language tag was read, with its mark, and what was read of it.
#[derive(Debug, Drop)]
pub enum TagAt {
    Start,
    Sign,
    Letters(Tag),
    /// After a hyphen, with which a tag does not end.
    Hyphen(Tag),
    Subtag(Subtagged),
}

/// The tag with one more letter.
#[tactic(auto, using(crate::proofs::Longer::tag_longer))]
fn longer(tag: Tag, c: char) -> Result<Tag, Memory>
    requires { is_alpha c ≡ true }
    ensures { IfOk result (λ t. t ≡ tag ++ c ∷ []) }
{
    let text = tag.into_text().with_char(c)?;
    Ok(Tag::new(text))
}

fn start(c: char) -> Stepped<TagAt>
    ensures { result ≡ stepped spec_start (spec.step spec_start c) }
{
    if c == '@' {
        return Stepped::On(TagAt::Sign);
    }
    Stepped::Off(TagAt::Start)
}

fn sign(alloc: Global, c: char) -> Result<Stepped<TagAt>, Memory>
    ensures { IfOk result (λ s. s ≡ stepped spec_sign (spec.step spec_sign c)) }
{
    if is_letter(c) {
        let text = Text::new(alloc).with_char(c)?;
        return Ok(Stepped::On(TagAt::Letters(Tag::new(text))));
    }
    Ok(Stepped::Off(TagAt::Sign))
}

fn letters(tag: Tag, c: char) -> Result<Stepped<TagAt>, Memory>
    ensures { IfOk result (λ s. s ≡ stepped (spec_letters tag) (spec.step (spec_letters tag) c)) }
{
    if is_letter(c) {
        return Ok(Stepped::On(TagAt::Letters(longer(tag, c)?)));
    }
    if c == '-' {
        return Ok(Stepped::On(TagAt::Hyphen(tag)));
    }
    Ok(Stepped::Off(TagAt::Letters(tag)))
}

fn hyphen(tag: Tag, c: char) -> Result<Stepped<TagAt>, Memory>
    ensures { IfOk result (λ s. s ≡ stepped (spec_hyphen tag) (spec.step (spec_hyphen tag) c)) }
{
    if is_letter_or_digit(c) {
        return Ok(Stepped::On(TagAt::Subtag(Subtagged::new(tag, c)?)));
    }
    Ok(Stepped::Off(TagAt::Hyphen(tag)))
}

fn subtag(tag: Subtagged, c: char) -> Result<Stepped<TagAt>, Memory>
    ensures { IfOk result (λ s. s ≡ stepped (spec_subtag tag) (spec.step (spec_subtag tag) c)) }
{
    if is_letter_or_digit(c) {
        return Ok(Stepped::On(TagAt::Subtag(tag.with_char(c)?)));
    }
    if c == '-' {
        return Ok(Stepped::On(TagAt::Hyphen(tag.into_tag())));
    }
    Ok(Stepped::Off(TagAt::Subtag(tag)))
}

impl Machine for TagAt {
    ghost use Rattle.bye_lex.specs.TagSteps as spec;
    ghost use Rattle.bye_lex.specs.Kept.{tag_kept};

    type Token = Tag;

    ghost next = { λ style. spec.step };

    ghost whole = { spec.final };

    ghost longest = { spec.longest };

    ghost kept = { tag_kept };

    #[tactic(auto, using(crate::proofs::Growing::tag_grown))]
    fn step(self, alloc: Global, c: char, _style: Style) -> Result<Stepped<TagAt>, Memory> {
        match self {
            TagAt::Start => Ok(start(c)),
            TagAt::Sign => sign(alloc, c),
            TagAt::Letters(tag) => letters(tag, c),
            TagAt::Hyphen(tag) => hyphen(tag, c),
            TagAt::Subtag(tag) => subtag(tag, c),
        }
    }

    fn is_whole(&self) -> bool {
        matches!(self, TagAt::Letters(_) | TagAt::Subtag(_))
    }

    fn into_longest(self, _alloc: Global) -> Option<Tag> {
        match self {
            TagAt::Letters(tag) => Some(tag),
            TagAt::Hyphen(tag) => Some(tag),
            TagAt::Subtag(tag) => Some(tag.into_tag()),
            _ => None,
        }
    }

    fn kept(&self) -> usize {
        match self {
            TagAt::Start | TagAt::Sign => 0,
            TagAt::Letters(tag) => size(tag.text()),
            TagAt::Hyphen(tag) => size(tag.text()) + 1,
            TagAt::Subtag(tag) => size(tag.text()),
        }
    }
}

/// Reads `@` and the language tag at the place `from`, in bytes (RDF 1.1 N-Triples, section 7, LANGTAG).
/// It gives the tag and the place after it.
#[tactic(auto, using(crate::proofs::MarkReads::tag_reads))]
pub fn tag_at(alloc: Global, bytes: &[u8], from: usize) -> Result<(Tag, usize), LexErr>
    requires utf8 { IsUtf8 bytes.now }
    requires border { IsBorder bytes.now from }
    ensures { Reads TagToken (text_at bytes.now from) from result }
{
    read_token(
        alloc,
        TagAt::Start,
        cursor_at(bytes, from),
        bytes.len(),
        Style::Triples,
    )
}
