ghost use Rattle.bye_lex.specs.Answers.{IsBorder, Reads, text_at};
ghost use Rattle.bye_lex.specs.LabelSteps as spec;
ghost use Rattle.bye_lex.specs.Machines.{stepped};
ghost use Rattle.bye_lex.specs.Marks.{LabelToken};
ghost use Rattle.bye_lex.specs.declared.label.LabelAt.TheVariants.{Start as spec_start, Underscore as spec_underscore, Colon as spec_colon, In as spec_in, Dotted as spec_dotted};
ghost use Rattle.bye_terms.specs.Characters.{is_label_part as is_part};
ghost use Rattle.std.specs.Prelude.{◌≡◌, ◌++◌, ◌∷◌, [], true, IfOk};
ghost use Rattle.std.specs.Str.{IsUtf8};

use crate::dots::Dots;
use crate::fault::LexErr;
use crate::machine::{Machine, read_token};
use crate::measure::size;
use crate::place::cursor_at;
use crate::stepped::Stepped;
use crate::style::Style;
use bye_terms::characters::{is_label_part, is_label_start};
use bye_terms::{Label, Memory, Text};
use std::alloc::Global;

/// How far the label of a blank node was read, with its mark, and what was read of it.
#[derive(Debug, Drop)]
pub enum LabelAt {
    Start,
    Underscore,
    Colon,
    In(Label),
    /// After dots, with which a label does not end.
    Dotted(Label, Dots),
}

/// The label with one more character.
#[tactic(auto, using(crate::proofs::Longer::label_longer))]
fn longer(label: Label, c: char) -> Result<Label, Memory>
    requires { is_part c ≡ true }
    ensures { IfOk result (λ l. l ≡ label ++ c ∷ []) }
{
    let text = label.into_text().with_char(c)?;
    Ok(Label::new(text))
}

/// The label with dots and one more character.
#[tactic(auto, using(crate::proofs::Longer::label_dotted))]
fn beyond(label: Label, dots: Dots, c: char) -> Result<Label, Memory>
    requires { is_part c ≡ true }
    ensures { IfOk result (λ l. l ≡ (label ++ dots) ++ c ∷ []) }
{
    let mut text = label.into_text();
    text.push_text(dots.text())?;
    let text = text.with_char(c)?;
    Ok(Label::new(text))
}

fn start(c: char) -> Stepped<LabelAt>
    ensures { result ≡ stepped spec_start (spec.step spec_start c) }
{
    if c == '_' {
        return Stepped::On(LabelAt::Underscore);
    }
    Stepped::Off(LabelAt::Start)
}

fn underscore(c: char) -> Stepped<LabelAt>
    ensures { result ≡ stepped spec_underscore (spec.step spec_underscore c) }
{
    if c == ':' {
        return Stepped::On(LabelAt::Colon);
    }
    Stepped::Off(LabelAt::Underscore)
}

fn colon(alloc: Global, c: char) -> Result<Stepped<LabelAt>, Memory>
    ensures { IfOk result (λ s. s ≡ stepped spec_colon (spec.step spec_colon c)) }
{
    if is_label_start(c) {
        let text = Text::new(alloc).with_char(c)?;
        return Ok(Stepped::On(LabelAt::In(Label::new(text))));
    }
    Ok(Stepped::Off(LabelAt::Colon))
}

fn in_label(alloc: Global, label: Label, c: char) -> Result<Stepped<LabelAt>, Memory>
    ensures { IfOk result (λ s. s ≡ stepped (spec_in label) (spec.step (spec_in label) c)) }
{
    if is_label_part(c) {
        return Ok(Stepped::On(LabelAt::In(longer(label, c)?)));
    }
    if c == '.' {
        return Ok(Stepped::On(LabelAt::Dotted(label, Dots::new(alloc)?)));
    }
    Ok(Stepped::Off(LabelAt::In(label)))
}

fn after_dots(label: Label, dots: Dots, c: char) -> Result<Stepped<LabelAt>, Memory>
    ensures { IfOk result (λ s. s ≡ stepped (spec_dotted label dots) (spec.step (spec_dotted label dots) c)) }
{
    if is_label_part(c) {
        return Ok(Stepped::On(LabelAt::In(beyond(label, dots, c)?)));
    }
    if c == '.' {
        return Ok(Stepped::On(LabelAt::Dotted(label, dots.with_dot()?)));
    }
    Ok(Stepped::Off(LabelAt::Dotted(label, dots)))
}

impl LabelAt {
    /// After a label and a dot.
    pub fn after_dot(alloc: Global, label: Label) -> Result<LabelAt, Memory>
        ensures { IfOk result (λ at. at ≡ spec_dotted label (46 ∷ [])) }
    {
        Ok(LabelAt::Dotted(label, Dots::new(alloc)?))
    }
}

impl Machine for LabelAt {
    ghost use Rattle.bye_lex.specs.LabelSteps as spec;
    ghost use Rattle.bye_lex.specs.Kept.{label_kept};

    type Token = Label;

    ghost next = { λ style. spec.step };

    ghost whole = { spec.final };

    ghost longest = { spec.longest };

    ghost kept = { label_kept };

    #[tactic(auto, using(crate::proofs::Growing::label_grown))]
    fn step(self, alloc: Global, c: char, _style: Style) -> Result<Stepped<LabelAt>, Memory> {
        match self {
            LabelAt::Start => Ok(start(c)),
            LabelAt::Underscore => Ok(underscore(c)),
            LabelAt::Colon => colon(alloc, c),
            LabelAt::In(label) => in_label(alloc, label, c),
            LabelAt::Dotted(label, dots) => after_dots(label, dots, c),
        }
    }

    fn is_whole(&self) -> bool {
        matches!(self, LabelAt::In(_))
    }

    fn into_longest(self, _alloc: Global) -> Option<Label> {
        match self {
            LabelAt::In(label) => Some(label),
            LabelAt::Dotted(label, _) => Some(label),
            _ => None,
        }
    }

    fn kept(&self) -> usize {
        match self {
            LabelAt::Start | LabelAt::Underscore | LabelAt::Colon => 0,
            LabelAt::In(label) => size(label.text()),
            LabelAt::Dotted(label, dots) => size(label.text()) + size(dots.text()),
        }
    }
}

/// Reads `_:` and the label of a blank node at the place `from`, in bytes (RDF 1.1 N-Triples, section 7, BLANK_NODE_LABEL).
/// It gives the label and the place after it.
#[tactic(auto, using(crate::proofs::MarkReads::label_reads))]
pub fn label_at(alloc: Global, bytes: &[u8], from: usize) -> Result<(Label, usize), LexErr>
    requires utf8 { IsUtf8 bytes.now }
    requires border { IsBorder bytes.now from }
    ensures { Reads LabelToken (text_at bytes.now from) from result }
{
    read_token(
        alloc,
        LabelAt::Start,
        cursor_at(bytes, from),
        bytes.len(),
        Style::Triples,
    )
}
