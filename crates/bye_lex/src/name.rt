ghost use Rattle.bye_lex.specs.Answers.{IsBorder, Reads, text_at};
ghost use Rattle.bye_lex.specs.Machines.{stepped};
ghost use Rattle.bye_lex.specs.Marks.{NameToken};
ghost use Rattle.bye_lex.specs.NameSteps as spec;
ghost use Rattle.bye_lex.specs.declared.name.NameAt.TheVariants.{Start as spec_start, In as spec_in};
ghost use Rattle.bye_terms.specs.Characters.{is_name_part as is_part};
ghost use Rattle.std.specs.Prelude.{◌≡◌, ◌++◌, ◌∷◌, [], true, IfOk};
ghost use Rattle.std.specs.Str.{IsUtf8};

use crate::fault::LexErr;
use crate::machine::{Machine, read_token};
use crate::measure::size;
use crate::place::cursor_at;
use crate::stepped::Stepped;
use crate::style::Style;
use bye_terms::characters::{is_name_part, is_name_start};
use bye_terms::{Memory, Text, Var};
use std::alloc::Global;

/// How far the name of a variable was read, and what was read of it.
#[derive(Debug, Drop)]
pub enum NameAt {
    Start,
    In(Var),
}

/// The name with one more character.
#[tactic(auto, using(crate::proofs::Longer::name_longer))]
fn longer(name: Var, c: char) -> Result<Var, Memory>
    requires { is_part c ≡ true }
    ensures { IfOk result (λ n. n ≡ name ++ c ∷ []) }
{
    let text = name.into_name().with_char(c)?;
    Ok(Var::new(text))
}

fn start(alloc: Global, c: char) -> Result<Stepped<NameAt>, Memory>
    ensures { IfOk result (λ s. s ≡ stepped spec_start (spec.step spec_start c)) }
{
    if is_name_start(c) {
        let text = Text::new(alloc).with_char(c)?;
        return Ok(Stepped::On(NameAt::In(Var::new(text))));
    }
    Ok(Stepped::Off(NameAt::Start))
}

fn in_name(name: Var, c: char) -> Result<Stepped<NameAt>, Memory>
    ensures { IfOk result (λ s. s ≡ stepped (spec_in name) (spec.step (spec_in name) c)) }
{
    if is_name_part(c) {
        return Ok(Stepped::On(NameAt::In(longer(name, c)?)));
    }
    Ok(Stepped::Off(NameAt::In(name)))
}

impl Machine for NameAt {
    ghost use Rattle.bye_lex.specs.NameSteps as spec;
    ghost use Rattle.bye_lex.specs.Kept.{name_kept};

    type Token = Var;

    ghost next = { λ style. spec.step };

    ghost whole = { spec.final };

    ghost longest = { spec.final };

    ghost kept = { name_kept };

    #[tactic(auto, using(crate::proofs::Growing::name_grown))]
    fn step(self, alloc: Global, c: char, _style: Style) -> Result<Stepped<NameAt>, Memory> {
        match self {
            NameAt::Start => start(alloc, c),
            NameAt::In(name) => in_name(name, c),
        }
    }

    fn is_whole(&self) -> bool {
        matches!(self, NameAt::In(_))
    }

    fn into_longest(self, _alloc: Global) -> Option<Var> {
        match self {
            NameAt::In(name) => Some(name),
            NameAt::Start => None,
        }
    }

    fn kept(&self) -> usize {
        match self {
            NameAt::Start => 0,
            NameAt::In(name) => size(name.name()),
        }
    }
}

/// Reads the name of a variable, without its mark, at the place `from`, in bytes (SPARQL 1.1 Query, section 19.8, VARNAME).
/// It gives the variable and the place after it.
#[tactic(auto, using(crate::proofs::MarkReads::name_reads))]
pub fn name_at(alloc: Global, bytes: &[u8], from: usize) -> Result<(Var, usize), LexErr>
    requires utf8 { IsUtf8 bytes.now }
    requires border { IsBorder bytes.now from }
    ensures { Reads NameToken (text_at bytes.now from) from result }
{
    read_token(
        alloc,
        NameAt::Start,
        cursor_at(bytes, from),
        bytes.len(),
        Style::Triples,
    )
}
