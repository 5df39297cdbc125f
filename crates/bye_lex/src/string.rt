ghost use Rattle.bye_lex.specs.Answers.{IsBorder, Reads, text_at};
ghost use Rattle.bye_lex.specs.Machines.{stepped};
ghost use Rattle.bye_lex.specs.Strings as strings;
ghost use Rattle.bye_lex.specs.Strings.{StringToken};
ghost use Rattle.bye_lex.specs.StringSteps as spec;
ghost use Rattle.bye_lex.specs.declared.string.StringAt.TheVariants.{Start as spec_start, Opened as spec_opened, Empty as spec_empty, In as spec_in, Backslash as spec_backslash, Escape as spec_escape, OneQuote as spec_one, TwoQuotes as spec_two};
ghost use Rattle.std.specs.Prelude.{◌≡◌, ◌++◌, ◌∷◌, [], Some, true, IfOk};
ghost use Rattle.std.specs.Str.{IsUtf8};

use crate::escape::{EscapeAt, EscapeStep, Home};
use crate::fault::LexErr;
use crate::machine::{Machine, read_token};
use crate::measure::size;
use crate::place::cursor_at;
use crate::quoting::{Quote, Quoting};
use crate::stepped::Stepped;
use crate::style::Style;
use bye_terms::{Memory, Text};
use std::alloc::Global;

/// How far a string was read, with what was read of it.
#[derive(Debug, Drop)]
pub enum StringAt {
    Start,
    /// After the first quote, where more of them may follow.
    Opened(Quote),
    /// After two quotes, which are the empty string unless a third follows.
    Empty(Quote),
    In(Quoting, Text),
    Backslash(Quoting, Text),
    Escape(Quoting, EscapeAt, Text),
    /// In a long string after a quote that may close it.
    OneQuote(Quote, Text),
    TwoQuotes(Quote, Text),
    Done(Text),
}

/// The character that stands for itself after a backslash, or is named there (ECHAR).
fn named(c: char) -> Option<char>
    ensures { result ≡ strings.named c }
{
    match c {
        't' => Some('\t'),
        'b' => Some('\u{8}'),
        'n' => Some('\n'),
        'r' => Some('\r'),
        'f' => Some('\u{C}'),
        '"' | '\'' | '\\' => Some(c),
        _ => None,
    }
}

fn opened(alloc: Global, quote: Quote, style: Style) -> StringAt
    ensures { result ≡ spec.opened style quote }
{
    match style {
        Style::Triples | Style::Tsv => StringAt::In(Quoting::Short(quote), Text::new(alloc)),
        Style::Query => StringAt::Opened(quote),
    }
}

fn start(alloc: Global, c: char, style: Style) -> Stepped<StringAt>
    ensures { result ≡ stepped spec_start (spec.step style spec_start c) }
{
    match (c, style) {
        ('"', _) => Stepped::On(opened(alloc, Quote::Double, style)),
        ('\'', Style::Tsv | Style::Query) => Stepped::On(opened(alloc, Quote::Single, style)),
        _ => Stepped::Off(StringAt::Start),
    }
}

/// After a character that stands raw or begins an escape.
fn inside(quoting: Quoting, text: Text, c: char, style: Style) -> Result<StringAt, Memory>
    requires { spec.takes style quoting c ≡ true }
    ensures { IfOk result (λ at. spec.inside style quoting text c ≡ Some at) }
{
    if c == '\\' {
        return Ok(StringAt::Backslash(quoting, text));
    }
    Ok(StringAt::In(quoting, text.with_char(c)?))
}

fn after_quote(
    alloc: Global,
    quote: Quote,
    c: char,
    style: Style,
) -> Result<Stepped<StringAt>, Memory>
    ensures { IfOk result (λ s. s ≡ stepped (spec_opened quote) (spec.step style (spec_opened quote) c)) }
{
    if c == quote.mark() {
        return Ok(Stepped::On(StringAt::Empty(quote)));
    }
    let quoting = Quoting::Short(quote);
    if !quoting.takes(c, style) {
        return Ok(Stepped::Off(StringAt::Opened(quote)));
    }
    Ok(Stepped::On(inside(quoting, Text::new(alloc), c, style)?))
}

fn after_two(alloc: Global, quote: Quote, c: char, style: Style) -> Stepped<StringAt>
    ensures { result ≡ stepped (spec_empty quote) (spec.step style (spec_empty quote) c) }
{
    if c == quote.mark() {
        return Stepped::On(StringAt::In(Quoting::Long(quote), Text::new(alloc)));
    }
    Stepped::Off(StringAt::Empty(quote))
}

fn in_string(
    quoting: Quoting,
    text: Text,
    c: char,
    style: Style,
) -> Result<Stepped<StringAt>, Memory>
    ensures { IfOk result (λ s. s ≡ stepped (spec_in quoting text) (spec.step style (spec_in quoting text) c)) }
{
    match quoting {
        Quoting::Short(quote) if c == quote.mark() => Ok(Stepped::On(StringAt::Done(text))),
        Quoting::Long(quote) if c == quote.mark() => {
            Ok(Stepped::On(StringAt::OneQuote(quote, text)))
        }
        _ if !quoting.takes(c, style) => Ok(Stepped::Off(StringAt::In(quoting, text))),
        _ => Ok(Stepped::On(inside(quoting, text, c, style)?)),
    }
}

fn after_backslash(
    quoting: Quoting,
    text: Text,
    c: char,
    style: Style,
) -> Result<Stepped<StringAt>, Memory>
    ensures { IfOk result (λ s. s ≡ stepped (spec_backslash quoting text) (spec.step style (spec_backslash quoting text) c)) }
{
    if let Some(c) = named(c) {
        return Ok(Stepped::On(StringAt::In(quoting, text.with_char(c)?)));
    }
    if !style.has_numbers() {
        return Ok(Stepped::Off(StringAt::Backslash(quoting, text)));
    }
    match EscapeAt::begin(c) {
        Some(at) => Ok(Stepped::On(StringAt::Escape(quoting, at, text))),
        None => Ok(Stepped::Off(StringAt::Backslash(quoting, text))),
    }
}

fn in_escape(
    quoting: Quoting,
    at: EscapeAt,
    text: Text,
    c: char,
    style: Style,
) -> Result<Stepped<StringAt>, Memory>
    ensures { IfOk result (λ s. s ≡ stepped (spec_escape quoting at text) (spec.step style (spec_escape quoting at text) c)) }
{
    match at.step(c, Home::Text) {
        Some(EscapeStep::Within(at)) => Ok(Stepped::On(StringAt::Escape(quoting, at, text))),
        Some(EscapeStep::Whole(c)) => Ok(Stepped::On(StringAt::In(quoting, text.with_char(c)?))),
        None => Ok(Stepped::Off(StringAt::Escape(quoting, at, text))),
    }
}

fn one_quote(quote: Quote, text: Text, c: char, style: Style) -> Result<Stepped<StringAt>, Memory>
    ensures { IfOk result (λ s. s ≡ stepped (spec_one quote text) (spec.step style (spec_one quote text) c)) }
{
    if c == quote.mark() {
        return Ok(Stepped::On(StringAt::TwoQuotes(quote, text)));
    }
    let quoting = Quoting::Long(quote);
    if !quoting.takes(c, style) {
        return Ok(Stepped::Off(StringAt::OneQuote(quote, text)));
    }
    let text = text.with_char(quote.mark())?;
    Ok(Stepped::On(inside(quoting, text, c, style)?))
}

fn two_quotes(quote: Quote, text: Text, c: char, style: Style) -> Result<Stepped<StringAt>, Memory>
    ensures { IfOk result (λ s. s ≡ stepped (spec_two quote text) (spec.step style (spec_two quote text) c)) }
{
    if c == quote.mark() {
        return Ok(Stepped::On(StringAt::Done(text)));
    }
    let quoting = Quoting::Long(quote);
    if !quoting.takes(c, style) {
        return Ok(Stepped::Off(StringAt::TwoQuotes(quote, text)));
    }
    let text = text.with_char(quote.mark())?.with_char(quote.mark())?;
    Ok(Stepped::On(inside(quoting, text, c, style)?))
}

/// The empty string, which two quotes are before a third makes them the beginning of a long one.
fn empty_before(alloc: Global, quoting: Quoting) -> Option<Text>
    ensures { result ≡ spec.empty_before quoting }
{
    match quoting {
        Quoting::Short(_) => None,
        Quoting::Long(_) => Some(Text::new(alloc)),
    }
}

impl Machine for StringAt {
    ghost use Rattle.bye_lex.specs.StringSteps as spec;
    ghost use Rattle.bye_lex.specs.Kept.{string_kept};

    type Token = Text;

    ghost next = { spec.step };

    ghost whole = { spec.final };

    ghost longest = { spec.longest };

    ghost kept = { string_kept };

    #[tactic(auto, using(crate::proofs::Growing::string_grown))]
    fn step(self, alloc: Global, c: char, style: Style) -> Result<Stepped<StringAt>, Memory> {
        match self {
            StringAt::Start => Ok(start(alloc, c, style)),
            StringAt::Opened(quote) => after_quote(alloc, quote, c, style),
            StringAt::Empty(quote) => Ok(after_two(alloc, quote, c, style)),
            StringAt::In(quoting, text) => in_string(quoting, text, c, style),
            StringAt::Backslash(quoting, text) => after_backslash(quoting, text, c, style),
            StringAt::Escape(quoting, at, text) => in_escape(quoting, at, text, c, style),
            StringAt::OneQuote(quote, text) => one_quote(quote, text, c, style),
            StringAt::TwoQuotes(quote, text) => two_quotes(quote, text, c, style),
            StringAt::Done(text) => Ok(Stepped::Off(StringAt::Done(text))),
        }
    }

    fn is_whole(&self) -> bool {
        matches!(self, StringAt::Empty(_) | StringAt::Done(_))
    }

    fn into_longest(self, alloc: Global) -> Option<Text> {
        match self {
            StringAt::Start | StringAt::Opened(_) => None,
            StringAt::Empty(_) | StringAt::OneQuote(_, _) | StringAt::TwoQuotes(_, _) => {
                Some(Text::new(alloc))
            }
            StringAt::In(quoting, _) => empty_before(alloc, quoting),
            StringAt::Backslash(quoting, _) => empty_before(alloc, quoting),
            StringAt::Escape(quoting, _, _) => empty_before(alloc, quoting),
            StringAt::Done(text) => Some(text),
        }
    }

    fn kept(&self) -> usize {
        match self {
            StringAt::Start | StringAt::Opened(_) | StringAt::Empty(_) => 0,
            StringAt::In(_, text) => size(text),
            StringAt::Backslash(_, text) => size(text) + 1,
            StringAt::Escape(_, at, text) => size(text) + at.kept(),
            StringAt::OneQuote(_, text) => size(text) + 1,
            StringAt::TwoQuotes(_, text) => size(text) + 2,
            StringAt::Done(text) => size(text),
        }
    }
}

/// Reads the string with its quotes at the place `from`, in bytes (RDF 1.1 N-Triples, section 7, STRING_LITERAL_QUOTE;
/// SPARQL 1.1 Query, section 19.8). It gives what the string stands for and the place after it.
#[tactic(auto, using(crate::proofs::StringReads::string_reads))]
pub fn string_at(
    alloc: Global,
    bytes: &[u8],
    from: usize,
    style: Style,
) -> Result<(Text, usize), LexErr>
    requires utf8 { IsUtf8 bytes.now }
    requires border { IsBorder bytes.now from }
    ensures { Reads (StringToken style) (text_at bytes.now from) from result }
{
    read_token(
        alloc,
        StringAt::Start,
        cursor_at(bytes, from),
        bytes.len(),
        style,
    )
}
