//! Tokens and their places, near misses among them, from the rules of the grammar.

use super::*;
use std::alloc::Global;
use std::test::Fail;

/// The kind of number, as the tests write it.
fn number_name(number: Number) -> &'static str {
    match number {
        Number::Integer => "integer",
        Number::Decimal => "decimal",
        Number::Double => "double",
    }
}

/// A token as the tests write it.
fn told(alloc: Global, token: &Token) -> Result<String, Fail> {
    let text = match token {
        Token::IriRef(iri) => format!(in alloc; "<{}>", iri.as_str())?,
        Token::Prefixed(prefix, local) => {
            let prefix = prefix.as_str();
            let local = local.as_str();
            format!(in alloc; "[{prefix}|{local}]")?
        }
        Token::Variable(name) => format!(in alloc; "?{}", name.name().as_str())?,
        Token::Quoted(text) => format!(in alloc; "'{}'", text.as_str())?,
        Token::Tagged(tag) => format!(in alloc; "@{}", tag.text().as_str())?,
        Token::Numeral(number, text) => {
            let name = number_name(*number);
            let text = text.as_str();
            format!(in alloc; "{name}:{text}")?
        }
        Token::Keyword(word) => format!(in alloc; "{word:?}")?,
        Token::Mark(sign) => format!(in alloc; "{sign:?}")?,
        Token::Bad(c) => format!(in alloc; "bad:{c}")?,
    };
    Ok(text)
}

/// The first tokens of a text, each before its place, and the place at which they end.
fn split(alloc: Global, text: &str) -> Result<String, Fail> {
    let mut out = String::new(alloc);
    let mut tokens = match Tokens::new(alloc, text) {
        Ok(tokens) => tokens,
        Err(memory) => return Err(Fail::from(memory)),
    };
    for _ in 0..12 {
        let Some(placed) = tokens.next()? else {
            break;
        };
        let token = told(alloc, &placed.token)?;
        out.push_str(token.as_str())?;
        let place = placed.place;
        let place = format!(in alloc; "@{place} ")?;
        out.push_str(place.as_str())?;
    }
    let end = tokens.place();
    let end = format!(in alloc; "{end}")?;
    out.push_str(end.as_str())?;
    Ok(out)
}

#[test]
fn reads_numbers_and_signs(rt: HostRuntime) -> Result<(), Fail> {
    for (text, want) in [
        ("1.}", "integer:1@0 Dot@1 CloseGroup@2 3"),
        ("1.e5", "double:1.e5@0 4"),
        (".5", "decimal:.5@0 2"),
        ("1e", "integer:1@0 Other@1 2"),
        ("+", "Plus@0 1"),
        ("+1", "integer:+1@0 2"),
        ("-.5E-3.", "double:-.5E-3@0 Dot@6 7"),
        ("+ 01.20", "Plus@0 decimal:01.20@2 7"),
        ("..", "Dot@0 Dot@1 2"),
        ("<", "Less@0 1"),
        ("<=", "AtMost@0 2"),
        ("<=>", "<=>@0 3"),
        ("<>", "<>@0 2"),
        ("<a b>", "Less@0 A@1 Other@3 Greater@4 5"),
        (">=>", "AtLeast@0 Greater@2 3"),
        ("^^^", "Carets@0 Caret@2 3"),
        ("&&&", "And@0 bad:&@2 3"),
        ("|||", "Or@0 Bar@2 3"),
        ("!=!", "Differs@0 Bang@2 3"),
        ("_:", "BlankMark@0 2"),
        ("_:a", "BlankMark@0 A@2 3"),
        ("_", "bad:_@0 1"),
        (
            "{}()[]*/;,-=",
            "OpenGroup@0 CloseGroup@1 Open@2 Close@3 OpenSquare@4 CloseSquare@5 Star@6 Slash@7 Semicolon@8 Comma@9 Dash@10 Equal@11 12",
        ),
    ] {
        let got = split(rt.alloc(), text)?;
        assert_eq!(rt; got.as_str(), want, "{text:?}");
    }
    Ok(())
}

#[test]
fn reads_names_and_words(rt: HostRuntime) -> Result<(), Fail> {
    for (text, want) in [
        ("e:a.b.", "[e|a.b]@0 Dot@5 6"),
        ("e:%41", "[e|%41]@0 5"),
        ("e:%4", "[e|]@0 bad:%@2 integer:4@3 4"),
        ("e:\\,x\\.", "[e|,x.]@0 7"),
        ("e:\\a", "[e|]@0 bad:\\@2 A@3 4"),
        ("e:", "[e|]@0 2"),
        (":", "[|]@0 1"),
        (":a::0", "[|a::0]@0 5"),
        ("e:-", "[e|]@0 Dash@2 3"),
        ("e.:a", "Other@0 Dot@1 [|a]@2 4"),
        ("e-f:g a.b:c", "[e-f|g]@0 [a.b|c]@6 11"),
        ("e-f", "Other@0 Dash@1 Other@2 3"),
        ("\u{E9}:\u{FC} ?\u{E9}", "[\u{E9}|\u{FC}]@0 ?\u{E9}@6 9"),
        ("\u{E9}", "bad:\u{E9}@0 2"),
        ("?", "Question@0 1"),
        ("?x$y", "?x@0 ?y@2 4"),
        ("??0", "Question@0 ?0@1 3"),
        ("a A", "A@0 Other@2 3"),
        ("TRUE isIRI sameTerm_", "True@0 IsIri@5 Other@11 20"),
        ("Where{", "Where@0 OpenGroup@5 6"),
        ("groupBY", "Other@0 7"),
    ] {
        let got = split(rt.alloc(), text)?;
        assert_eq!(rt; got.as_str(), want, "{text:?}");
    }
    Ok(())
}

#[test]
fn reads_strings_and_comments(rt: HostRuntime) -> Result<(), Fail> {
    for (text, want) in [
        ("", "0"),
        (" \t\r\n", "4"),
        ("#c", "2"),
        ("#c d\ra#b\n?x #", "A@5 ?x@9 13"),
        ("<a#b>'#'", "<a#b>@0 '#'@5 8"),
        ("<\u{E9}>", "<\u{E9}>@0 4"),
        ("\"\"\"a\"\"\"\"", "'a'@0 bad:\"@7 8"),
        ("\"a", "bad:\"@0 A@1 2"),
        ("'it\\'s'@en-", "'it's'@0 @en@7 Dash@10 11"),
        ("\"\"'''a'b'''", "''@0 'a'b'@2 11"),
        ("@de-AT-1x @", "@de-AT-1x@0 bad:@@10 11"),
        ("\\u0041", "bad:\\@0 Other@1 6"),
        (
            "\"x\\u0041\"",
            "bad:\"@0 Other@1 bad:\\@2 Other@3 bad:\"@8 9",
        ),
        ("\u{0}a", "bad:\u{0}@0 A@1 2"),
    ] {
        let got = split(rt.alloc(), text)?;
        assert_eq!(rt; got.as_str(), want, "{text:?}");
    }
    Ok(())
}

#[test]
fn looks_at_the_next_token(rt: HostRuntime) -> Result<(), Fail> {
    let mut tokens = match Tokens::new(rt.alloc(), " ?x .") {
        Ok(tokens) => tokens,
        Err(memory) => return Err(Fail::from(memory)),
    };
    for (kind, place) in [(Some(2), 1), (Some(64), 4), (None, 5), (None, 5)] {
        assert_eq!(rt; tokens.peek().map(|token| token.kind()), kind);
        assert_eq!(rt; tokens.place(), place);
        let taken = tokens.next()?;
        assert_eq!(rt; taken.is_some(), kind.is_some());
    }
    Ok(())
}
