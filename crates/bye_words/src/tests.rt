//! Words that are read and that are not, the kinds of values, and the line of each refusal.

ghost use Rattle.std.specs.Prelude.{◌≤◌};

use crate::count::Count;
use crate::example::Example;
use crate::fault::Fault;
use crate::form::Form;
use crate::form_name::FormName;
use crate::kind::Kind;
use crate::name::Name;
use crate::reading::read_words;
use crate::refusal::Refusal;
use crate::remote::Remote;
use crate::reply_fault::ReplyFault;
use crate::role::Role;
use crate::rule::Rule;
use crate::sending::send_line;
use bye_io::MemSink;
use bye_terms::{Text, push_item};
use std::alloc::Global;
use std::test::Fail;

// A form with a name of each kind, and one of the same command with a name of its own.
static TABLE: [Form; 2] = [
    Form {
        name: FormName::Learn,
        command: "try",
        must: &[Name {
            text: "--file",
            kind: Kind::File,
        }],
        may: &[
            Name {
                text: "--form",
                kind: Kind::OneOf(&["tsv", "json"]),
            },
            Name {
                text: "--number",
                kind: Kind::Number(10, 400_000),
            },
            Name {
                text: "--host",
                kind: Kind::Host,
            },
            Name {
                text: "--path",
                kind: Kind::Path,
            },
            Name {
                text: "--session",
                kind: Kind::Session,
            },
        ],
    },
    Form {
        name: FormName::Convert,
        command: "try",
        must: &[Name {
            text: "--other",
            kind: Kind::File,
        }],
        may: &[],
    },
];

fn words(alloc: Global, line: &str) -> Result<Vec<Text>, Fail> {
    let mut words = Vec::new(alloc);
    for word in line.split(' ') {
        push_item(&mut words, Text::copy_of(alloc, word)?)?;
    }
    Ok(words)
}

// The form that the words are read as.
fn form(alloc: Global, line: &str) -> Result<Option<FormName>, Fail> {
    let words = words(alloc, line)?;
    Ok(match read_words(&TABLE, words.as_slice()) {
        Some(reading) => Some(reading.form),
        None => None,
    })
}

#[test]
fn words_have_the_forms_of_a_table(rt: HostRuntime) -> Result<(), Fail> {
    let alloc = rt.alloc();
    for line in [
        "try --file f",
        "try --file ",
        "try --file --file",
        "try --number 10 --file f --form json",
        "try --file f --number 400000",
        "try --file f --host Example-1.org",
        "try --file f --path /",
        "try --file f --path /!~?q=1",
        "try --file f --session A.b-c_9",
    ] {
        assert_eq!(rt; form(alloc, line)?, Some(FormName::Learn), "{line}");
    }
    assert_eq!(rt; form(alloc, "try --other f")?, Some(FormName::Convert));
    for line in [
        "",
        "try",
        "tries --file f",
        "try --file",
        "try --file f f",
        "try --file f --file f",
        "try --file=f --form tsv",
        "try --form tsv",
        "try --file f --form xml",
        "try --file f --form TSV",
        "try --file f --other f",
        "try --file f --number 9",
        "try --file f --number 400001",
        "try --file f --number 010",
        "try --file f --number +10",
        "try --file f --number -10",
        "try --file f --number 1e1",
        "try --file f --number 18446744073709551626",
        "try --file f --number ",
        "try --file f --host ",
        "try --file f --host a_b",
        "try --file f --host a/b",
        "try --file f --path ",
        "try --file f --path a",
        "try --file f --path /\u{7F}",
        "try --file f --path /\u{E9}",
        "try --file f --session ",
        "try --file f --session a/b",
        "try --file f --session \u{E9}",
    ] {
        assert_eq!(rt; form(alloc, line)?, None, "{line}");
    }
    for (start, part, name, most) in [
        ("", "h", "--host", 255),
        ("/", "p", "--path", 4095),
        ("", "s", "--session", 64),
    ] {
        let mut line = String::from_str(alloc, "try --file f ")?;
        line.push_str(name)?;
        line.push_str(" ")?;
        line.push_str(start)?;
        for _ in 0..most {
            line.push_str(part)?;
        }
        assert_eq!(rt;
            form(alloc, line.as_str())?,
            Some(FormName::Learn),
            "{name}"
        );
        line.push_str(part)?;
        assert_eq!(rt; form(alloc, line.as_str())?, None, "{name}");
    }
    let words = words(alloc, "try --form json --file --form")?;
    let Some(reading) = read_words(&TABLE, words.as_slice()) else {
        return Err(Fail::new("no form has the words"));
    };
    for (name, value) in [
        ("--file", Some("--form")),
        ("--form", Some("json")),
        ("json", None),
    ] {
        let found = match reading.settings.value(name) {
            Some(text) => Some(text.as_str()),
            None => None,
        };
        assert_eq!(rt; found, value, "{name}");
    }
    Ok(())
}

// What is sent of the refusal.
fn line_of(alloc: Global, refusal: &Refusal) -> Result<String, Fail> {
    let mut err = MemSink::new(alloc, 200, Vec::new(alloc), 7)?;
    let _sent = send_line(&mut err, refusal);
    Ok(String::from_str(alloc, std::str::from_utf8(err.sent())?)?)
}

#[test]
fn each_refusal_has_its_line(rt: HostRuntime) -> Result<(), Fail> {
    let alloc = rt.alloc();
    let word = Text::copy_of(alloc, "ORDER")?;
    let path = Vec::from_slice(alloc, &[1, 20, 3])?;
    for (refusal, told) in [
        (Refusal::Words, "words"),
        (
            Refusal::Document(Role::Graph, Fault::Syntax(0)),
            "graph: fault at byte 0",
        ),
        (
            Refusal::Document(Role::Graph, Fault::NotUtf8(1_048_576)),
            "graph: not UTF-8 at byte 1048576",
        ),
        (
            Refusal::Document(Role::Wanted, Fault::Header(usize::MAX)),
            "wanted: fault at byte 18446744073709551615",
        ),
        (
            Refusal::Document(Role::Unwanted, Fault::Term(9)),
            "unwanted: fault at byte 9",
        ),
        (
            Refusal::Document(Role::Table, Fault::Fields(2)),
            "table: wrong number of fields in line 2",
        ),
        (
            Refusal::Document(Role::Table, Fault::NotJson),
            "table: not JSON",
        ),
        (
            Refusal::Document(Role::Table, Fault::NotBindings),
            "table: no bindings",
        ),
        (
            Refusal::Document(Role::Table, Fault::BadVariable(2)),
            "table: bad variable 2",
        ),
        (
            Refusal::Document(Role::Table, Fault::Unlisted(10)),
            "table: unlisted variable in row 10",
        ),
        (
            Refusal::Document(Role::Table, Fault::BadTerm(1, 32)),
            "table: bad term in row 1, variable 32",
        ),
        (
            Refusal::Document(Role::Query, Fault::LeftOut(27, word)),
            "query: left out at byte 27: ORDER",
        ),
        (
            Refusal::Document(Role::Query, Fault::UnknownPrefix(8)),
            "query: unknown prefix at byte 8",
        ),
        (
            Refusal::Document(Role::Query, Fault::Broken(Rule::NotWellDesigned, path)),
            "query: not well-designed at node 1.20.3",
        ),
        (
            Refusal::Document(Role::Query, Fault::Broken(Rule::NoTriples, Vec::new(alloc))),
            "query: no triples at node root",
        ),
        (
            Refusal::Document(
                Role::Query,
                Fault::Broken(Rule::NoNewVariable, Vec::new(alloc)),
            ),
            "query: no new variable at node root",
        ),
        (
            Refusal::Document(
                Role::Query,
                Fault::Broken(Rule::UnsafeCondition, Vec::new(alloc)),
            ),
            "query: unsafe condition at node root",
        ),
        (
            Refusal::Document(Role::Query, Fault::Projected),
            "query: variables left out without DISTINCT",
        ),
        (
            Refusal::Document(Role::Certificate, Fault::Version),
            "certificate: unknown version",
        ),
        (
            Refusal::Document(Role::Certificate, Fault::Line(3)),
            "certificate: fault in line 3",
        ),
        (
            Refusal::Limit(Role::Graph, Count::Bytes),
            "graph: too many bytes",
        ),
        (
            Refusal::Limit(Role::Graph, Count::Triples),
            "graph: too many triples",
        ),
        (
            Refusal::Limit(Role::Wanted, Count::Variables),
            "wanted: too many variables",
        ),
        (
            Refusal::Limit(Role::Wanted, Count::Rows),
            "wanted: too many rows",
        ),
        (
            Refusal::Limit(Role::Query, Count::Brackets),
            "query: too many brackets",
        ),
        (Refusal::Answers, "answer: too many rows"),
        (Refusal::ReadFault(Role::Wanted), "wanted: read failed"),
        (Refusal::WriteFault, "write failed"),
        (Refusal::Memory, "no memory"),
        (Refusal::LinkFault, "link failed"),
        (Refusal::Example(Example::NoWanted), "no wanted row"),
        (
            Refusal::Example(Example::UnwantedWithOptional),
            "unwanted rows do not go with class optional",
        ),
        (Refusal::Remote(Remote::Status(503)), "remote: status 503"),
        (Refusal::Remote(Remote::Media), "remote: media type"),
        (
            Refusal::Remote(Remote::Results(Fault::BadTerm(1, 1))),
            "remote: results: bad term in row 1, variable 1",
        ),
        (
            Refusal::Remote(Remote::Limit(Count::Rows)),
            "remote: results: too many rows",
        ),
        (
            Refusal::Remote(Remote::Reply(ReplyFault::Malformed)),
            "remote: reply: malformed",
        ),
        (
            Refusal::Remote(Remote::Reply(ReplyFault::HeadTooLong)),
            "remote: reply: head too long",
        ),
        (
            Refusal::Remote(Remote::Reply(ReplyFault::BodyTooLong)),
            "remote: reply: body too long",
        ),
        (
            Refusal::Remote(Remote::Reply(ReplyFault::BadLength)),
            "remote: reply: bad length",
        ),
        (
            Refusal::Remote(Remote::Reply(ReplyFault::Cut)),
            "remote: reply: cut",
        ),
    ] {
        let mut line = String::from_str(alloc, "sparqlbye: ")?;
        line.push_str(told)?;
        line.push_str("\n")?;
        assert_eq!(rt; line_of(alloc, &refusal)?.as_str(), line.as_str());
    }
    Ok(())
}
