//! The program over folders and outputs in memory: its answers, its refusals, its limits and its real sizes.

use crate::program::run_program;
use bye_io::{MemFolder, MemSink};
use bye_terms::{Text, push_item};
use bye_words::Status;
use std::alloc::Global;
use std::process::Abort;
use std::test::Fail;

// Four triples of people, of which two have one type.
const GRAPH: &str =
    "<http://e/a> <http://e/type> <http://e/P> .\n<http://e/b> <http://e/type> <http://e/P> .\n<http://e/c> <http://e/type> <http://e/D> .\n<http://e/a> <http://e/knows> <http://e/b> .\n";

const WANTED: &str = "?x\n<http://e/a>\n<http://e/b>\n";

const QUERY: &str = "SELECT DISTINCT ?x\nWHERE {\n  ?x <http://e/type> <http://e/P> .\n}\n";

const LEARN: &str = "learn --graph g --wanted w";

const CONVERT: &str = "convert --graph g";

// What a run gives: the status, and the texts that were sent to `out` and to `err`.
type Ended = (Status, String, String);

fn words(alloc: Global, line: &str) -> Result<Vec<Text>, Fail> {
    let mut words = Vec::new(alloc);
    for word in line.split(' ') {
        push_item(&mut words, Text::copy_of(alloc, word)?)?;
    }
    Ok(words)
}

// A folder with this graph `g` and this table `w`.
fn folder(
    rt: &impl Abort,
    alloc: Global,
    graph: Vec<u8>,
    wanted: Vec<u8>,
    fails: &[u64],
    most: u64,
) -> Result<MemFolder, Fail> {
    let mut files = Vec::new(alloc);
    files.push((Text::copy_of(alloc, "g")?, graph))?;
    files.push((Text::copy_of(alloc, "w")?, wanted))?;
    assert!(rt; MemFolder::are_distinct(&files));
    Ok(MemFolder::new(files, Vec::from_slice(alloc, fails)?, most.max(1)))
}

fn sink(alloc: Global, room: u64, fails: &[u64], most: u64) -> Result<MemSink, Fail> {
    Ok(MemSink::new(alloc, room, Vec::from_slice(alloc, fails)?, most.max(1))?)
}

fn ends(
    alloc: Global,
    line: &str,
    mut folder: MemFolder,
    mut out: MemSink,
    mut err: MemSink,
) -> Result<Ended, Fail> {
    let words = words(alloc, line)?;
    let status = run_program(alloc, words.as_slice(), &mut folder, &mut out, &mut err);
    Ok((
        status,
        String::from_str(alloc, std::str::from_utf8(out.sent())?)?,
        String::from_str(alloc, std::str::from_utf8(err.sent())?)?,
    ))
}

// Compares how a run ended, and what was sent.
fn is_end(rt: &impl Abort, name: &str, end: &Ended, status: Status, sent: &str, told: &str) {
    let (ended, out, err) = end;
    assert_eq!(rt; *ended, status, "{name}");
    assert_eq!(rt; out.as_str(), sent, "{name}");
    assert_eq!(rt; err.as_str(), told, "{name}");
}

// A run where no call fails.
fn runs(
    rt: &impl Abort,
    alloc: Global,
    line: &str,
    graph: &[u8],
    wanted: &str,
) -> Result<Ended, Fail> {
    let graph = Vec::from_slice(alloc, graph)?;
    let wanted = Vec::from_slice(alloc, wanted.as_bytes())?;
    let folder = folder(rt, alloc, graph, wanted, &[], 100)?;
    let out = sink(alloc, 1000, &[], 100)?;
    let err = sink(alloc, 1000, &[], 100)?;
    ends(alloc, line, folder, out, err)
}

#[test]
fn documents_and_words_decide(rt: HostRuntime) -> Result<(), Fail> {
    for (name, line, graph, wanted, status, sent, told) in [
        (
            "a shared type",
            LEARN,
            GRAPH,
            WANTED,
            Status::Done,
            QUERY,
            "",
        ),
        (
            "the table first",
            "learn --wanted w --graph g",
            GRAPH,
            WANTED,
            Status::Done,
            QUERY,
            "",
        ),
        (
            "a term in no triple",
            LEARN,
            GRAPH,
            "?x\n<http://e/a>\n<http://e/z>\n",
            Status::Refused,
            "uncovered ?x\n",
            "",
        ),
        (
            "a literal that both have",
            LEARN,
            "<http://e/a> <http://e/says> \"q\\\"\\\\\\n\\tz\" .\n<http://e/b> <http://e/says> \"q\\\"\\\\\\n\\tz\" .\n",
            WANTED,
            Status::Done,
            "SELECT DISTINCT ?x\nWHERE {\n  ?x <http://e/says> \"q\\\"\\\\\\n\tz\" .\n}\n",
            "",
        ),
        (
            "a literal with a tag",
            LEARN,
            "<http://e/a> <http://e/name> \"A\"@en .\n<http://e/b> <http://e/name> \"A\"@en .\n<http://e/b> <http://e/name> \"A\" .\n",
            WANTED,
            Status::Done,
            "SELECT DISTINCT ?x\nWHERE {\n  ?x <http://e/name> \"A\"@en .\n}\n",
            "",
        ),
        (
            "a blank node that both have",
            LEARN,
            "<http://e/a> <http://e/p> _:k .\n<http://e/b> <http://e/p> _:k .\n",
            WANTED,
            Status::Refused,
            "uncovered ?x\n",
            "",
        ),
        (
            "no row",
            LEARN,
            GRAPH,
            "?x\n",
            Status::Example,
            "",
            "sparqlbye: no wanted row\n",
        ),
        (
            "no table",
            LEARN,
            GRAPH,
            "x\n",
            Status::Document,
            "",
            "sparqlbye: wanted: fault at byte 0\n",
        ),
        (
            "no such table",
            "learn --graph g --wanted u",
            GRAPH,
            WANTED,
            Status::ReadFault,
            "",
            "sparqlbye: wanted: read failed\n",
        ),
        (
            "no such graph",
            "convert --graph u",
            GRAPH,
            WANTED,
            Status::ReadFault,
            "",
            "sparqlbye: graph: read failed\n",
        ),
        (
            "no graph, and no such table",
            "learn --graph w --wanted u",
            GRAPH,
            WANTED,
            Status::Document,
            "",
            "sparqlbye: graph: fault at byte 0\n",
        ),
        (
            "no graph, and no row",
            "learn --graph w --wanted w",
            GRAPH,
            "?x\n",
            Status::Document,
            "",
            "sparqlbye: graph: fault at byte 0\n",
        ),
        (
            "no space between terms",
            CONVERT,
            "<http://e/a><http://e/p>_:b.",
            WANTED,
            Status::Done,
            "<http://e/a> <http://e/p> _:b .\n",
            "",
        ),
        ("an empty graph", CONVERT, "", WANTED, Status::Done, "", ""),
        (
            "spaces around the carets",
            CONVERT,
            "<http://e/a> <http://e/p> \"1\" ^^ <http://e/t> .\n",
            WANTED,
            Status::Done,
            "<http://e/a> <http://e/p> \"1\"^^<http://e/t> .\n",
            "",
        ),
        (
            "a triple in two spellings",
            CONVERT,
            "<http://e/b> <http://e/p> \"\\u00e9\"@en . # last\n\n<http://e/a> <http://e/p> <http://e/b> .\r\n<http://e/b> <http://e/p> \"\u{E9}\"@en.",
            WANTED,
            Status::Done,
            "<http://e/a> <http://e/p> <http://e/b> .\n<http://e/b> <http://e/p> \"\u{E9}\"@en .\n",
            "",
        ),
        (
            "the order of bytes",
            CONVERT,
            "<http://e/a> <http://e/p1> \"q\\\"\\\\\\n\\tz\" .\n<http://e/a> <http://e/p10> _:b .\n",
            WANTED,
            Status::Done,
            "<http://e/a> <http://e/p10> _:b .\n<http://e/a> <http://e/p1> \"q\\\"\\\\\\n\tz\" .\n",
            "",
        ),
    ] {
        let end = runs(&rt, rt.alloc(), line, graph.as_bytes(), wanted)?;
        is_end(&rt, name, &end, status, sent, told);
    }
    for line in [
        "",
        "learn",
        "learn --graph g",
        "learn --graph g --graph g",
        "learn --graph g --wanted w --wanted w",
        "learn --graph=g --wanted=w",
        "convert",
        "convert --graph",
        "convert --wanted w",
        "convert --graph g --wanted w",
        "convert --graph g --graph g",
        "Convert --graph g",
        "learn --graph g --wanted w --tables xml",
        "convert --table w --from tsv",
        "convert --table w --from csv --to tsv",
        "convert --table w --from tsv --to xml",
        "convert --graph g --table w --from tsv --to json",
    ] {
        let end = runs(&rt, rt.alloc(), line, GRAPH.as_bytes(), WANTED)?;
        is_end(&rt, line, &end, Status::Words, "", "sparqlbye: words\n");
    }
    Ok(())
}

// The examples of the tests above, and one of them with its number.
const RESULTS: &str =
    "{\"head\":{\"link\":[],\"vars\":[\"x\"]},\"results\":{\"distinct\":false,\"bindings\":[{\"x\":{\"type\":\"uri\",\"value\":\"http://e/a\"}},{\"x\":{\"type\":\"uri\",\"value\":\"http://e/b\"}}]}}";

const COUNTED: &str =
    "SELECT DISTINCT ?x ?n\nWHERE {\n  <http://e/a> <http://e/p> ?n .\n  ?x <http://e/p> \"1\"^^<http://www.w3.org/2001/XMLSchema#integer> .\n  ?x <http://e/p> ?n .\n}\n";

#[test]
fn examples_have_cells_of_all_kinds(rt: HostRuntime) -> Result<(), Fail> {
    const JSON: &str = "learn --graph g --tables json --wanted w";
    let many =
        "?a0\t?a1\t?a2\t?a3\t?a4\t?a5\t?a6\t?a7\t?b0\t?b1\t?b2\t?b3\t?b4\t?b5\t?b6\t?b7\t?c0\t?c1\t?c2\t?c3\t?c4\t?c5\t?c6\t?c7\t?d0\t?d1\t?d2\t?d3\t?d4\t?d5\t?d6\t?d7\t?e0\n";
    for (name, line, graph, wanted, status, sent, told) in [
        (
            "results in JSON",
            JSON,
            GRAPH,
            RESULTS,
            Status::Done,
            QUERY,
            "",
        ),
        (
            "the form that is meant where none is named",
            "learn --tables tsv --graph g --wanted w",
            GRAPH,
            WANTED,
            Status::Done,
            QUERY,
            "",
        ),
        (
            "lines as a spreadsheet ends them",
            LEARN,
            GRAPH,
            "?x\r\n<http://e/a>\r\n<http://e/b>",
            Status::Done,
            QUERY,
            "",
        ),
        (
            "a variable that no row binds",
            LEARN,
            GRAPH,
            "?y\t?x\n\t<http://e/a>\n\t<http://e/b>\n",
            Status::Done,
            QUERY,
            "",
        ),
        (
            "a number",
            LEARN,
            "<http://e/a> <http://e/p> \"1\"^^<http://www.w3.org/2001/XMLSchema#integer> .\n",
            "?x\t?n\n<http://e/a>\t1\n",
            Status::Done,
            COUNTED,
            "",
        ),
        (
            "a blank node of the graph",
            LEARN,
            "_:a <http://e/type> <http://e/P> .\n",
            "?x\n_:a\n",
            Status::Done,
            QUERY,
            "",
        ),
        (
            "rows that bind different variables",
            LEARN,
            GRAPH,
            "?x\t?y\n<http://e/a>\t<http://e/b>\n<http://e/a>\t<http://e/b>\n<http://e/c>\t\n",
            Status::Refused,
            "domains 1 3 ?y\n",
            "",
        ),
        (
            "rows that bind none",
            LEARN,
            GRAPH,
            "?x\n\n\n",
            Status::Refused,
            "noroot\n",
            "",
        ),
        (
            "the second of two variables",
            LEARN,
            GRAPH,
            "?z\t?x\t?y\n\t<http://e/a>\t<http://e/z>\n",
            Status::Refused,
            "uncovered ?y\n",
            "",
        ),
        (
            "too many variables",
            LEARN,
            GRAPH,
            many,
            Status::Limit,
            "",
            "sparqlbye: wanted: too many variables\n",
        ),
        (
            "no results",
            JSON,
            GRAPH,
            WANTED,
            Status::Document,
            "",
            "sparqlbye: wanted: not JSON\n",
        ),
    ] {
        let end = runs(&rt, rt.alloc(), line, graph.as_bytes(), wanted)?;
        is_end(&rt, name, &end, status, sent, told);
    }
    Ok(())
}

#[test]
fn tables_are_converted(rt: HostRuntime) -> Result<(), Fail> {
    const TO_JSON: &str = "convert --table w --from tsv --to json";
    const TO_CSV: &str = "convert --table w --from tsv --to csv";
    const FROM_JSON: &str = "convert --to tsv --from json --table w";
    for (line, table, status, sent, told) in [
        (
            TO_JSON,
            "?x\n12\n'a'\r\n",
            Status::Done,
            "{\"head\":{\"vars\":[\"x\"]},\"results\":{\"bindings\":[{\"x\":{\"datatype\":\"http://www.w3.org/2001/XMLSchema#integer\",\"type\":\"literal\",\"value\":\"12\"}},{\"x\":{\"type\":\"literal\",\"value\":\"a\"}}]}}",
            "",
        ),
        (
            TO_JSON,
            "?x\n\n",
            Status::Done,
            "{\"head\":{\"vars\":[\"x\"]},\"results\":{\"bindings\":[{}]}}",
            "",
        ),
        (
            TO_JSON,
            "?x\n",
            Status::Done,
            "{\"head\":{\"vars\":[\"x\"]},\"results\":{\"bindings\":[]}}",
            "",
        ),
        (
            TO_CSV,
            "?x\t?y\n\"a,b\"\t<http://e/c>\n\"q\\\"r\"@en\t\n",
            Status::Done,
            "x,y\r\n\"a,b\",http://e/c\r\n\"q\"\"r\",\r\n",
            "",
        ),
        (
            FROM_JSON,
            "{\"head\":{\"vars\":[\"x\"]},\"results\":{\"ordered\":true,\"bindings\":[{\"x\":{\"type\":\"typed-literal\",\"value\":\"1\",\"datatype\":\"http://www.w3.org/2001/XMLSchema#integer\"}},{\"x\":{\"type\":\"literal\",\"value\":\"a\",\"xml:lang\":\"EN\"}}]}}",
            Status::Done,
            "?x\n\"1\"^^<http://www.w3.org/2001/XMLSchema#integer>\n\"a\"@EN\n",
            "",
        ),
        (
            TO_JSON,
            "?x\t?y\n1\n",
            Status::Document,
            "",
            "sparqlbye: table: wrong number of fields in line 2\n",
        ),
        (
            TO_JSON,
            "?x\n5.\n",
            Status::Document,
            "",
            "sparqlbye: table: fault at byte 5\n",
        ),
        (
            TO_JSON,
            "",
            Status::Document,
            "",
            "sparqlbye: table: fault at byte 0\n",
        ),
        (
            FROM_JSON,
            "{",
            Status::Document,
            "",
            "sparqlbye: table: not JSON\n",
        ),
        (
            FROM_JSON,
            "{\"head\":{},\"boolean\":true}",
            Status::Document,
            "",
            "sparqlbye: table: no bindings\n",
        ),
        (
            FROM_JSON,
            "{\"head\":{\"vars\":[\"x\",\"x\"]},\"results\":{\"bindings\":[]}}",
            Status::Document,
            "",
            "sparqlbye: table: bad variable 2\n",
        ),
        (
            FROM_JSON,
            "{\"head\":{\"vars\":[\"x\"]},\"results\":{\"bindings\":[{\"y\":{\"type\":\"bnode\",\"value\":\"a\"}}]}}",
            Status::Document,
            "",
            "sparqlbye: table: unlisted variable in row 1\n",
        ),
        (
            FROM_JSON,
            "{\"head\":{\"vars\":[\"x\"]},\"results\":{\"bindings\":[{\"x\":{\"type\":\"uri\",\"value\":\"a\"}}]}}",
            Status::Document,
            "",
            "sparqlbye: table: bad term in row 1, variable 1\n",
        ),
    ] {
        let end = runs(&rt, rt.alloc(), line, GRAPH.as_bytes(), table)?;
        is_end(&rt, table, &end, status, sent, told);
    }
    Ok(())
}

// Three people, of whom two have a mail address.
const PEOPLE: &str =
    "<http://e/a> <http://e/type> <http://e/P> .\n<http://e/b> <http://e/type> <http://e/P> .\n<http://e/c> <http://e/type> <http://e/P> .\n<http://e/a> <http://e/mail> \"m1\" .\n<http://e/c> <http://e/mail> \"m3\" .\n";

const RUN: &str = "run --graph g --query w";

#[test]
fn queries_are_run(rt: HostRuntime) -> Result<(), Fail> {
    for (line, query, status, sent, told) in [
        (
            RUN,
            "SELECT * WHERE { ?x <http://e/type> <http://e/P> OPTIONAL { ?x <http://e/mail> ?m } FILTER (!bound(?m)) }",
            Status::Done,
            "?x\t?m\n<http://e/b>\t\n",
            "",
        ),
        // The error for the person without an address drops it.
        (
            RUN,
            "SELECT * WHERE { ?x <http://e/type> <http://e/P> OPTIONAL { ?x <http://e/mail> ?m } FILTER (sameTerm(?m, \"m1\")) }",
            Status::Done,
            "?x\t?m\n<http://e/a>\t\"m1\"\n",
            "",
        ),
        (
            RUN,
            "SELECT * WHERE { ?x <http://e/type> <http://e/P> OPTIONAL { ?x <http://e/mail> ?m } FILTER (!sameTerm(?m, \"m1\")) }",
            Status::Done,
            "?x\t?m\n<http://e/c>\t\"m3\"\n",
            "",
        ),
        (
            RUN,
            "SELECT * WHERE { ?x <http://e/type> <http://e/P> OPTIONAL { ?x <http://e/mail> ?m } FILTER (sameTerm(?m, \"m1\") || !bound(?m)) }",
            Status::Done,
            "?x\t?m\n<http://e/a>\t\"m1\"\n<http://e/b>\t\n",
            "",
        ),
        (
            "run --as csv --query w --graph g",
            "SELECT ?m ?x { ?x <http://e/type> <http://e/P> OPTIONAL { ?x <http://e/mail> ?m } }",
            Status::Done,
            "m,x\r\n,http://e/b\r\nm1,http://e/a\r\nm3,http://e/c\r\n",
            "",
        ),
        (
            "run --graph g --query w --as json",
            "SELECT * { ?x <http://e/mail> \"m1\" }",
            Status::Done,
            "{\"head\":{\"vars\":[\"x\"]},\"results\":{\"bindings\":[{\"x\":{\"type\":\"uri\",\"value\":\"http://e/a\"}}]}}",
            "",
        ),
        // Each answer once, whatever the query's rows are; and a variable that no group has.
        (
            RUN,
            "SELECT DISTINCT ?p ?z { ?x ?p ?y }",
            Status::Done,
            "?p\t?z\n<http://e/mail>\t\n<http://e/type>\t\n",
            "",
        ),
        // Triples after an OPTIONAL, and one within another.
        (
            RUN,
            "SELECT * { ?x <http://e/mail> ?m OPTIONAL { ?y <http://e/mail> ?m . ?y <http://e/type> ?t OPTIONAL { ?y ?q ?t } } ?x ?p <http://e/P> }",
            Status::Done,
            "?x\t?m\t?p\t?y\t?t\t?q\n<http://e/a>\t\"m1\"\t<http://e/type>\t<http://e/a>\t<http://e/P>\t<http://e/type>\n<http://e/c>\t\"m3\"\t<http://e/type>\t<http://e/c>\t<http://e/P>\t<http://e/type>\n",
            "",
        ),
        // A term that the graph does not have, in a group and in an OPTIONAL group.
        (
            RUN,
            "SELECT * { ?x <http://e/mail> <http://e/none> }",
            Status::Done,
            "?x\n",
            "",
        ),
        (
            RUN,
            "SELECT * { ?x <http://e/mail> \"m3\" OPTIONAL { ?x <http://e/none> ?y } }",
            Status::Done,
            "?x\t?y\n<http://e/c>\t\n",
            "",
        ),
        (
            RUN,
            "SELECT ?x WHERE {?x ?p ?o} ORDER BY ?x",
            Status::Document,
            "",
            "sparqlbye: query: left out at byte 27: ORDER\n",
        ),
        (
            RUN,
            "SELECT ?x {?x ?p ?o}",
            Status::Document,
            "",
            "sparqlbye: query: variables left out without DISTINCT\n",
        ),
        (
            RUN,
            "SELECT * {?x <http://e/p> ?y OPTIONAL {?z <http://e/p> ?w OPTIONAL {?x <http://e/q> ?v}}}",
            Status::Document,
            "",
            "sparqlbye: query: not well-designed at node 1.1\n",
        ),
        (
            RUN,
            "SELECT * {OPTIONAL {?x <http://e/p> ?y}}",
            Status::Document,
            "",
            "sparqlbye: query: no triples at node root\n",
        ),
        (
            RUN,
            "SELECT * {?x e:p ?y}",
            Status::Document,
            "",
            "sparqlbye: query: unknown prefix at byte 13\n",
        ),
        (
            RUN,
            "SELECT * {?x ?p ?y",
            Status::Document,
            "",
            "sparqlbye: query: fault at byte 18\n",
        ),
        (
            "run --graph g --query u",
            "",
            Status::ReadFault,
            "",
            "sparqlbye: query: read failed\n",
        ),
        (
            "run --graph w --query u",
            "",
            Status::ReadFault,
            "",
            "sparqlbye: query: read failed\n",
        ),
        (
            "run --graph w --query u",
            "SELECT",
            Status::Document,
            "",
            "sparqlbye: graph: fault at byte 0\n",
        ),
        ("run --graph g", "", Status::Words, "", "sparqlbye: words\n"),
        (
            "run --graph g --query w --as xml",
            "",
            Status::Words,
            "",
            "sparqlbye: words\n",
        ),
        (
            "run --graph g --query w --wanted w",
            "",
            Status::Words,
            "",
            "sparqlbye: words\n",
        ),
    ] {
        let end = runs(&rt, rt.alloc(), line, PEOPLE.as_bytes(), query)?;
        is_end(&rt, query, &end, status, sent, told);
    }
    Ok(())
}

// The pairs of two unconnected patterns, which are more than may be; and a query that is longer than may be read.
#[test]
fn queries_end_at_their_limits(rt: HostRuntime) -> Result<(), Fail> {
    let alloc = rt.alloc();
    let mut graph = String::new(alloc);
    for number in 0..1025 {
        let line = format!(in alloc; "<http://e/{number}> <http://e/p> <http://e/o> .\n")?;
        graph.push_str(line.as_str())?;
    }
    for (name, query, status, sent, told) in [
        (
            "too many pairs",
            Vec::from_slice(alloc, b"SELECT * {?x ?p ?y . ?z ?q ?w}")?,
            Status::Limit,
            "",
            "sparqlbye: answer: too many rows\n",
        ),
        (
            "many pairs, and few answers",
            Vec::from_slice(alloc, b"SELECT DISTINCT ?p {?x ?p ?y . ?z ?q ?w}")?,
            Status::Done,
            "?p\n<http://e/p>\n",
            "",
        ),
        (
            "a query at its limit",
            filled(
                alloc,
                b"SELECT DISTINCT ?p {?x ?p ?y} #",
                b'c',
                b"",
                16_777_216,
            )?,
            Status::Done,
            "?p\n<http://e/p>\n",
            "",
        ),
        (
            "a query past it",
            filled(
                alloc,
                b"SELECT DISTINCT ?p {?x ?p ?y} #",
                b'c',
                b"",
                16_777_217,
            )?,
            Status::Limit,
            "",
            "sparqlbye: query: too many bytes\n",
        ),
        (
            "brackets past their limit",
            filled(
                alloc,
                b"SELECT DISTINCT ?p {?x ?p ?y FILTER ",
                b'(',
                b"",
                110,
            )?,
            Status::Limit,
            "",
            "sparqlbye: query: too many brackets\n",
        ),
    ] {
        let graph = Vec::from_slice(alloc, graph.as_str().as_bytes())?;
        let folder = folder(&rt, alloc, graph, query, &[], 1_000_000)?;
        let out = sink(alloc, 1000, &[], 1000)?;
        let err = sink(alloc, 1000, &[], 1000)?;
        let end = ends(alloc, RUN, folder, out, err)?;
        is_end(&rt, name, &end, status, sent, told);
    }
    Ok(())
}

// Both commands refuse the graph with this line.
fn has_fault(rt: &impl Abort, alloc: Global, graph: &[u8], told: &str) -> Result<(), Fail> {
    for line in [LEARN, CONVERT] {
        let end = runs(rt, alloc, line, graph, WANTED)?;
        is_end(rt, line, &end, Status::Document, "", told);
    }
    Ok(())
}

#[test]
fn places_of_faults_are_told(rt: HostRuntime) -> Result<(), Fail> {
    let cases: [(&[u8], &str); 8] = [
        (
            b"<http://e/a\\u0020> <http://e/p> _:b .\n",
            "sparqlbye: graph: fault at byte 16\n",
        ),
        (b"<a>", "sparqlbye: graph: fault at byte 2\n"),
        (
            b"<http://e/\xC3",
            "sparqlbye: graph: not UTF-8 at byte 10\n",
        ),
        (
            b"<http://e/a> <http://e/p> _:b",
            "sparqlbye: graph: fault at byte 29\n",
        ),
        (
            b"<http://e/a> <http://e/p> \"\xC3\xA9\xFF\" .\n",
            "sparqlbye: graph: not UTF-8 at byte 29\n",
        ),
        (b"_:b _:p _:b .\n", "sparqlbye: graph: fault at byte 4\n"),
        (
            b"<http://e/a> <http://e/name> \"A\"@en, <http://e/b> .\n",
            "sparqlbye: graph: fault at byte 35\n",
        ),
        (
            b"<http://e/a> <http://e/p> \"a\"^^<http://www.w3.org/1999/02/22-rdf-syntax-ns#langString> .\n",
            "sparqlbye: graph: fault at byte 85\n",
        ),
    ];
    for (graph, told) in cases {
        has_fault(&rt, rt.alloc(), graph, told)?;
    }
    Ok(())
}

// Runs the line where these calls of the folder and of `out` fail and one call takes so much, also with faults of `err`.
fn decides(
    rt: &impl Abort,
    alloc: Global,
    line: &str,
    wanted: &str,
    calls: (&[u64], &[u64], u64),
    status: Status,
    sent: &str,
    told: &str,
) -> Result<(), Fail> {
    let (reads, writes, most) = calls;
    // The calls of `err` that fail, and the part of a line that is sent then.
    let none: &[u64] = &[];
    for (tells, part) in [(none, told), (&[1], ""), (&[2], "sparqlbye:")] {
        let graph = Vec::from_slice(alloc, GRAPH.as_bytes())?;
        let wanted = Vec::from_slice(alloc, wanted.as_bytes())?;
        let folder = folder(rt, alloc, graph, wanted, reads, most)?;
        let out = sink(alloc, 1000, writes, most)?;
        let err = sink(alloc, 1000, tells, 10)?;
        let end = ends(alloc, line, folder, out, err)?;
        let part = if told.is_empty() { "" } else { part };
        is_end(rt, line, &end, status, sent, part);
    }
    Ok(())
}

#[test]
fn faults_decide(rt: HostRuntime) -> Result<(), Fail> {
    const NO_GRAPH: &str = "sparqlbye: graph: read failed\n";
    const NO_TABLE: &str = "sparqlbye: wanted: read failed\n";
    const UNSENT: &str = "sparqlbye: write failed\n";
    // The numbers of the folder's calls that fail, those of `out`, and how much one call takes.
    // Each of two documents is opened, read and read at its end.
    let none: &[u64] = &[];
    for (reads, writes, most, status, sent, told) in [
        (none, none, 3, Status::Done, QUERY, ""),
        (&[1], none, 1000, Status::ReadFault, "", NO_GRAPH),
        (&[2], none, 1000, Status::ReadFault, "", NO_GRAPH),
        (&[3], none, 1000, Status::ReadFault, "", NO_GRAPH),
        (&[4], none, 1000, Status::ReadFault, "", NO_TABLE),
        (&[5], none, 1000, Status::ReadFault, "", NO_TABLE),
        (&[6], none, 1000, Status::ReadFault, "", NO_TABLE),
        (&[7], none, 1000, Status::Done, QUERY, ""),
        (&[4], none, 100, Status::ReadFault, "", NO_GRAPH),
        (none, &[1], 100, Status::WriteFault, "", UNSENT),
        (none, &[2], 10, Status::WriteFault, "SELECT DIS", UNSENT),
    ] {
        decides(
            &rt,
            rt.alloc(),
            LEARN,
            WANTED,
            (reads, writes, most),
            status,
            sent,
            told,
        )?;
    }
    // No fault of `err` changes any other status.
    for (line, wanted, status, sent, told) in [
        ("learn", WANTED, Status::Words, "", "sparqlbye: words\n"),
        (
            LEARN,
            "x",
            Status::Document,
            "",
            "sparqlbye: wanted: fault at byte 0\n",
        ),
        (
            LEARN,
            "?x\n",
            Status::Example,
            "",
            "sparqlbye: no wanted row\n",
        ),
        (
            LEARN,
            "?x\n<http://e/z>\n",
            Status::Refused,
            "uncovered ?x\n",
            "",
        ),
    ] {
        decides(
            &rt,
            rt.alloc(),
            line,
            wanted,
            (none, none, 100),
            status,
            sent,
            told,
        )?;
    }
    Ok(())
}

// So many bytes: a text, one byte again and again, and a text.
fn filled(alloc: Global, head: &[u8], byte: u8, tail: &[u8], len: usize) -> Result<Vec<u8>, Fail> {
    let mut bytes = Vec::with_capacity(alloc, len)?;
    bytes.extend_from_slice(head)?;
    for _ in 0..len.saturating_sub(head.len()).saturating_sub(tail.len()) {
        bytes.push(byte)?;
    }
    bytes.extend_from_slice(tail)?;
    Ok(bytes)
}

#[test]
fn documents_end_at_their_limits(rt: HostRuntime) -> Result<(), Fail> {
    let alloc = rt.alloc();
    // The bytes of the graph and of the table, whether a call of `err` fails, and how it ends.
    for (name, line, graph, wanted, tells, status, sent, told) in [
        (
            "a graph at its limit",
            CONVERT,
            268_435_456,
            10,
            false,
            Status::Done,
            "",
            "",
        ),
        (
            "a graph past it",
            CONVERT,
            268_435_457,
            10,
            false,
            Status::Limit,
            "",
            "sparqlbye: graph: too many bytes\n",
        ),
        (
            "a table at its limit",
            LEARN,
            10,
            67_108_864,
            false,
            Status::Refused,
            "uncovered ?x\n",
            "",
        ),
        (
            "a table past it",
            LEARN,
            10,
            67_108_865,
            false,
            Status::Limit,
            "",
            "sparqlbye: wanted: too many bytes\n",
        ),
        (
            "no line can be sent",
            LEARN,
            10,
            67_108_865,
            true,
            Status::Limit,
            "",
            "",
        ),
    ] {
        let graph = filled(alloc, b"#", b'c', b"", graph)?;
        let wanted = filled(alloc, b"?x\n<a:", b'b', b">\n", wanted)?;
        let folder = folder(&rt, alloc, graph, wanted, &[], 1_000_000)?;
        let out = sink(alloc, 1000, &[], 1000)?;
        let fails: &[u64] = if tells { &[1] } else { &[] };
        let err = sink(alloc, 1000, fails, 1000)?;
        let end = ends(alloc, line, folder, out, err)?;
        is_end(&rt, name, &end, status, sent, told);
    }
    Ok(())
}

#[test]
fn one_triple_past_the_limit_is_too_many(rt: HostRuntime) -> Result<(), Fail> {
    let alloc = rt.alloc();
    let mut graph = Vec::new(alloc);
    for _ in 0..1_048_576 {
        graph.extend_from_slice(b"<a:a><a:a>_:a.\n")?;
    }
    // The fault after the last dot comes too late.
    graph.extend_from_slice(b"<a:a><a:a><a:a>.;")?;
    let folder = folder(&rt, alloc, graph, Vec::new(alloc), &[], 100_000_000)?;
    let out = sink(alloc, 1000, &[], 1000)?;
    let err = sink(alloc, 1000, &[], 1000)?;
    let end = ends(alloc, CONVERT, folder, out, err)?;
    let told = "sparqlbye: graph: too many triples\n";
    is_end(
        &rt,
        "a triple past the limit",
        &end,
        Status::Limit,
        "",
        told,
    );
    Ok(())
}

// The two lines of a person, in the order of bytes.
fn push_person(alloc: Global, text: &mut String, number: usize, ordered: bool) -> Result<(), Fail> {
    let likes = format!(in alloc;
        "<http://e/{number:05}> <http://e/likes> <http://e/b{number:05}> .\n"
    )?;
    let kind = format!(in alloc; "<http://e/{number:05}> <http://e/type> <http://e/P> .\n")?;
    if ordered {
        text.push_str(likes.as_str())?;
        text.push_str(kind.as_str())?;
    } else {
        text.push_str(kind.as_str())?;
        text.push_str(likes.as_str())?;
    }
    Ok(())
}

// The line writes this.
fn answers(
    rt: &impl Abort,
    alloc: Global,
    line: &str,
    graph: &str,
    wanted: &str,
    sent: &str,
) -> Result<(), Fail> {
    let graph = Vec::from_slice(alloc, graph.as_bytes())?;
    let wanted = Vec::from_slice(alloc, wanted.as_bytes())?;
    let folder = folder(rt, alloc, graph, wanted, &[], 65_536)?;
    let out = sink(alloc, 2_000_000, &[], 65_536)?;
    let err = sink(alloc, 1000, &[], 1000)?;
    let end = ends(alloc, line, folder, out, err)?;
    is_end(rt, line, &end, Status::Done, sent, "");
    Ok(())
}

#[test]
fn documents_of_real_size_are_answered(rt: HostRuntime) -> Result<(), Fail> {
    let alloc = rt.alloc();
    // Twenty thousand triples from the last one to the first, and in order.
    let mut people = String::new(alloc);
    let mut ordered = String::new(alloc);
    for number in 0..10_000 {
        push_person(alloc, &mut people, 9_999 - number, false)?;
        push_person(alloc, &mut ordered, number, true)?;
    }
    let mut wanted = String::from_str(alloc, "?x\n")?;
    for number in 0..500 {
        wanted.push_str(format!(in alloc; "<http://e/{number:05}>\n")?.as_str())?;
    }
    // A literal of a hundred thousand characters, escaped and raw.
    let mut escaped = String::from_str(alloc, "<http://e/a> <http://e/p> \"")?;
    let mut raw = String::from_str(alloc, "<http://e/a> <http://e/p> \"")?;
    for _ in 0..100_000 {
        escaped.push_str("\\u00E9")?;
        raw.push_str("\u{E9}")?;
    }
    escaped.push_str("\" .\n")?;
    raw.push_str("\" .\n")?;
    let (people, wanted) = (people.as_str(), wanted.as_str());
    answers(&rt, alloc, CONVERT, people, wanted, ordered.as_str())?;
    answers(
        &rt,
        alloc,
        CONVERT,
        ordered.as_str(),
        wanted,
        ordered.as_str(),
    )?;
    answers(&rt, alloc, LEARN, people, wanted, QUERY)?;
    answers(&rt, alloc, CONVERT, escaped.as_str(), wanted, raw.as_str())?;
    Ok(())
}
