//! The CSV document of a table. Of the errors of `csv` none but want of memory comes here: what is written to is a list of bytes,
//! and the lengths of records are not compared.

ghost use Rattle.std.specs.Prelude.{◌≡◌, ◌∷◌, ◌++◌, [], List, ℕ, Some, IfOk, OnOk, map, option_map};
ghost use Rattle.std.specs.List.{flat_map};
ghost use Rattle.std.specs.Str.{encode_utf8_all};
ghost use Rattle.csv.specs.Records.{fields_of, partial_of};
ghost use Rattle.bye_table.specs.Cells.{found};
ghost use Rattle.bye_tsv.specs.Records.{Adds, HasWritten, field_bytes, record_bytes, record_text};
ghost use Rattle.bye_tsv.specs.Written.{csv_text};

use bye_table::{Row, Table};
use bye_terms::{Label, Memory, Term, Var};
use csv::{ByteRecord, Terminator, Writer, WriterBuilder};
use std::alloc::Global;

/// A blank node's label, after its mark.
fn marked(alloc: Global, label: &Label) -> Result<Vec<u8>, Memory>
    ensures { IfOk result (λ v. v.items ≡ encode_utf8_all (95 ∷ 58 ∷ label.now)) }
{
    let mut field = Vec::new(alloc);
    field.extend_from_slice(b"_:")?;
    field.extend_from_slice(label.text().as_str().as_bytes())?;
    Ok(field)
}

/// Puts a field at the end of the record.
fn push_field(record: &mut ByteRecord, field: &[u8]) -> Result<(), Memory>
    ensures fields { OnOk result (partial_of record.old ≡ [] → fields_of record.new ≡ fields_of record.old ++ field.now ∷ []) }
    ensures whole { OnOk result (partial_of record.new ≡ []) }
{
    record.push_field(field)?;
    Ok(())
}

/// Puts a cell at the end of the record.
fn push_cell(alloc: Global, record: &mut ByteRecord, cell: Option<&Term>) -> Result<(), Memory>
    ensures fields { OnOk result (partial_of record.old ≡ []
        → fields_of record.new ≡ fields_of record.old ++ field_bytes (option_map (λ t. t.now) cell.entry) ∷ []) }
    ensures whole { OnOk result (partial_of record.new ≡ []) }
{
    match cell {
        None => push_field(record, b""),
        Some(Term::Iri(iri)) => push_field(record, iri.text().as_str().as_bytes()),
        Some(Term::Lit(literal)) => push_field(record, literal.lexical().as_str().as_bytes()),
        Some(Term::Blank(label)) => {
            let field = marked(alloc, label)?;
            push_field(record, field.as_slice())
        }
    }
}

/// Makes the record one of these cells.
fn fill(alloc: Global, record: &mut ByteRecord, cells: &[Option<&Term>]) -> Result<(), Memory>
    ensures { OnOk result (fields_of record.new ≡ map field_bytes (found cells.now)) }
{
    record.clear();
    for cell in cells {
        push_cell(alloc, record, *cell)?;
    }
    Ok(())
}

/// Makes the record one of the names.
fn fill_names(record: &mut ByteRecord, variables: &[Var]) -> Result<(), Memory>
    ensures { OnOk result (fields_of record.new ≡ map encode_utf8_all variables.now) }
{
    record.clear();
    for variable in variables {
        push_field(record, variable.name().as_str().as_bytes())?;
    }
    Ok(())
}

/// Writes the record.
fn put(writer: &mut Writer<Vec<u8>>, record: &ByteRecord) -> Result<(), Memory>
    ensures { OnOk result (Adds writer.old writer.new (record_text (fields_of record.now))) }
{
    match writer.write_byte_record(record) {
        Ok(()) => Ok(()),
        Err(_) => Err(Memory),
    }
}

/// Writes the header.
fn put_header(alloc: Global, writer: &mut Writer<Vec<u8>>, variables: &[Var]) -> Result<(), Memory>
    ensures { OnOk result (Adds writer.old writer.new (record_text (map encode_utf8_all variables.now))) }
{
    let mut record = ByteRecord::new(alloc);
    fill_names(&mut record, variables)?;
    put(writer, &record)
}

/// Writes a row.
fn put_row(
    alloc: Global,
    writer: &mut Writer<Vec<u8>>,
    record: &mut ByteRecord,
    variables: &[Var],
    row: &Row,
) -> Result<(), Memory>
    ensures { OnOk result (Adds writer.old writer.new (record_bytes variables.now row.now)) }
{
    let cells = row.cells(alloc, variables)?;
    fill(alloc, record, cells.as_slice())?;
    put(writer, record)
}

/// Writes the rows.
fn put_rows(
    alloc: Global,
    writer: &mut Writer<Vec<u8>>,
    variables: &[Var],
    rows: &[Row],
) -> Result<(), Memory>
    ensures { OnOk result (Adds writer.old writer.new (flat_map (record_bytes variables.now) rows.now)) }
{
    let mut record = ByteRecord::new(alloc);
    for row in rows {
        put_row(alloc, writer, &mut record, variables, row)?;
    }
    Ok(())
}

/// A writer of records that end by CR LF.
fn new_writer(alloc: Global) -> Writer<Vec<u8>>
    ensures { HasWritten result [] }
{
    WriterBuilder::new()
        .terminator(Terminator::CRLF)
        .flexible(true)
        .from_writer(Vec::new(alloc))
}

/// The bytes that the writer wrote.
fn finish(writer: Writer<Vec<u8>>) -> Result<Vec<u8>, Memory>
    ensures { IfOk result (λ v. (text : List ℕ) → HasWritten writer text → v.items ≡ text) }
{
    match writer.into_inner() {
        Ok(bytes) => Ok(bytes),
        Err(_) => Err(Memory),
    }
}

/// The CSV document of the table (SPARQL 1.1 Query Results CSV and TSV Formats, section 3): the header, and a line for each row.
pub fn write_csv(alloc: Global, table: &Table) -> Result<Vec<u8>, Memory>
    ensures { IfOk result (λ bytes. bytes.items ≡ encode_utf8_all (csv_text table.now)) }
{
    let mut writer = new_writer(alloc);
    put_header(alloc, &mut writer, table.vars())?;
    put_rows(alloc, &mut writer, table.vars(), table.rows())?;
    finish(writer)
}
