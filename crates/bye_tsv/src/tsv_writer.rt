//! The TSV document of a table.

ghost use Rattle.std.specs.Prelude.{◌≡◌, ◌∷◌, ◌++◌, IfOk, OnOk, map, option_map};
ghost use Rattle.std.specs.List.{flat_map};
ghost use Rattle.std.specs.Str.{encode_utf8_all};
ghost use Rattle.bye_table.specs.Cells.{found};
ghost use Rattle.bye_tsv.specs.WrittenFields.{cell_bytes, name_bytes, row_bytes};
ghost use Rattle.bye_table.specs.Sorted.{mappings};
ghost use Rattle.bye_tsv.specs.Documents.{TsvDoc};
ghost use Rattle.bye_tsv.specs.ReadBack.{in_order};
ghost use Rattle.bye_tsv.specs.Written.{tsv_line, tsv_text};

use bye_lex::{Style, push_term};
use bye_table::{Row, Table};
use bye_terms::{Memory, Term, Var};
use std::alloc::Global;

/// Puts a variable with its mark at the end.
fn push_name(out: &mut Vec<u8>, variable: &Var) -> Result<(), Memory>
    ensures { OnOk result (out.new.items ≡ out.old.items ++ name_bytes variable.now) }
{
    out.push(b'?')?;
    out.extend_from_slice(variable.name().as_str().as_bytes())?;
    Ok(())
}

/// Puts further variables at the end, a TAB before each.
fn push_further_names(out: &mut Vec<u8>, variables: &[Var]) -> Result<(), Memory>
    ensures { OnOk result (out.new.items ≡ out.old.items ++ flat_map (λ y. 9 ∷ y) (map name_bytes variables.now)) }
{
    for variable in variables {
        out.push(b'\t')?;
        push_name(out, variable)?;
    }
    Ok(())
}

/// Puts the header at the end.
fn push_header(out: &mut Vec<u8>, variables: &[Var]) -> Result<(), Memory>
    ensures { OnOk result (out.new.items ≡ out.old.items ++ tsv_line (map name_bytes variables.now)) }
{
    if let Some((first, further)) = variables.split_first() {
        push_name(out, first)?;
        push_further_names(out, further)?;
    }
    out.push(b'\n')?;
    Ok(())
}

/// Puts a cell at the end.
fn push_cell(alloc: Global, out: &mut Vec<u8>, cell: Option<&Term>) -> Result<(), Memory>
    ensures { OnOk result (out.new.items ≡ out.old.items ++ cell_bytes (option_map (λ t. t.now) cell.entry)) }
{
    match cell {
        None => Ok(()),
        Some(term) => push_term(alloc, out, term, Style::Tsv),
    }
}

/// Puts further cells at the end, a TAB before each.
fn push_further_cells(
    alloc: Global,
    out: &mut Vec<u8>,
    cells: &[Option<&Term>],
) -> Result<(), Memory>
    ensures { OnOk result (out.new.items ≡ out.old.items ++ flat_map (λ y. 9 ∷ y) (map cell_bytes (found cells.now))) }
{
    for cell in cells {
        out.push(b'\t')?;
        push_cell(alloc, out, *cell)?;
    }
    Ok(())
}

/// Puts the line of a row at the end.
fn push_cells(alloc: Global, out: &mut Vec<u8>, cells: &[Option<&Term>]) -> Result<(), Memory>
    ensures { OnOk result (out.new.items ≡ out.old.items ++ tsv_line (map cell_bytes (found cells.now))) }
{
    if let Some((first, further)) = cells.split_first() {
        push_cell(alloc, out, *first)?;
        push_further_cells(alloc, out, further)?;
    }
    out.push(b'\n')?;
    Ok(())
}

fn push_row(alloc: Global, out: &mut Vec<u8>, variables: &[Var], row: &Row) -> Result<(), Memory>
    ensures { OnOk result (out.new.items ≡ out.old.items ++ row_bytes variables.now row.now) }
{
    let cells = row.cells(alloc, variables)?;
    push_cells(alloc, out, cells.as_slice())
}

fn push_rows(
    alloc: Global,
    out: &mut Vec<u8>,
    variables: &[Var],
    rows: &[Row],
) -> Result<(), Memory>
    ensures { OnOk result (out.new.items ≡ out.old.items ++ flat_map (row_bytes variables.now) rows.now) }
{
    for row in rows {
        push_row(alloc, out, variables, row)?;
    }
    Ok(())
}

/// The header, and a line for each row.
#[tactic(auto, using(crate::proofs::Encoded::tsv_encoded))]
fn write_lines(alloc: Global, table: &Table) -> Result<Vec<u8>, Memory>
    ensures { IfOk result (λ bytes. bytes.items ≡ encode_utf8_all (tsv_text table.now)) }
{
    let mut out = Vec::new(alloc);
    push_header(&mut out, table.vars())?;
    push_rows(alloc, &mut out, table.vars(), table.rows())?;
    Ok(out)
}

/// The TSV document of the table (SPARQL 1.1 Query Results CSV and TSV Formats, section 4). It reads back as the table with the
/// pairs of each row in the order of the variables.
pub fn write_tsv(alloc: Global, table: &Table) -> Result<Vec<u8>, Memory>
    ensures text { IfOk result (λ bytes. bytes.items ≡ encode_utf8_all (tsv_text table.now)) }
    ensures document { IfOk result (λ bytes. TsvDoc bytes.items (in_order table.now)) }
    ensures same { mappings (in_order table.now) ≡ mappings table.now }
{
    write_lines(alloc, table.as_rdf())
}
