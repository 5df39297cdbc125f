//! Tables, written as documents of results.

ghost use Rattle.bye_json.specs.Documents.{JsonDoc};
ghost use Rattle.bye_json.specs.ReadingBack.{HasTerms, IsRdfTable, IsSameTable, IsVariable, in_order};
ghost use Rattle.bye_json.specs.Tokens.{Adds, cell_tokens, tokens_of};
ghost use Rattle.bye_json.specs.Written as spec;
ghost use Rattle.bye_json.specs.Written.{json_text};
ghost use Rattle.bye_table.specs.Mappings.{row_mapping};
ghost use Rattle.std.specs.List.{AllByRecursion};
ghost use Rattle.std.specs.Prelude.{◌≡◌, ◌≤◌, ◌∷◌, ◌++◌, IfOk, OnOk, codes, drop, length, take};

use crate::term_writer::write_term;
use bye_table::{Row, Table};
use bye_terms::{Memory, Var};
use json::Writer;
use std::alloc::Global;
use std::cmp::Ordering;

/// The place before the first variable with a greater name.
fn place_of(sorted: &[Var], var: &Var) -> usize
    ensures within { result ≤ length sorted.now }
    ensures put { spec.put_var var.now sorted.now ≡ take result sorted.now ++ var.now ∷ drop result sorted.now }
{
    for (i, other) in sorted.iter().enumerate() {
        if var.cmp(other) == Ordering::Less {
            return i;
        }
    }
    sorted.len()
}

/// Puts the variable at its place among those in the byte order of their names.
fn put_var(sorted: &mut Vec<Var>, var: Var) -> Result<(), Memory>
    ensures { OnOk result (sorted.new.items ≡ spec.put_var var sorted.old.items) }
{
    let place = place_of(sorted.as_slice(), &var);
    sorted.insert(place, var)?;
    Ok(())
}

/// The variables in the byte order of their names.
fn by_name(alloc: Global, vars: &[Var]) -> Result<Vec<Var>, Memory>
    ensures { IfOk result (λ sorted. sorted.items ≡ spec.by_name vars.now) }
{
    let mut sorted = Vec::new(alloc);
    for var in vars {
        put_var(&mut sorted, var.copy(alloc)?)?;
    }
    Ok(sorted)
}

fn write_var(out: &mut Writer, var: &Var) -> Result<(), Memory>
    ensures { OnOk result (Adds out.old (tokens_of (spec.text var.now)) out.new) }
{
    out.string(var.name().as_str())?;
    Ok(())
}

/// Writes the list of the variables.
fn write_vars(out: &mut Writer, vars: &[Var]) -> Result<(), Memory>
    ensures { OnOk result (Adds out.old (tokens_of (spec.vars_list vars.now)) out.new) }
{
    out.begin_array()?;
    for var in vars {
        write_var(out, var)?;
    }
    out.end_array()?;
    Ok(())
}

/// Writes the member of the variable, where the row binds it.
fn write_cell(out: &mut Writer, var: &Var, row: &Row) -> Result<(), Memory>
    ensures { OnOk result (Adds out.old (cell_tokens var.now (row_mapping row.now var.now)) out.new) }
{
    if let Some(term) = row.get(var) {
        out.key(var.name().as_str())?;
        write_term(out, term)?;
    }
    Ok(())
}

/// Writes the object of a row, of variables in the byte order of their names.
fn write_row(out: &mut Writer, sorted: &[Var], row: &Row) -> Result<(), Memory>
    ensures { OnOk result (Adds out.old (tokens_of (spec.row_object sorted.now row.now)) out.new) }
{
    out.begin_object()?;
    for var in sorted {
        write_cell(out, var, row)?;
    }
    out.end_object()?;
    Ok(())
}

/// Writes the list of the rows.
fn write_rows(out: &mut Writer, sorted: &[Var], rows: &[Row]) -> Result<(), Memory>
    ensures { OnOk result (Adds out.old (tokens_of (spec.rows_list sorted.now rows.now)) out.new) }
{
    out.begin_array()?;
    for row in rows {
        write_row(out, sorted, row)?;
    }
    out.end_array()?;
    Ok(())
}

/// Writes `head`, with the variables (SPARQL 1.1 Query Results JSON Format, section 3.1).
fn write_head(out: &mut Writer, vars: &[Var]) -> Result<(), Memory>
    ensures { OnOk result (Adds out.old (tokens_of (spec.sole (codes "vars") (spec.vars_list vars.now))) out.new) }
{
    out.begin_object()?;
    out.key("vars")?;
    write_vars(out, vars)?;
    out.end_object()?;
    Ok(())
}

/// Writes an object with the list of the rows.
fn write_bindings(out: &mut Writer, sorted: &[Var], rows: &[Row]) -> Result<(), Memory>
    ensures { OnOk result (Adds out.old (tokens_of (spec.sole (codes "bindings") (spec.rows_list sorted.now rows.now))) out.new) }
{
    out.begin_object()?;
    out.key("bindings")?;
    write_rows(out, sorted, rows)?;
    out.end_object()?;
    Ok(())
}

/// Writes `results`, with the rows (section 3.2).
fn write_results(alloc: Global, out: &mut Writer, table: &Table) -> Result<(), Memory>
    ensures { OnOk result (Adds out.old (tokens_of (spec.sole (codes "bindings") (spec.rows_list (spec.by_name table.now.vars) table.now.rows))) out.new) }
{
    let sorted = by_name(alloc, table.vars())?;
    write_bindings(out, sorted.as_slice(), table.rows())
}

/// Writes the document of a table.
#[tactic(auto, unfolding(crate::specs::Written::tree_of))]
fn write_table(alloc: Global, out: &mut Writer, table: &Table) -> Result<(), Memory>
    ensures { OnOk result (Adds out.old (tokens_of (spec.tree_of table.now)) out.new) }
{
    out.begin_object()?;
    out.key("head")?;
    write_head(out, table.vars())?;
    out.key("results")?;
    write_results(alloc, out, table)?;
    out.end_object()?;
    Ok(())
}

/// The terms of the row, which tell to be terms of RDF.
fn tell_terms(row: &Row)
    ensures { HasTerms row.now }
{
    for pair in row.listed() {
        let _term = pair.1.as_rdf();
    }
}

/// The variables, which tell to be names.
fn tell_names(vars: &[Var])
    ensures { AllByRecursion IsVariable vars.now }
{
    for var in vars {
        let _name = var.name().as_unicode();
    }
}

/// The table, which its parts tell to be one of RDF.
fn tell_table(table: &Table)
    ensures { IsRdfTable table.now }
{
    tell_names(table.vars());
    for row in table.rows() {
        tell_terms(row);
    }
}

/// The document of a table (SPARQL 1.1 Query Results JSON Format, section 3). It reads as the table with each row in the order of
/// the variables.
pub fn write_json(alloc: Global, table: &Table) -> Result<Vec<u8>, Memory>
    ensures text { IfOk result (λ bytes. bytes.items ≡ json_text table.now) }
    ensures document { IfOk result (λ bytes. JsonDoc bytes.items (in_order table.now)) }
    ensures same { IfOk result (λ _. IsSameTable table.now (in_order table.now)) }
{
    tell_table(table);
    let mut out = Writer::new(Vec::new(alloc));
    write_table(alloc, &mut out, table)?;
    Ok(out.into_inner())
}
