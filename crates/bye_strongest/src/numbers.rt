ghost use Rattle.std.specs.Prelude.{◌≡◌, IfOk, option_map};
ghost use Rattle.bye_table.specs.Cells.{cells_of};
ghost use Rattle.bye_table.specs.Mappings.{row_mapping};
ghost use Rattle.bye_strongest.specs.Numbers as spec;

use bye_graph::Graph;
use bye_table::Row;
use bye_terms::{Memory, Term, Var, push_item};
use std::alloc::Global;
use std::marker::Model;

/// A row by numbers: for each variable the number of its term, where its term is in the graph.
#[derive(Debug, Drop)]
pub struct Numbers {
    cells: Vec<Option<u32>>,
}

impl Model for Numbers {
    ghost use Rattle.bye_strongest.specs.Numbers.{Cells};

    ghost Value = { Cells };

    ghost view = { λ n. n.cells.items };
}

/// The number of a term, where there is a term and it is in the graph.
fn number_of(graph: &Graph, term: Option<&Term>) -> Option<u32>
    ensures { spec.IsNumberOf graph.now.terms (option_map (λ t. t.now) term.entry) result }
{
    // Each term of a graph stands in a triple.
    let _count = graph.terms();
    match term {
        Some(term) => graph.id_of(term),
        None => None,
    }
}

impl Numbers {
    /// The row by numbers.
    pub fn of_row(alloc: Global, graph: &Graph, vars: &[Var], row: &Row) -> Result<Numbers, Memory>
        ensures { IfOk result (λ n. spec.AreNumbers graph.now.terms (cells_of vars.now (row_mapping row.now)) n) }
    {
        let mut cells = Vec::with_capacity(alloc, vars.len())?;
        for cell in row.cells(alloc, vars)? {
            push_item(&mut cells, number_of(graph, cell))?;
        }
        Ok(Numbers { cells })
    }

    /// The numbers, in the order of the variables.
    pub fn as_slice(&self) -> &[Option<u32>]
        ensures { result.now ≡ self.now }
    {
        self.cells.as_slice()
    }

    /// The number of a variable's term.
    pub fn cell(&self, i: usize) -> Option<u32>
        ensures { result ≡ spec.cell self.now i }
    {
        match self.cells.get(i) {
            Some(cell) => *cell,
            None => None,
        }
    }
}

/// The rows by numbers.
pub fn number_rows(
    alloc: Global,
    graph: &Graph,
    vars: &[Var],
    rows: &[Row],
) -> Result<Vec<Numbers>, Memory>
    ensures { IfOk result (λ v. spec.AreNumberedRows graph.now.terms vars.now rows.now v.items) }
{
    let mut out = Vec::with_capacity(alloc, rows.len())?;
    for row in rows {
        push_item(&mut out, Numbers::of_row(alloc, graph, vars, row)?)?;
    }
    Ok(out)
}
