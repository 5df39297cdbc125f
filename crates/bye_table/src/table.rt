ghost use Rattle.std.specs.Prelude.{◌≡◌, [], ◌∷◌, ◌++◌, IsTrue, IfOk, IsErrOf, OnOk, OnErr, ◌↔◌};
ghost use Rattle.bye_table.specs.Mappings.{is_in};
ghost use Rattle.bye_terms.specs.Members.{EachOnce};
ghost use Rattle.bye_table.specs.Tables.{IsName, IsOverVars, IsRdfRow, IsRdfTable, IsTable, distinct, is_pair_over};
ghost use Rattle.std.specs.List.{AllByRecursion, list_all};

use crate::row::Row;
use crate::table_err::TableErr;
use bye_terms::{Term, Var, push_item};
use std::alloc::Global;
use std::marker::Model;

/// A table: its variables, and rows that bind some of them.
#[derive(Debug, Drop)]
pub struct Table {
    vars: Vec<Var>,
    rows: Vec<Row>,
}

impl Model for Table {
    ghost use Rattle.bye_table.specs.Tables.{IsTable, TableValue};

    ghost Value = { TableValue };

    ghost view = { λ t. record { vars = t.vars.items; rows = t.rows.items } };

    ghost invariant = { λ t. IsTable (record { vars = t.vars.items; rows = t.rows.items }) };
}

impl Table {
    /// The table of these variables without rows. Repeated comes exactly where one of them stands twice.
    pub fn new(alloc: Global, vars: Vec<Var>) -> Result<Table, TableErr>
        ensures ok { IfOk result (λ t. (t ≡ record { vars = vars.items; rows = [] }) × EachOnce vars.items) }
        ensures repeated { IsErrOf result TableErr.Repeated → EachOnce vars.items → ⊥ }
        ensures foreign { IsErrOf result TableErr.Foreign → ⊥ }
    {
        if !are_distinct(vars.as_slice()) {
            return Err(TableErr::Repeated);
        }
        Ok(Table {
            vars,
            rows: Vec::new(alloc),
        })
    }

    /// The table of these variables and rows.
    pub fn of_rows(vars: Vec<Var>, rows: Vec<Row>) -> Table
        requires { IsTable (record { vars = vars.items; rows = rows.items }) }
        ensures { result ≡ record { vars = vars.items; rows = rows.items } }
    {
        Table { vars, rows }
    }

    /// Adds a row at the end. Foreign comes exactly where it binds a variable that is not one of the table's; after a refusal the
    /// table is as before.
    pub fn add_row(&mut self, row: Row) -> Result<(), TableErr>
        ensures ok { OnOk result ((self.new ≡ record { vars = self.old.vars; rows = self.old.rows ++ row ∷ [] }) × IsOverVars self.old.vars row) }
        ensures err { OnErr result (self.new ≡ self.old) }
        ensures foreign { IsErrOf result TableErr.Foreign → IsOverVars self.old.vars row → ⊥ }
        ensures repeated { IsErrOf result TableErr.Repeated → ⊥ }
    {
        if !is_over(self.vars.as_slice(), &row) {
            return Err(TableErr::Foreign);
        }
        push_item(&mut self.rows, row)?;
        Ok(())
    }

    /// The table, which its variables and rows tell to be one of RDF.
    pub fn as_rdf(&self) -> &Table
        ensures same { result.now ≡ self.now }
        ensures valid { IsRdfTable self.now }
        ensures table { IsTable self.now }
    {
        tell_names(self.vars.as_slice());
        tell_terms(self.rows.as_slice());
        self
    }

    /// The variables of the columns; none stands twice.
    pub fn vars(&self) -> &[Var]
        ensures vars { result.now ≡ self.now.vars }
        ensures table { IsTable self.now }
    {
        self.vars.as_slice()
    }

    /// The rows, in their order.
    pub fn rows(&self) -> &[Row]
        ensures rows { result.now ≡ self.now.rows }
        ensures table { IsTable self.now }
    {
        self.rows.as_slice()
    }
}

/// Variables tell their names to be such.
fn tell_names(vars: &[Var])
    ensures { AllByRecursion IsName vars.now }
{
    for variable in vars {
        let _name = variable.name().as_unicode();
    }
}

/// Rows tell their terms to be of RDF.
fn tell_terms(rows: &[Row])
    ensures { AllByRecursion IsRdfRow rows.now }
{
    for row in rows {
        let _row = row.as_rdf();
    }
}

/// Whether the variable is one of these.
fn stands_in(vars: &[Var], one: &Var) -> bool
    ensures { result ≡ is_in vars.now one.now }
{
    vars.iter().any(|var| var.same(one))
}

/// Whether no variable stands twice.
fn are_distinct(vars: &[Var]) -> bool
    ensures { IsTrue result ↔ EachOnce vars.now }
{
    is_each_once(vars)
}

fn is_each_once(vars: &[Var]) -> bool
    ensures { result ≡ distinct vars.now }
{
    let mut rest = vars;
    while let Some((first, later)) = rest.split_first() {
        if stands_in(later, first) {
            return false;
        }
        rest = later;
    }
    true
}

/// Whether the row binds of these variables alone.
fn is_over(vars: &[Var], row: &Row) -> bool
    ensures { IsTrue result ↔ IsOverVars vars.now row.now }
{
    are_among(vars, row.listed())
}

fn are_among(vars: &[Var], pairs: &[(Var, Term)]) -> bool
    ensures { result ≡ list_all (is_pair_over vars.now) pairs.now }
{
    pairs.iter().all(|pair| stands_in(vars, &pair.0))
}
