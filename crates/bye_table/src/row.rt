ghost use Rattle.std.specs.Prelude.{◌≡◌, [], ◌∷◌, ◌++◌, None, IfOk, OnOk, OnErr, option_map};
ghost use Rattle.std.specs.Str.{bytes_eq};
ghost use Rattle.bye_table.specs.Cells.{HasCells, found};
ghost use Rattle.bye_table.specs.Mappings.{NoRepeat, row_mapping};
ghost use Rattle.bye_table.specs.Tables.{IsRdfRow};

use bye_terms::{Memory, Term, Var, push_item};
use std::alloc::Global;
use std::marker::Model;

/// A row of a table: a mapping from variables to terms, which keeps them in the order in which they were bound.
/// Contracts see it as the list of its variables with their terms. No variable stands twice in it.
#[derive(Debug, Drop)]
pub struct Row {
    pairs: Vec<(Var, Term)>,
}

impl Model for Row {
    ghost use Rattle.bye_table.specs.Mappings.{Pairs, NoRepeat};

    ghost Value = { Pairs };

    ghost view = { λ r. r.pairs.items };

    ghost invariant = { λ r. NoRepeat r.pairs.items };
}

impl Row {
    /// The row that binds nothing. It takes no memory.
    pub fn new(alloc: Global) -> Row
        ensures { result ≡ [] }
    {
        Row {
            pairs: Vec::new(alloc),
        }
    }

    /// The row of these pairs.
    pub fn of_pairs(pairs: Vec<(Var, Term)>) -> Row
        requires { NoRepeat pairs.items }
        ensures { result ≡ pairs.items }
    {
        Row { pairs }
    }

    /// Binds a variable that is not bound yet, after those that are.
    pub fn bind(&mut self, variable: Var, term: Term) -> Result<(), Memory>
        requires { row_mapping self.old variable ≡ None }
        ensures ok { OnOk result (self.new ≡ self.old ++ (variable, term) ∷ []) }
        ensures err { OnErr result (self.new ≡ self.old) }
    {
        push_item(&mut self.pairs, (variable, term))
    }

    /// The term of the variable: None exactly where it is not bound.
    pub fn get(&self, variable: &Var) -> Option<&Term>
        ensures { option_map (λ t. t.now) result ≡ row_mapping self.now variable.now }
    {
        for pair in self.pairs.as_slice() {
            if same_name(&pair.0, variable) {
                return Some(&pair.1);
            }
        }
        None
    }

    /// The variables with their terms, in the order in which they were bound.
    pub fn listed(&self) -> &[(Var, Term)]
        ensures pairs { result.now ≡ self.now }
        ensures no_repeat { NoRepeat self.now }
    {
        self.pairs.as_slice()
    }

    /// The row, which its terms tell to be one of RDF.
    pub fn as_rdf(&self) -> &Row
        ensures same { result.now ≡ self.now }
        ensures valid { IsRdfRow self.now }
    {
        for pair in self.pairs.as_slice() {
            let _term = pair.1.as_rdf();
        }
        self
    }

    /// The cells of the row: the term of each variable, where it is bound, in the order of the variables. A cell is that of the
    /// next pair where the pairs stand in this order, and is looked for where they do not.
    pub fn cells(&self, alloc: Global, vars: &[Var]) -> Result<Vec<Option<&Term>>, Memory>
        ensures { IfOk result (λ cells. HasCells vars.now self.now (found cells.items)) }
    {
        let mut cells = Vec::with_capacity(alloc, vars.len())?;
        let mut rest = self.listed();
        for variable in vars {
            match rest {
                [(name, term), after @ ..] if name.same(variable) => {
                    push_item(&mut cells, Some(term.as_rdf()))?;
                    rest = after;
                }
                _ => push_item(&mut cells, self.get(variable).map(|term| term.as_rdf()))?,
            }
        }
        Ok(cells)
    }

    /// An equal one, in the same order.
    pub fn copy(&self, alloc: Global) -> Result<Row, Memory>
        ensures { IfOk result (λ r. r ≡ self.now) }
    {
        let mut pairs = Vec::with_capacity(alloc, self.pairs.len())?;
        for pair in self.pairs.as_slice() {
            push_item(&mut pairs, (pair.0.copy(alloc)?, pair.1.copy(alloc)?))?;
        }
        Ok(Row { pairs })
    }
}

/// Whether the two variables are the same.
fn same_name(one: &Var, other: &Var) -> bool
    ensures { result ≡ bytes_eq one.now other.now }
{
    one.same(other)
}
