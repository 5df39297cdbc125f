//! Documents of results, read into tables.

ghost use Rattle.bye_json.specs.Answers.{JsonAnswer};
ghost use Rattle.bye_json.specs.Trees.{IsJson};
ghost use Rattle.bye_json.specs.declared.json_err.JsonErr.TheVariants as faults;
ghost use Rattle.serde_json.specs.Data.{Data};
ghost use Rattle.serde_json.specs.View.{view};
ghost use Rattle.std.specs.Prelude.{◌≡◌, ◌⊎◌, IfErr, IfOk};

use crate::json_err::JsonErr;
use crate::lists::lists_of;
use crate::rows::read_rows;
use crate::variables::read_vars;
use bye_table::Table;
use serde_json::Value;
use std::alloc::Global;

/// The tree of a JSON text (RFC 8259). NotJson exactly where the bytes are none.
fn read_tree(alloc: Global, bytes: &[u8]) -> Result<Value, JsonErr>
    ensures ok { IfOk result (λ tree. IsJson bytes.now (view tree)) }
    ensures err { IfErr result (λ e. (e ≡ faults.Memory) ⊎ ((e ≡ faults.NotJson) × ((d : Data) → IsJson bytes.now d → ⊥))) }
{
    match Value::from_slice(alloc, bytes) {
        Ok(tree) => Ok(tree),
        Err(error) if error.is_memory() => Err(JsonErr::Memory),
        Err(_) => Err(JsonErr::NotJson),
    }
}

/// The table of a document of results, its rows in the order of the document and each in the order of the variables (SPARQL 1.1
/// Query Results JSON Format, section 3), or the first fault. `vars` and `rows` are the greatest numbers of variables and of rows.
pub fn read_json(alloc: Global, bytes: &[u8], vars: u32, rows: u32) -> Result<Table, JsonErr>
    ensures { JsonAnswer bytes.now vars rows result }
{
    let tree = read_tree(alloc, bytes)?;
    let Some(lists) = lists_of(&tree) else {
        return Err(JsonErr::NotBindings);
    };
    if lists.vars.len() > vars as usize {
        return Err(JsonErr::TooManyVars);
    }
    let names = read_vars(alloc, lists.vars)?;
    if lists.bindings.len() > rows as usize {
        return Err(JsonErr::TooManyRows);
    }
    let table_rows = read_rows(alloc, names.as_slice(), lists.bindings)?;
    Ok(Table::of_rows(names, table_rows))
}
