//! The variables of a document.

ghost use Rattle.bye_json.specs.PartFaults.{IsVarsFault};
ghost use Rattle.bye_json.specs.Documents.{AreNames, name_of};
ghost use Rattle.serde_json.specs.View.{view};
ghost use Rattle.bye_table.specs.Mappings.{is_in};
ghost use Rattle.std.specs.Prelude.{◌≡◌, ◌<◌, ◌^◌, IfErr, IfOk, length, map};

use crate::json_err::JsonErr;
use bye_terms::{Memory, Text, Var, push_item};
use serde_json::Value;
use std::alloc::Global;

/// The variable of a name. None where the value is no string that is one.
fn name_of(alloc: Global, value: &Value) -> Result<Option<Var>, Memory>
    ensures { IfOk result (λ o. o ≡ name_of (view value.now)) }
{
    match value.as_str() {
        Some(text) => Ok(Var::from_name(Text::copy_of(alloc, text)?)),
        None => Ok(None),
    }
}

/// Whether the variable is one of these.
pub fn stands_in(vars: &[Var], one: &Var) -> bool
    ensures { result ≡ is_in vars.now one.now }
{
    vars.iter().any(|var| var.same(one))
}

/// The variables of these names, or the number of the first value that is no string, no name or a repeat.
pub fn read_vars(alloc: Global, values: &[Value]) -> Result<Vec<Var>, JsonErr>
    requires { length values.now < 2 ^ 32 }
    ensures ok { IfOk result (λ vars. AreNames (map view values.now) vars.items) }
    ensures err { IfErr result (IsVarsFault (map view values.now)) }
{
    let mut vars = Vec::new(alloc);
    for (i, value) in values.iter().enumerate() {
        let number = i as u32 + 1;
        let Some(var) = name_of(alloc, value)? else {
            return Err(JsonErr::BadVariable(number));
        };
        if stands_in(vars.as_slice(), &var) {
            return Err(JsonErr::BadVariable(number));
        }
        push_item(&mut vars, var)?;
    }
    Ok(vars)
}
