ghost use Rattle.std.specs.Prelude.{◌≡◌, IfOk, OnOk, true};
ghost use Rattle.std.specs.Str.{all_scalars, encode_utf8_all};
ghost use Rattle.bye_pattern.specs.Printed.{query_text};
ghost use Rattle.bye_pattern.specs.Selects.{IsSelect};
ghost use Rattle.bye_tree.specs.Selects.{select_of};
ghost use Rattle.bye_grammar.specs.Documents.{QueryDoc};
ghost use Rattle.bye_grammar.specs.ValidSelects.{IsValidSelect};

use crate::groups::push_group;
use crate::patterns::push_names;
use bye_readback::written_texts_are_read;
use bye_terms::{Memory, Text};
use bye_tree::Select;
use std::alloc::Global;

/// The written text of a SELECT (SPARQL 1.1 Query, section 19.8).
fn select_text(alloc: Global, select: &Select) -> Result<Text, Memory>
    ensures text { IfOk result (λ text. text ≡ query_text (select_of select.now)) }
    ensures kept { OnOk result (IsSelect (select_of select.now)) }
    ensures valid { OnOk result (IsValidSelect (select_of select.now)) }
{
    let mut margin = Text::new(alloc);
    margin.push_ascii("  ")?;
    let mut out = Text::new(alloc);
    out.push_ascii("SELECT")?;
    if select.is_distinct() {
        out.push_ascii(" DISTINCT")?;
    }
    push_names(&mut out, select.vars())?;
    out.push_ascii("\nWHERE {\n")?;
    let root = select.tree().root();
    push_group(alloc, &mut out, &margin, select.outer(), root)?;
    out.push_ascii("}\n")?;
    Ok(out)
}

/// The same in UTF-8.
fn select_bytes(alloc: Global, select: &Select) -> Result<Vec<u8>, Memory>
    ensures bytes { IfOk result (λ bytes. bytes.items ≡ encode_utf8_all (query_text (select_of select.now))) }
    ensures scalars { OnOk result (all_scalars (query_text (select_of select.now)) ≡ true) }
    ensures kept { OnOk result (IsSelect (select_of select.now)) }
    ensures valid { OnOk result (IsValidSelect (select_of select.now)) }
{
    let text = select_text(alloc, select)?;
    let mut bytes = Vec::new(alloc);
    bytes.extend_from_slice(text.as_str().as_bytes())?;
    Ok(bytes)
}

/// The written text of a SELECT, in UTF-8 (SPARQL 1.1 Query, section 19.8). It is a document that is read as this SELECT.
pub fn write_query(alloc: Global, select: &Select) -> Result<Vec<u8>, Memory>
    ensures text { IfOk result (λ bytes. bytes.items ≡ encode_utf8_all (query_text (select_of select.now))) }
    ensures read { IfOk result (λ bytes. QueryDoc bytes.items (select_of select.now)) }
{
    written_texts_are_read();
    let bytes = select_bytes(alloc, select)?;
    Ok(bytes)
}
