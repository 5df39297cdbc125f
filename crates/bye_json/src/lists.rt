//! The two lists of a document, and what its elements are.

ghost use Rattle.bye_json.specs.Documents as spec;
ghost use Rattle.bye_json.specs.Documents.{is_object};
ghost use Rattle.bye_json.specs.Trees.{as_list};
ghost use Rattle.serde_json.specs.View.{view};
ghost use Rattle.std.specs.List.{list_all};
ghost use Rattle.std.specs.Prelude.{◌≡◌, map, option_map};

use serde_json::Value;

/// The lists of a document, as they stand in its tree.
#[derive(Drop)]
pub struct Lists<'a> {
    pub vars: &'a [Value],
    pub bindings: &'a [Value],
}

/// The items of an array. None where the value is no array.
fn items_of(value: &Value) -> Option<&[Value]>
    ensures { option_map (λ s. map view s.now) result ≡ as_list (view value.now) }
{
    let items = value.as_array()?;
    Some(items.as_slice())
}

fn are_objects(values: &[Value]) -> bool
    ensures { result ≡ list_all (λ v. is_object (view v)) values.now }
{
    values.iter().all(|value| value.is_object())
}

/// The items of `vars` in `head` (SPARQL 1.1 Query Results JSON Format, section 3.1).
fn vars_of(document: &Value) -> Option<&[Value]>
    ensures { option_map (λ s. map view s.now) result ≡ spec.vars_of (view document.now) }
{
    items_of(document.get("head")?.get("vars")?)
}

/// The objects of `bindings` in `results` (section 3.2).
#[tactic(auto, using(crate::proofs::Trees::objects_viewed))]
fn bindings_of(document: &Value) -> Option<&[Value]>
    ensures { option_map (λ s. map view s.now) result ≡ spec.bindings_of (view document.now) }
{
    let bindings = items_of(document.get("results")?.get("bindings")?)?;
    if are_objects(bindings) {
        Some(bindings)
    } else {
        None
    }
}

/// The two lists of a document that has no member `boolean`. None where it lacks one of them.
#[tactic(auto, unfolding(crate::specs::Documents::lists_of))]
pub fn lists_of(document: &Value) -> Option<Lists<'_>>
    ensures { option_map (λ l. record { vars = map view l.vars.now; bindings = map view l.bindings.now }) result ≡ spec.lists_of (view document.now) }
{
    if document.get("boolean").is_some() {
        return None;
    }
    let vars = vars_of(document)?;
    let bindings = bindings_of(document)?;
    Some(Lists { vars, bindings })
}
