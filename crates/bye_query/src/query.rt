//! Reading of bytes as a select.

ghost use Rattle.std.specs.Prelude.{◌≡◌, IfOk, IfErr};
ghost use Rattle.bye_pattern.specs.Trees.{Select as PlainSelect};
ghost use Rattle.bye_grammar.specs.Documents.{QueryDoc};
ghost use Rattle.bye_tree.specs.Selects.{select_of};
ghost use Rattle.bye_query.specs.Answers.{Comes, IsRead};
ghost use Rattle.bye_query.specs.Passing.{of_gather};
ghost use Rattle.bye_query.specs.Refusals.{IsRefusal};

use crate::query_err::QueryErr;
use crate::written::read_bytes;
use bye_grammar::{documents_are_fronts, documents_have_one_value, fronts_are_closed};
use bye_laws::broken_or_designed_early;
use bye_tokens::splits_one_way;
use bye_tree::{GatherErr, Select, gather};
use std::alloc::Global;

/// The refusal of a query that is no select.
fn refusal(error: GatherErr) -> QueryErr
    ensures { result ≡ of_gather error }
{
    match error {
        GatherErr::Broken(shape) => QueryErr::Broken(shape),
        GatherErr::Projected => QueryErr::Projected,
        GatherErr::Memory => QueryErr::Memory,
    }
}

/// The first answer that comes: the select, or the first refusal.
fn answer(alloc: Global, bytes: &[u8]) -> Result<Select, QueryErr>
    ensures ok { IfOk result (λ s. IsRead bytes.now (select_of s)) }
    ensures cause { IfErr result (IsRefusal bytes.now) }
{
    let query = match read_bytes(alloc, bytes) {
        Ok(query) => query,
        Err(error) => return Err(error),
    };
    match gather(alloc, query) {
        Ok(select) => Ok(select),
        Err(error) => Err(refusal(error)),
    }
}

/// Reads bytes as a select (SPARQL 1.1 Query, sections 18.2 and 19.8). Each refusal has its cause, and a document of a select is read as
/// this select, where it is not too long and no bracket is too deep.
pub fn read_query(alloc: Global, bytes: &[u8]) -> Result<Select, QueryErr>
    ensures ok { IfOk result (λ s. IsRead bytes.now (select_of s)) }
    ensures cause { IfErr result (IsRefusal bytes.now) }
    ensures comes { (q : PlainSelect) → QueryDoc bytes.now q → Comes q result }
{
    splits_one_way();
    documents_have_one_value();
    documents_are_fronts();
    fronts_are_closed();
    broken_or_designed_early();
    answer(alloc, bytes)
}
