//! Reading of the bytes of a text as it is written.

ghost use Rattle.std.specs.Prelude.{◌≡◌, IfOk, IfErr};
ghost use Rattle.bye_tree.specs.Written.{written_of};
ghost use Rattle.bye_query.specs.Answers.{IsReadAs};
ghost use Rattle.bye_query.specs.Passing.{of_stopped};
ghost use Rattle.bye_query.specs.Refusals.{IsRefusal};

use crate::query_err::QueryErr;
use bye_descent::{Stopped, read_written};
use bye_grammar::documents_are_valid;
use bye_tokens::splits_one_way;
use bye_tree::WrittenQuery;
use std::alloc::Global;

/// The longest text that is read, in bytes.
const MAX_BYTES: usize = 16_777_216;

/// The refusal of a text whose tokens are not read.
fn refusal(stopped: Stopped) -> QueryErr
    ensures { result ≡ of_stopped stopped }
{
    match stopped {
        Stopped::WrongToken(place, Some(feature)) => QueryErr::LeftOut(place, feature),
        Stopped::WrongToken(place, None) => QueryErr::Syntax(place),
        Stopped::UnknownPrefix(place) => QueryErr::UnknownPrefix(place),
        Stopped::DeepToken(place) => QueryErr::TooDeep(place),
        Stopped::Memory => QueryErr::Memory,
    }
}

/// Reads bytes as the query that they are the text of (SPARQL 1.1 Query, section 19.8).
pub fn read_bytes(alloc: Global, bytes: &[u8]) -> Result<WrittenQuery, QueryErr>
    ensures ok { IfOk result (λ query. IsReadAs bytes.now (written_of query)) }
    ensures cause { IfErr result (IsRefusal bytes.now) }
{
    if bytes.len() > MAX_BYTES {
        return Err(QueryErr::TooLong);
    }
    splits_one_way();
    documents_are_valid();
    match str::from_utf8(bytes) {
        Ok(text) => match read_written(alloc, text) {
            Ok(query) => Ok(query),
            Err(stopped) => Err(refusal(stopped)),
        },
        Err(error) => Err(QueryErr::NotUtf8(error.valid_up_to())),
    }
}
