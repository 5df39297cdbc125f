//! Query documents.

ghost use Rattle.std.specs.Prelude.{◌≡◌, ◌⊎◌, Err, IfOk};
ghost use Rattle.bye_query.specs.declared.query_err.QueryErr.TheVariants as errors;
ghost use Rattle.bye_words.specs.declared.refusal.Refusal.TheVariants as refusals;
ghost use Rattle.bye_tree.specs.Selects.{select_of};
ghost use Rattle.bye_words.specs.declared.role.Role.TheVariants.{Query};
ghost use Rattle.bye_cli.specs.Documents.{OfQuery, Asks, query_verdict, rule_of};
ghost use Rattle.bye_cli.specs.Refusals.{verdict_refusal};

use crate::reader::Reader;
use bye_descent::Feature;
use bye_pattern::Rule as PatternRule;
use bye_query::{QueryErr, read_query};
use bye_terms::{Memory, Text};
use bye_tree::Select;
use bye_words::{Count, Fault, Refusal, Role, Rule};
use std::alloc::Global;

/// The rule, as a line tells it.
fn told_rule(rule: PatternRule) -> Rule
    ensures { result ≡ rule_of rule }
{
    match rule {
        PatternRule::NoTriples => Rule::NoTriples,
        PatternRule::NoNewVariable => Rule::NoNewVariable,
        PatternRule::NotWellDesigned => Rule::NotWellDesigned,
        PatternRule::UnsafeCondition => Rule::UnsafeCondition,
    }
}

/// The refusal of a word or a sign that queries leave out.
fn left_out(alloc: Global, place: usize, feature: Feature) -> Result<Refusal, Memory>
    ensures { IfOk result (λ refusal. refusal ≡ verdict_refusal Query (query_verdict (Err (errors.LeftOut place feature)))) }
{
    let word = Text::copy_of(alloc, feature.word())?;
    Ok(Refusal::Document(Role::Query, Fault::LeftOut(place, word)))
}

/// The refusal of a query that is not of its form, or passes a limit; it may be want of memory, which tells nothing.
fn no_query(alloc: Global, error: QueryErr) -> Refusal
    ensures { (result ≡ refusals.Memory) ⊎ (result ≡ verdict_refusal Query (query_verdict (Err error))) }
{
    match error {
        QueryErr::TooLong => Refusal::Limit(Role::Query, Count::Bytes),
        QueryErr::NotUtf8(place) => Refusal::Document(Role::Query, Fault::NotUtf8(place)),
        QueryErr::Syntax(place) => Refusal::Document(Role::Query, Fault::Syntax(place)),
        QueryErr::LeftOut(place, feature) => match left_out(alloc, place, feature) {
            Ok(refusal) => refusal,
            Err(_) => Refusal::Memory,
        },
        QueryErr::UnknownPrefix(place) => {
            Refusal::Document(Role::Query, Fault::UnknownPrefix(place))
        }
        QueryErr::TooDeep(_) => Refusal::Limit(Role::Query, Count::Brackets),
        QueryErr::Broken(shape) => Refusal::Document(
            Role::Query,
            Fault::Broken(told_rule(shape.rule), shape.path),
        ),
        QueryErr::Projected => Refusal::Document(Role::Query, Fault::Projected),
        QueryErr::Memory => Refusal::Memory,
    }
}

/// Reads the select of a query document.
pub struct QueryReader;

impl Reader for QueryReader {
    type Read = Select;

    ghost kind = { λ _. OfQuery };

    ghost value = { λ select. Asks (select_of select) };

    fn role(&self) -> Role {
        Role::Query
    }

    fn limit(&self) -> u64 {
        16_777_216
    }

    fn read(&self, alloc: Global, bytes: &[u8]) -> Result<Select, Refusal> {
        match read_query(alloc, bytes) {
            Ok(select) => Ok(select),
            Err(error) => Err(no_query(alloc, error)),
        }
    }
}
