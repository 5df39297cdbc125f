//! Table documents.

ghost use Rattle.std.specs.Prelude.{◌≡◌, ◌≤◌, length, Err, IfOk, IfErr};
ghost use Rattle.bye_words.specs.declared.role.Role.{Role};
ghost use Rattle.bye_cli.specs.declared.table_form.TableForm.TheVariants as forms;
ghost use Rattle.bye_cli.specs.Causes.{IsUnfit};
ghost use Rattle.bye_cli.specs.Documents.{IsVerdict, OfTable, Rows, Good, bounds_of, json_verdict, limit_of, most_rows, most_vars, tsv_verdict};
ghost use Rattle.bye_cli.specs.Refusals.{verdict_refusal};

use crate::reader::Reader;
use crate::table_form::TableForm;
use bye_json::{JsonErr, read_json};
use bye_table::Table;
use bye_tsv::{Bounds, TsvErr, read_tsv};
use bye_words::{Count, Fault, Refusal, Role};
use std::alloc::Global;

/// The greatest number of variables of a table in the role.
fn most_vars(role: Role) -> u32
    ensures { result ≡ most_vars role }
{
    match role {
        Role::Table => 1024,
        _ => 32,
    }
}

/// The greatest number of its rows.
fn most_rows(role: Role) -> u32
    ensures { result ≡ most_rows role }
{
    match role {
        Role::Table => 1_048_576,
        _ => 10_000,
    }
}

/// The greatest numbers of a table in the role.
fn bounds(role: Role) -> Bounds
    ensures { result ≡ bounds_of role }
{
    Bounds {
        vars: most_vars(role),
        rows: most_rows(role),
    }
}

/// The refusal of a table in JSON.
fn no_json(role: Role, err: JsonErr) -> Refusal
    ensures { result ≡ verdict_refusal role (json_verdict (Err err)) }
{
    match err {
        JsonErr::NotJson => Refusal::Document(role, Fault::NotJson),
        JsonErr::NotBindings => Refusal::Document(role, Fault::NotBindings),
        JsonErr::BadVariable(number) => Refusal::Document(role, Fault::BadVariable(number)),
        JsonErr::Unlisted(row) => Refusal::Document(role, Fault::Unlisted(row)),
        JsonErr::BadTerm(row, number) => Refusal::Document(role, Fault::BadTerm(row, number)),
        JsonErr::TooManyVars => Refusal::Limit(role, Count::Variables),
        JsonErr::TooManyRows => Refusal::Limit(role, Count::Rows),
        JsonErr::Memory => Refusal::Memory,
    }
}

/// What the bytes say as a table in JSON.
fn json_table(alloc: Global, role: Role, bytes: &[u8]) -> Result<Table, Refusal>
    requires { length bytes.now ≤ limit_of (OfTable role forms.Json) }
    ensures good { IfOk result (λ table. IsVerdict (OfTable role forms.Json) bytes.now (Good (Rows table))) }
    ensures unfit { IfErr result (IsUnfit (OfTable role forms.Json) bytes.now) }
{
    match read_json(alloc, bytes, most_vars(role), most_rows(role)) {
        Ok(table) => Ok(table),
        Err(err) => Err(no_json(role, err)),
    }
}

/// The refusal of a table in TSV.
fn no_tsv(role: Role, err: TsvErr) -> Refusal
    ensures { result ≡ verdict_refusal role (tsv_verdict (Err err)) }
{
    match err {
        TsvErr::NotUtf8(place) => Refusal::Document(role, Fault::NotUtf8(place)),
        TsvErr::Header(place) => Refusal::Document(role, Fault::Header(place)),
        TsvErr::Term(place) => Refusal::Document(role, Fault::Term(place)),
        TsvErr::Fields(line) => Refusal::Document(role, Fault::Fields(line)),
        TsvErr::TooManyVars => Refusal::Limit(role, Count::Variables),
        TsvErr::TooManyRows => Refusal::Limit(role, Count::Rows),
        TsvErr::Memory => Refusal::Memory,
    }
}

/// What the bytes say as a table in TSV.
fn tsv_table(alloc: Global, role: Role, bytes: &[u8]) -> Result<Table, Refusal>
    requires { length bytes.now ≤ limit_of (OfTable role forms.Tsv) }
    ensures good { IfOk result (λ table. IsVerdict (OfTable role forms.Tsv) bytes.now (Good (Rows table))) }
    ensures unfit { IfErr result (IsUnfit (OfTable role forms.Tsv) bytes.now) }
{
    match read_tsv(alloc, bytes, bounds(role)) {
        Ok(table) => Ok(table),
        Err(err) => Err(no_tsv(role, err)),
    }
}

/// Reads a table in a role and a form.
#[derive(Debug, Clone, Copy)]
pub struct TableReader {
    pub role: Role,
    pub form: TableForm,
}

impl Reader for TableReader {
    type Read = Table;

    ghost kind = { λ reader. OfTable reader.role reader.form };

    ghost value = { λ table. Rows table };

    fn role(&self) -> Role {
        self.role
    }

    fn limit(&self) -> u64 {
        67_108_864
    }

    fn read(&self, alloc: Global, bytes: &[u8]) -> Result<Table, Refusal> {
        match self.form {
            TableForm::Tsv => tsv_table(alloc, self.role, bytes),
            TableForm::Json => json_table(alloc, self.role, bytes),
        }
    }
}
