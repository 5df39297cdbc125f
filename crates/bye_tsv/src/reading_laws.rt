//! Laws of table documents, each the contract of a function that does nothing.

ghost use Rattle.bye_tsv.specs.ReadingLaws.{DocumentsAreTables, OneTable};

/// Bytes are a document of one table at most.
pub fn one_table()
    ensures { OneTable }
{}

/// A document's table is one: no variable stands twice, and each row binds of the variables alone, none twice.
pub fn documents_are_tables()
    ensures { DocumentsAreTables }
{}
