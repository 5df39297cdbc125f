/// What a kind test asks of a term: isIRI, isBlank or isLiteral (SPARQL 1.1 Query, sections 17.4.2.1 to 17.4.2.3).
#[derive(Debug, Drop)]
pub enum Kind {
    Iri,
    Blank,
    Literal,
}
