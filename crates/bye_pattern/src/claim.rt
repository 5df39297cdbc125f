use bye_terms::Var;

/// Why no query of one conjunction fits the wanted rows, whose numbers begin at 1.
#[derive(Debug, Drop)]
pub enum Claim {
    /// Of the two rows of these numbers exactly one binds the variable.
    Domains(usize, usize, Var),
    /// No variable is bound in all rows.
    NoRoot,
    /// No triple pattern that holds in all rows contains the variable.
    Uncovered(Var),
}
