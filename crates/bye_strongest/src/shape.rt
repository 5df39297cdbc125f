/// What stands in one place of a triple pattern: a variable by its place among the variables, or a term by its number.
#[derive(Clone, Copy, Debug, Drop)]
pub enum Place {
    Hole(usize),
    Fixed(u32),
}

/// A triple pattern by numbers.
#[derive(Clone, Copy, Debug, Drop)]
pub struct Shape {
    pub s: Place,
    pub p: Place,
    pub o: Place,
}
