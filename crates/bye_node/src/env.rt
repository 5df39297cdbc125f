ghost use Rattle.std.specs.Prelude.{◌≡◌, IfOk, MatchOption, None, Some};
ghost use Rattle.bye_node.specs.Envs as spec;

use bye_terms::Memory;
use std::alloc::Global;
use std::marker::Model;

/// What stands in one place of a triple pattern: a variable by its number, or a term by its number.
#[derive(Clone, Copy, Debug, Drop)]
pub enum Place {
    Hole(usize),
    Fixed(u32),
}

/// A triple pattern by numbers.
#[derive(Clone, Copy, Debug, Drop)]
pub struct Shape {
    pub s: Place,
    pub p: Place,
    pub o: Place,
}

/// The cells that a triple was put into.
#[derive(Clone, Copy, Debug, Drop)]
pub struct Bound {
    s: Option<usize>,
    p: Option<usize>,
    o: Option<usize>,
}

/// A mapping by numbers: at the place of each variable the number of its term, where it is bound.
#[derive(Debug, Drop)]
pub struct Env {
    cells: Vec<Option<u32>>,
}

impl Model for Env {
    ghost use Rattle.bye_node.specs.Envs.{Cells};

    ghost Value = { Cells };

    ghost view = { λ e. e.cells.items };
}

impl Env {
    /// The mapping of that many variables that binds none.
    pub fn blank(alloc: Global, count: usize) -> Result<Env, Memory>
        ensures { IfOk result (λ e. e ≡ spec.blank count) }
    {
        let mut cells = Vec::new(alloc);
        cells.resize(count, None)?;
        Ok(Env { cells })
    }

    /// An equal one.
    pub fn copy(&self, alloc: Global) -> Result<Env, Memory>
        ensures { IfOk result (λ e. e ≡ self.now) }
    {
        let cells = self.cells.as_slice().to_vec(alloc)?;
        Ok(Env { cells })
    }

    /// The number of a variable's term.
    pub fn cell(&self, i: usize) -> Option<u32>
        ensures { result ≡ spec.cell self.now i }
    {
        match self.cells.get(i) {
            Some(cell) => *cell,
            None => None,
        }
    }

    /// The number that stands in the place.
    pub fn under(&self, place: Place) -> Option<u32>
        ensures { result ≡ spec.under self.now place }
    {
        match place {
            Place::Hole(i) => self.cell(i),
            Place::Fixed(n) => Some(n),
        }
    }

    /// Opens the cell, where there is one.
    fn open(&mut self, cell: Option<usize>)
        ensures { self.new ≡ spec.opened self.old cell }
    {
        if let Some(i) = cell {
            if let Some(there) = self.cells.get_mut(i) {
                *there = None;
            }
        }
    }

    /// Puts the number in the cell. Gives the cell where it was open, and None, with nothing changed, where another number is there.
    fn bind_cell(&mut self, i: usize, n: u32) -> Option<Option<usize>>
        ensures { MatchOption result ((self.new ≡ self.old) × (spec.bind_hole self.old i n (spec.cell self.old i) ≡ None)) (λ cell. (spec.bind_hole self.old i n (spec.cell self.old i) ≡ Some self.new) × (spec.opened self.new cell ≡ self.old)) }
    {
        match self.cell(i) {
            Some(m) if m == n => Some(None),
            Some(_) => None,
            None => {
                let there = self.cells.get_mut(i)?;
                *there = Some(n);
                Some(Some(i))
            }
        }
    }

    /// Puts the number in the place. Gives the cell that was open, where one was, and None, with nothing changed, where another
    /// number is there.
    fn bind(&mut self, place: Place, n: u32) -> Option<Option<usize>>
        ensures { MatchOption result ((self.new ≡ self.old) × (spec.bind self.old place n ≡ None)) (λ cell. (spec.bind self.old place n ≡ Some self.new) × (spec.opened self.new cell ≡ self.old)) }
    {
        match place {
            Place::Fixed(m) if m == n => Some(None),
            Place::Fixed(_) => None,
            Place::Hole(i) => self.bind_cell(i, n),
        }
    }

    /// Puts the triple in the places of the shape. None, with nothing changed, where another number is in one of them.
    pub fn bind_key(&mut self, shape: Shape, key: (u32, u32, u32)) -> Option<Bound>
        ensures { MatchOption result ((self.new ≡ self.old) × (spec.bind_key self.old shape key ≡ None)) (λ bound. (spec.bind_key self.old shape key ≡ Some self.new) × (spec.unbound self.new bound ≡ self.old)) }
    {
        let s = self.bind(shape.s, key.0)?;
        let Some(p) = self.bind(shape.p, key.1) else {
            self.open(s);
            return None;
        };
        let Some(o) = self.bind(shape.o, key.2) else {
            self.open(p);
            self.open(s);
            return None;
        };
        Some(Bound { s, p, o })
    }

    /// Opens the cells that a triple was put into.
    pub fn unbind(&mut self, bound: Bound)
        ensures { self.new ≡ spec.unbound self.old bound }
    {
        self.open(bound.o);
        self.open(bound.p);
        self.open(bound.s);
    }
}
