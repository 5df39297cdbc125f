ghost use Rattle.std.specs.Prelude.{◌≡◌, ◌+◌, ◌<◌, ◌≤◌, [], Err, IfOk, OnOk, length};
ghost use Rattle.bye_terms.specs.Members.{EachOnce};
ghost use Rattle.bye_member.specs.Lines as spec;
ghost use Rattle.bye_member.specs.declared.lines.Stop.TheVariants as stops;

use bye_node::Env;
use bye_terms::Memory;
use indexmap::IndexSet;
use std::alloc::{AllocFailed, Global};
use std::hash::{Hash, Hasher};
use std::marker::Model;

/// A row by numbers: the number of the term of each selected variable, where it is bound.
#[derive(Debug, Drop)]
pub struct Line {
    cells: Vec<Option<u32>>,
}

impl Model for Line {
    ghost use Rattle.bye_node.specs.Envs.{Cells};

    ghost Value = { Cells };

    ghost view = { λ l. l.cells.items };
}

impl PartialEq for Line {
    ghost use Rattle.bye_member.specs.Lines.{line_eq, line_per};

    ghost eq = { line_eq };

    ghost laws = { line_per };

    fn eq(&self, other: &Line) -> bool {
        self.cells == other.cells
    }
}

impl Eq for Line {
    ghost use Rattle.bye_member.specs.Lines.{line_equiv};

    ghost laws = { line_equiv };
}

impl Hash for Line {
    ghost use Rattle.bye_member.specs.Lines.{line_alike, line_fed};

    ghost hash_input = { line_fed };

    ghost respects_eq = { line_alike };

    fn hash<H: Hasher>(&self, state: &mut H) {
        self.cells.hash(state);
    }
}

impl Line {
    /// The row of a mapping by numbers.
    fn of_env(alloc: Global, env: &Env, selected: &[usize]) -> Result<Line, Memory>
        ensures { IfOk result (λ line. line ≡ spec.project selected.now env.now) }
    {
        let mut cells = Vec::with_capacity(alloc, selected.len())?;
        for place in selected {
            cells.push(env.cell(*place))?;
        }
        Ok(Line { cells })
    }

    /// The number of the term of each selected variable, in their order.
    pub fn cells(&self) -> &[Option<u32>]
        ensures { result.now ≡ self.now }
    {
        self.cells.as_slice()
    }
}

/// Why no more rows are put into a store.
#[derive(Debug, Drop)]
pub enum Stop {
    /// There are more rows than are wanted.
    Full,
    Memory,
}

impl From<Memory> for Stop {
    ghost use Rattle.std.specs.Prelude.{◌≡◌};
    ghost use Rattle.bye_member.specs.declared.lines.Stop.TheVariants as stops;

    ghost from_gives = { λ _ e. e ≡ stops.Memory };

    fn from(_: Memory) -> Self {
        Stop::Memory
    }
}

impl<T: Drop> From<AllocFailed<T>> for Stop {
    ghost use Rattle.std.specs.Prelude.{◌≡◌};
    ghost use Rattle.bye_member.specs.declared.lines.Stop.TheVariants as stops;

    ghost from_gives = { λ _ e. e ≡ stops.Memory };

    fn from(_: AllocFailed<T>) -> Self {
        Stop::Memory
    }
}

/// Rows by numbers, each once, and how many of them are wanted at most.
#[derive(Drop)]
pub struct Lines {
    set: IndexSet<Line>,
    limit: usize,
}

impl Model for Lines {
    ghost use Rattle.bye_terms.specs.Members.{EachOnce};
    ghost use Rattle.bye_member.specs.Lines.{LinesValue};

    ghost Value = { LinesValue };

    ghost view = { λ l. record { rows = l.set.keys; limit = l.limit } };

    ghost invariant = { λ l. EachOnce l.set.keys };
}

impl Lines {
    /// No rows.
    pub fn new(alloc: Global, limit: usize) -> Lines
        ensures { result ≡ record { rows = []; limit = limit } }
    {
        Lines {
            set: IndexSet::new(alloc),
            limit,
        }
    }

    /// Puts in the row of a mapping, where it is new. Full says that it is in and that there are more rows now than are wanted; after
    /// Memory there are those that there were.
    pub fn add(&mut self, alloc: Global, env: &Env, selected: &[usize]) -> Result<(), Stop>
        ensures ok { OnOk result (spec.AddsRow self.old.rows (spec.project selected.now env.now) self.new.rows) }
        ensures few { OnOk result (length self.new.rows ≤ self.old.limit) }
        ensures full { result ≡ Err stops.Full → spec.AddsRow self.old.rows (spec.project selected.now env.now) self.new.rows }
        ensures many { result ≡ Err stops.Full → self.old.limit < length self.new.rows }
        ensures one { length self.new.rows ≤ length self.old.rows + 1 }
        ensures memory { result ≡ Err stops.Memory → self.new.rows ≡ self.old.rows }
        ensures limit { self.new.limit ≡ self.old.limit }
    {
        let line = Line::of_env(alloc, env, selected)?;
        self.set.insert(line)?;
        if self.set.len() > self.limit {
            return Err(Stop::Full);
        }
        Ok(())
    }

    /// How many rows there are.
    pub fn len(&self) -> usize
        ensures { result ≡ length self.now.rows }
    {
        self.set.len()
    }

    /// The rows, in the order in which they came.
    pub fn rows(&self) -> &[Line]
        ensures rows { result.now ≡ self.now.rows }
        ensures once { EachOnce self.now.rows }
    {
        self.set.as_slice()
    }
}
