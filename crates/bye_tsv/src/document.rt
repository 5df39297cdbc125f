//! The machine of documents: the variables and rows that were read, and how far the present line was read.

ghost use Rattle.bye_lex.specs.NameSteps as name_spec;
ghost use Rattle.bye_table.specs.Mappings.{NoRepeat, is_in};
ghost use Rattle.bye_table.specs.Tables.{IsTable};
ghost use Rattle.bye_tsv.specs.DocRuns.{DocRuns};
ghost use Rattle.bye_tsv.specs.DocSteps as spec;
ghost use Rattle.bye_tsv.specs.DocSteps.{CannotAdvance, CannotFinish, CannotWalk, Ends, IsNotGiven, IsSound, Moves, Went, table_of, walk};
ghost use Rattle.bye_tsv.specs.Documents.{bound};
ghost use Rattle.bye_tsv.specs.FieldSteps as field_spec;
ghost use Rattle.bye_tsv.specs.Kept.{doc_kept, place_kept};
ghost use Rattle.bye_tsv.specs.declared.fault.TsvErr.TheVariants as faults;
ghost use Rattle.bye_tsv.specs.declared.place.Place.TheVariants as places;
ghost use Rattle.std.specs.Prelude.{◌≡◌, true, ◌≤◌, None, ◌++◌, ◌+◌, ◌<◌, ◌^◌, ◌∷◌, [], Some, MatchOption, IfOk, IfErr, IfNone, OnOk, option_map, length};
ghost use Rattle.std.specs.Str.{encode_utf8_all};

use crate::fault::{Bounds, TsvErr};
use crate::field::FieldAt;
use crate::measure::{names_kept, row_kept};
use crate::place::{Place, after_name, first_place, is_border, mark_place, return_place};
use bye_lex::{Machine, NameAt, Stepped, Style};
use bye_table::{Row, Table};
use bye_terms::{Cursor, Memory, Term, Var, push_item};
use std::alloc::Global;
use std::marker::Model;
use std::mem;

/// The variables and the rows that are complete, what the complete fields of the present line bind, and how far that was read.
#[derive(Debug, Drop)]
pub struct Document {
    vars: Vec<Var>,
    rows: Vec<Row>,
    pairs: Vec<(Var, Term)>,
    column: usize,
    at: Place,
}

impl Model for Document {
    ghost use Rattle.bye_tsv.specs.DocSteps.{DocAt};
    ghost use Rattle.std.specs.Prelude.{◌≤◌, drop, length};

    ghost Value = { DocAt };

    ghost view = { λ d. record { vars = d.vars.items; rows = d.rows.items; row = d.pairs.items; later = drop d.column d.vars.items; at = d.at } };

    ghost invariant = { λ d. d.column ≤ length d.vars.items };
}

/// Whether the variable is one of these.
fn stands_in(vars: &[Var], one: &Var) -> bool
    ensures { result ≡ is_in vars.now one.now }
{
    vars.iter().any(|var| var.same(one))
}

/// Binds the variable of a cell that has a term.
fn bind(
    alloc: Global,
    pairs: &mut Vec<(Var, Term)>,
    var: &Var,
    cell: Option<Term>,
) -> Result<(), Memory>
    ensures { OnOk result (pairs.new.items ≡ pairs.old.items ++ bound var.now cell) }
{
    match cell {
        Some(term) => {
            let var = var.copy(alloc)?;
            push_item(pairs, (var, term))
        }
        None => Ok(()),
    }
}

/// Refuses more variables or rows than are allowed.
fn check_counts(bounds: Bounds, vars: usize, rows: usize) -> Result<(), TsvErr>
    ensures ok { OnOk result (spec.exceeded bounds vars rows ≡ None) }
    ensures err { IfErr result (λ e. spec.exceeded bounds vars rows ≡ Some e) }
{
    if vars as u64 > bounds.vars as u64 {
        return Err(TsvErr::TooManyVars);
    }
    if rows as u64 > bounds.rows as u64 {
        return Err(TsvErr::TooManyRows);
    }
    Ok(())
}

impl Document {
    /// Before the first character.
    pub fn new(alloc: Global) -> Document
        ensures { result ≡ spec.start }
    {
        Document {
            vars: Vec::new(alloc),
            rows: Vec::new(alloc),
            pairs: Vec::new(alloc),
            column: 0,
            at: Place::Start,
        }
    }

    /// Goes on at this place.
    fn put(&mut self, at: Place)
        ensures { self.new ≡ spec.placed self.old at }
    {
        self.at = at;
    }

    /// Goes on at this place, where there is one.
    fn go_to(&mut self, place: Option<Place>) -> bool
        ensures { Moves result self.new (option_map (spec.placed self.old) place) }
    {
        match place {
            Some(place) => {
                self.put(place);
                true
            }
            None => false,
        }
    }

    /// Adds a name of the header, which does not stand among those before it.
    fn add_name(&mut self, name: Var) -> Result<bool, Memory>
        ensures { IfOk result (λ added. Moves added self.new (spec.name_ends self.old (Some name) self.old.at)) }
    {
        if stands_in(self.vars.as_slice(), &name) {
            return Ok(false);
        }
        push_item(&mut self.vars, name)?;
        Ok(true)
    }

    /// Ends a name of the header, and goes on at this place.
    fn end_name(&mut self, at: NameAt, place: Place) -> Result<bool, Memory>
        ensures { IfOk result (λ moved. Moves moved self.new (spec.name_ends self.old (name_spec.final at) place)) }
    {
        self.put(place);
        match at {
            NameAt::In(name) => self.add_name(name),
            NameAt::Start => Ok(false),
        }
    }

    fn go_on_in_name(&mut self, alloc: Global, at: NameAt, c: char) -> Result<bool, Memory>
        ensures { IfOk result (λ moved. Moves moved self.new (option_map (λ n. spec.placed self.old (places.Name n)) (name_spec.step at c))) }
    {
        match at.step(alloc, c, Style::Tsv)? {
            Stepped::On(at) => {
                self.put(Place::Name(at));
                Ok(true)
            }
            Stepped::Off(_) => Ok(false),
        }
    }

    fn in_name(&mut self, alloc: Global, at: NameAt, c: char) -> Result<bool, Memory>
        ensures { IfOk result (λ moved. Moves moved self.new (spec.in_name self.old at c)) }
    {
        match after_name(c) {
            Some(place) => self.end_name(at, place),
            None => self.go_on_in_name(alloc, at, c),
        }
    }

    /// Adds the row of the present line, which is complete.
    fn end_line(&mut self, alloc: Global) -> Result<(), Memory>
        requires { NoRepeat self.old.row }
        ensures { OnOk result (self.new ≡ spec.line_ended self.old self.old.row) }
    {
        let pairs = mem::replace(&mut self.pairs, Vec::new(alloc));
        push_item(&mut self.rows, Row::of_pairs(pairs))?;
        self.column = 0;
        self.put(Place::Begin);
        Ok(())
    }

    /// Ends a row, after whose last field this character stands.
    fn end_row(&mut self, alloc: Global, c: char) -> Result<bool, Memory>
        requires row { NoRepeat self.old.row }
        requires last { self.old.later ≡ [] }
        ensures { IfOk result (λ moved. Moves moved self.new (spec.row_ends self.old c self.old.row)) }
    {
        if c == '\n' {
            self.end_line(alloc)?;
            return Ok(true);
        }
        if c == '\r' {
            self.put(Place::Return);
            return Ok(true);
        }
        Ok(false)
    }

    /// Ends a field with this cell, after which this character stands.
    fn end_cell(&mut self, alloc: Global, cell: Option<Term>, c: char) -> Result<bool, Memory>
        requires { IsSound self.old }
        ensures { IfOk result (λ moved. Moves moved self.new (spec.cell_ends self.old c self.old.later (Some cell))) }
    {
        let (_, columns) = self.vars.as_slice().split_at(self.column);
        let Some((var, after)) = columns.split_first() else {
            return Ok(false);
        };
        let is_last = after.is_empty();
        bind(alloc, &mut self.pairs, var, cell)?;
        self.column += 1;
        if is_last {
            return self.end_row(alloc, c);
        }
        if c == '\t' {
            self.put(Place::Field(FieldAt::Empty));
            return Ok(true);
        }
        Ok(false)
    }

    /// Ends a field, after which this character stands.
    fn end_field(&mut self, alloc: Global, at: FieldAt, c: char) -> Result<bool, Memory>
        requires { IsSound self.old }
        ensures { IfOk result (λ moved. Moves moved self.new (spec.cell_ends self.old c self.old.later (field_spec.final at))) }
    {
        match at.cell(alloc)? {
            Some(cell) => self.end_cell(alloc, cell, c),
            None => Ok(false),
        }
    }

    fn go_on_in_field(&mut self, alloc: Global, at: FieldAt, c: char) -> Result<bool, Memory>
        ensures { IfOk result (λ moved. Moves moved self.new (option_map (λ n. spec.placed self.old (places.Field n)) (field_spec.step at c))) }
    {
        match at.step(alloc, c)? {
            Some(at) => {
                self.put(Place::Field(at));
                Ok(true)
            }
            None => Ok(false),
        }
    }

    fn in_field(&mut self, alloc: Global, at: FieldAt, c: char) -> Result<bool, Memory>
        requires { IsSound self.old }
        ensures { IfOk result (λ moved. Moves moved self.new (spec.in_field self.old at c)) }
    {
        if is_border(c) {
            self.end_field(alloc, at, c)
        } else {
            self.go_on_in_field(alloc, at, c)
        }
    }

    /// The first character of a later line.
    fn begin(&mut self, alloc: Global, c: char) -> Result<bool, Memory>
        requires { IsSound self.old }
        ensures { IfOk result (λ moved. Moves moved self.new (spec.begin self.old c self.old.later)) }
    {
        if self.column < self.vars.len() {
            self.in_field(alloc, FieldAt::Empty, c)
        } else {
            self.end_row(alloc, c)
        }
    }

    /// The LF after the CR of a row.
    fn after_return(&mut self, alloc: Global, c: char) -> Result<bool, Memory>
        requires { IsSound self.old }
        ensures { IfOk result (λ moved. Moves moved self.new (spec.after_return self.old c)) }
    {
        if c == '\n' {
            self.end_line(alloc)?;
            return Ok(true);
        }
        Ok(false)
    }

    /// Takes one more character. False where no continuation is a document; then the document is spoiled.
    fn step(&mut self, alloc: Global, c: char) -> Result<bool, Memory>
        requires { IsSound self.old }
        ensures { IfOk result (λ moved. Moves moved self.new (spec.step self.old c)) }
    {
        match mem::replace(&mut self.at, Place::Begin) {
            Place::Start => Ok(self.go_to(first_place(c))),
            Place::Mark => Ok(self.go_to(mark_place(c))),
            Place::Name(at) => self.in_name(alloc, at, c),
            Place::HeaderReturn => Ok(self.go_to(return_place(c))),
            Place::Begin => self.begin(alloc, c),
            Place::Field(at) => self.in_field(alloc, at, c),
            Place::Return => self.after_return(alloc, c),
        }
    }

    /// The fault where no document goes on: in a later line at a TAB or a line's end, or at another place.
    fn line_fault(&self, border: bool, here: usize) -> TsvErr
        ensures { result ≡ spec.line_fault self.now border here }
    {
        if border {
            TsvErr::Fields(self.rows.len() as u64 + 2)
        } else {
            TsvErr::Term(here)
        }
    }

    /// The fault where no document goes on: at a TAB or a line's end, or at another place.
    fn fault(&self, border: bool, here: usize) -> TsvErr
        ensures { result ≡ spec.fault self.now border here }
    {
        match &self.at {
            Place::Start | Place::Mark | Place::Name(_) | Place::HeaderReturn => {
                TsvErr::Header(here)
            }
            Place::Begin => self.line_fault(border, here),
            Place::Field(at) if at.is_whole() => self.line_fault(border, here),
            Place::Field(_) | Place::Return => TsvErr::Term(here),
        }
    }

    /// How many names are complete: one before a CR is not, until its LF comes.
    fn complete(&self) -> usize
        ensures { result ≡ spec.complete self.now }
    {
        match &self.at {
            Place::HeaderReturn => self.vars.len().saturating_sub(1),
            _ => self.vars.len(),
        }
    }

    /// Refuses more names or rows than are allowed, of those that are complete.
    fn check(&self, bounds: Bounds) -> Result<(), TsvErr>
        ensures ok { OnOk result (spec.passed bounds self.now ≡ None) }
        ensures err { IfErr result (λ e. spec.passed bounds self.now ≡ Some e) }
    {
        check_counts(bounds, self.complete(), self.rows.len())
    }

    /// Takes one more character, which stands at the place `here`. After a refusal the document is spoiled.
    #[tactic(auto, using(crate::proofs::Sound::sound_step))]
    fn advance(&mut self, alloc: Global, bounds: Bounds, c: char, here: usize) -> Result<(), TsvErr>
        requires { IsSound self.old }
        ensures ok { OnOk result ((spec.step self.old c ≡ Some self.new) × (spec.passed bounds self.new ≡ None)) }
        ensures sound { OnOk result (IsSound self.new) }
        ensures err { IfErr result (CannotAdvance bounds self.old c here (spec.step self.old c)) }
    {
        let fault = self.fault(is_border(c), here);
        if !self.step(alloc, c)? {
            return Err(fault);
        }
        self.check(bounds)
    }

    /// Goes on at this place, and takes what goes on with a field there within its token.
    fn put_run(&mut self, at: Place, rest: &mut Cursor<'_>) -> Result<(), Memory>
        ensures { OnOk result (DocRuns (spec.placed self.old at) rest.old self.new rest.new) }
    {
        let at = at.take_run(rest)?;
        self.put(at);
        Ok(())
    }

    /// Takes what goes on with the present field within its token at once.
    fn take_run(&mut self, rest: &mut Cursor<'_>) -> Result<(), TsvErr>
        ensures ok { OnOk result (DocRuns self.old rest.old self.new rest.new) }
        ensures err { IfErr result (λ e. e ≡ faults.Memory) }
    {
        let at = mem::replace(&mut self.at, Place::Begin);
        self.put_run(at, rest)?;
        Ok(())
    }

    /// Takes more characters, which end at so many bytes. After a refusal the document is spoiled.
    pub fn walk(
        &mut self,
        alloc: Global,
        bounds: Bounds,
        mut rest: Cursor<'_>,
        total: usize,
    ) -> Result<(), TsvErr>
        requires within { length (encode_utf8_all rest) ≤ total }
        requires sound { IsSound self.old }
        ensures ok { OnOk result (walk bounds self.old rest.entry ≡ Went self.new) }
        ensures sound { OnOk result (IsSound self.new) }
        ensures err { IfErr result (λ e. CannotWalk total e (walk bounds self.old rest.entry)) }
    {
        loop {
            let here = total - rest.len();
            let Some(c) = rest.next() else {
                return Ok(());
            };
            self.advance(alloc, bounds, c, here)?;
            self.take_run(&mut rest)?;
        }
    }

    /// How many bytes of the present name or field are kept, and of the names before it.
    fn place_kept(&self) -> usize
        requires { place_kept self.now.vars self.now.at < 2 ^ 64 }
        ensures { result ≡ place_kept self.now.vars self.now.at }
    {
        match &self.at {
            Place::Start | Place::Mark | Place::HeaderReturn => names_kept(self.vars.as_slice()),
            Place::Name(at) => names_kept(self.vars.as_slice()) + at.kept(),
            Place::Begin | Place::Return => 0,
            Place::Field(at) => at.kept(),
        }
    }

    /// How many bytes of the present line are kept.
    pub fn kept(&self) -> usize
        requires { doc_kept self.now < 2 ^ 64 }
        ensures { result ≡ doc_kept self.now }
    {
        row_kept(self.pairs.as_slice()) + self.place_kept()
    }

    /// Ends the document. False where none ends there; then the document is spoiled.
    fn end(&mut self, alloc: Global) -> Result<bool, Memory>
        requires { IsSound self.old }
        ensures { IfOk result (λ ended. Ends ended (table_of self.new) (spec.final self.old)) }
    {
        match mem::replace(&mut self.at, Place::Begin) {
            Place::Name(at) => self.end_name(at, Place::Begin),
            Place::Begin => Ok(true),
            Place::Field(at) => self.end_field(alloc, at, '\n'),
            Place::Start | Place::Mark | Place::HeaderReturn | Place::Return => Ok(false),
        }
    }

    /// The table of the variables and the rows that are complete, which are no more than the bounds.
    fn into_table(self, bounds: Bounds) -> Result<Table, TsvErr>
        requires { IsTable (table_of self) }
        ensures ok { IfOk result (λ t. (t ≡ table_of self) × (spec.exceeded bounds (length self.vars) (length self.rows) ≡ None)) }
        ensures err { IfErr result (λ e. spec.exceeded bounds (length self.vars) (length self.rows) ≡ Some e) }
    {
        check_counts(bounds, self.vars.len(), self.rows.len())?;
        Ok(Table::of_rows(self.vars, self.rows))
    }

    /// The table, where the document is ended, and else the fault.
    fn give(self, bounds: Bounds, ended: bool, fault: TsvErr) -> Result<Table, TsvErr>
        requires { ended ≡ true → IsTable (table_of self) }
        ensures ok { IfOk result (λ t. (ended ≡ true) × (t ≡ table_of self) × (spec.exceeded bounds (length self.vars) (length self.rows) ≡ None)) }
        ensures err { IfErr result (IsNotGiven bounds ended (table_of self) fault) }
    {
        if ended {
            self.into_table(bounds)
        } else {
            Err(fault)
        }
    }

    /// The table of the document that ends at this place.
    pub fn finish(mut self, alloc: Global, bounds: Bounds, place: usize) -> Result<Table, TsvErr>
        requires { IsSound self }
        ensures ok { IfOk result (λ t. (spec.final self ≡ Some t) × (spec.exceeded bounds (length t.vars) (length t.rows) ≡ None)) }
        ensures err { IfErr result (CannotFinish bounds self place (spec.final self)) }
    {
        let fault = self.fault(true, place);
        let ended = self.end(alloc)?;
        self.give(bounds, ended, fault)
    }
}
