//! Readers of the variables after SELECT.

ghost use Rattle.std.specs.Prelude.{◌≡◌, ◌++◌, ◌∷◌, [], reverse, not, IfOk, IsTrue};
ghost use Rattle.bye_parts.specs.Readers.{Got, onward, read_run, read_token};
ghost use Rattle.bye_table.specs.Mappings.{is_in};
ghost use Rattle.bye_grammar.specs.Fits as fits;
ghost use Rattle.bye_grammar.specs.Reading as spec;
ghost use Rattle.bye_grammar.specs.TokenKinds as kinds;
ghost use Rattle.bye_grammar.specs.TokenKinds.{of};
ghost use Rattle.bye_descent.specs.Told.{Told, ToldAs};

use crate::left::Left;
use crate::named::Named;
use crate::singles::variable;
use crate::stop::Stop;
use bye_terms::{Memory, Var, push_item};
use bye_tokens::Token;
use indexmap::IndexSet;
use std::alloc::Global;

/// Puts the name of a variable last, where it is none of these, and says whether it did.
fn put(alloc: Global, seen: &mut IndexSet<Named>, one: &Var) -> Result<bool, Memory>
    ensures new { IfOk result (λ new. new ≡ not (is_in seen.old.keys one.now)) }
    ensures keys { IfOk result (λ new. IsTrue new → seen.new.keys ≡ seen.old.keys ++ one.now ∷ []) }
{
    let name = Named::copy_of(alloc, one.name())?;
    let new = seen.insert(name)?;
    Ok(new)
}

/// A variable that is none of these, and is then the last of them.
#[tactic(auto, using(crate::proofs::Looking::in_reverse))]
fn new_variable(alloc: Global, seen: &mut IndexSet<Named>, left: &mut Left<'_>) -> Result<Var, Stop>
    ensures told { Told result left.new (spec.read_one (fits.new_variable (reverse seen.old.keys)) left.old) }
    ensures keys { IfOk result (λ v. seen.new.keys ≡ seen.old.keys ++ v ∷ []) }
{
    let Some(token) = left.peek() else {
        return Err(Stop::Wrong);
    };
    let Token::Variable(v) = token else {
        return Err(Stop::Wrong);
    };
    if !put(alloc, seen, v)? {
        return Err(Stop::Wrong);
    }
    variable(left)
}

/// The variables after the first ones, in which a repeat fits nowhere.
fn more_names(
    alloc: Global,
    first: Vec<Var>,
    names: IndexSet<Named>,
    left: &mut Left<'_>,
) -> Result<Vec<Var>, Stop>
    requires { names.keys ≡ first.items }
    ensures { ToldAs (λ v. v.items) result left.new (onward (read_run (of (kinds.Variable ∷ [])) (λ seen t. fits.new_variable seen t.token) (reverse first.items) left.old) (λ vs rest. Got (first.items ++ vs) rest)) }
{
    let mut all = first;
    let mut seen = names;
    'rounds: while left.begins_with_variable() {
        match new_variable(alloc, &mut seen, left) {
            Ok(v) => push_item(&mut all, v)?,
            Err(stop) => return Err(stop),
        }
    }
    Ok(all)
}

/// The variables after SELECT.
#[tactic(auto, unfolding(bye_grammar::specs::Reading::read_names))]
pub fn names(alloc: Global, left: &mut Left<'_>) -> Result<Vec<Var>, Stop>
    ensures { ToldAs (λ v. v.items) result left.new (spec.read_names left.old) }
{
    let v = variable(left)?;
    let mut seen = IndexSet::new(alloc);
    put(alloc, &mut seen, &v)?;
    let mut first = Vec::new(alloc);
    push_item(&mut first, v)?;
    more_names(alloc, first, seen, left)
}
