ghost use Rattle.std.specs.Prelude.{◌≡◌, List, ℕ, IfOk, IfSome, IfNone, IsTrue, true, false, ◌↔◌};
ghost use Rattle.std.specs.Cmp.Lexicographic.{slice_cmp};
ghost use Rattle.std.specs.Ordering.{nat_cmp};
ghost use Rattle.std.specs.Str.{encode_utf8_all};
ghost use Rattle.bye_terms.specs.Names.{is_name};

use crate::memory::Memory;
use crate::rules;
use crate::text::Text;
use std::alloc::Global;
use std::cmp::Ordering;
use std::marker::Model;

/// The name of a variable, without its mark (SPARQL 1.1 Query, section 19.8, VARNAME).
#[derive(Debug, Drop)]
pub struct Var {
    text: Text,
}

impl Model for Var {
    ghost Value = { List ℕ };

    ghost view = { λ i. i.text };

    ghost invariant = { λ i. is_name i.text ≡ true };
}

impl Var {
    /// The variable of a name that is one.
    pub fn new(name: Text) -> Var
        requires { is_name name ≡ true }
        ensures { result ≡ name }
    {
        Var { text: name }
    }

    /// None exactly where the text is no name of a variable.
    pub fn from_name(name: Text) -> Option<Var>
        ensures some { IfSome result (λ i. (i ≡ name) × IsTrue (is_name name)) }
        ensures none { IfNone result (is_name name ≡ false) }
    {
        if rules::is_name(name.as_str()) {
            Some(Var { text: name })
        } else {
            None
        }
    }

    /// The name, given up.
    pub fn into_name(self) -> Text
        ensures text { result ≡ self }
        ensures valid { IsTrue (is_name self) }
    {
        self.text
    }

    /// The name, without its mark.
    pub fn name(&self) -> &Text
        ensures text { result.now ≡ self.now }
        ensures valid { IsTrue (is_name self.now) }
    {
        &self.text
    }

    /// Whether the two are equal, character by character.
    pub fn same(&self, other: &Var) -> bool
        ensures { IsTrue result ↔ (self.now ≡ other.now) }
    {
        self.text.same(&other.text)
    }

    /// An equal one.
    pub fn copy(&self, alloc: Global) -> Result<Var, Memory>
        ensures { IfOk result (λ t. t ≡ self.now) }
    {
        let text = self.text.copy(alloc)?;
        Ok(Var { text })
    }

    /// The order of the two names by their bytes.
    pub fn cmp(&self, other: &Var) -> Ordering
        ensures { result ≡ slice_cmp nat_cmp (encode_utf8_all self.now) (encode_utf8_all other.now) }
    {
        self.text.as_str().cmp(other.text.as_str())
    }
}

#[cfg(test)]
mod tests {
    use crate::memory::push_item;
    use crate::text::Text;
    use crate::var::Var;
    use std::alloc::Global;
    use std::test::Fail;

    fn variable(alloc: Global, text: &str) -> Result<Var, Fail> {
        let text = Text::copy_of(alloc, text)?;
        Ok(Var::from_name(text).ok_or("no name")?)
    }

    #[test]
    fn orders_variables_by_their_names(rt: HostRuntime) -> Result<(), Fail> {
        let mut variables = Vec::new(rt.alloc());
        for name in [
            "0",
            "A",
            "_",
            "a",
            "a0",
            "p1",
            "p10",
            "\u{E9}",
            "\u{FFFD}",
            "\u{10000}",
        ] {
            push_item(&mut variables, variable(rt.alloc(), name)?)?;
        }
        for (i, one) in variables.iter().enumerate() {
            for (j, other) in variables.iter().enumerate() {
                assert_eq!(rt; one.cmp(other), i.cmp(&j), "{one:?} and {other:?}");
                assert_eq!(rt; one.same(other), i == j, "{one:?} and {other:?}");
            }
            let copy = one.copy(rt.alloc())?;
            assert_eq!(rt; copy.name().as_str(), one.name().as_str());
        }
        Ok(())
    }
}
