ghost use Rattle.bye_tree.specs.Checking.{IsTurned, IsUnder};

use bye_pattern::Rule;
use bye_terms::Memory;

/// Where a group breaks a rule of well-designed trees: the numbers of the children on the path from the root, from 1.
#[derive(Debug, Drop)]
pub struct Shape {
    pub rule: Rule,
    pub path: Vec<u32>,
}

/// Why no tree is made: the first group in preorder that breaks a rule, with its first broken rule, or want of memory.
#[derive(Debug, Drop)]
pub enum ShapeErr {
    Broken(Shape),
    Memory,
}

impl From<Memory> for ShapeErr {
    ghost use Rattle.std.specs.Prelude.{◌≡◌};
    ghost use Rattle.bye_tree.specs.declared.shape.ShapeErr.TheVariants as errors;

    ghost from_gives = { λ _ e. e ≡ errors.Memory };

    fn from(_: Memory) -> Self {
        ShapeErr::Memory
    }
}

impl ShapeErr {
    /// The refusal of the child at this index, said of its parent: its path goes from the group up.
    pub(crate) fn under(self, index: usize) -> ShapeErr
        ensures { IsUnder index self result }
    {
        let ShapeErr::Broken(mut shape) = self else {
            return ShapeErr::Memory;
        };
        let Ok(before) = u32::try_from(index) else {
            return ShapeErr::Memory;
        };
        let Some(number) = before.checked_add(1) else {
            return ShapeErr::Memory;
        };
        if shape.path.push(number).is_err() {
            return ShapeErr::Memory;
        }
        ShapeErr::Broken(shape)
    }

    /// The refusal with its path from the root down.
    pub(crate) fn turned(self) -> ShapeErr
        ensures { IsTurned self result }
    {
        match self {
            ShapeErr::Broken(mut shape) => {
                shape.path.reverse();
                ShapeErr::Broken(shape)
            }
            ShapeErr::Memory => ShapeErr::Memory,
        }
    }
}
