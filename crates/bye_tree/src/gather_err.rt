ghost use Rattle.std.specs.Prelude.{◌≡◌};
ghost use Rattle.bye_tree.specs.Refusals.{gather_err_of};

use crate::shape::{Shape, ShapeErr};
use bye_terms::Memory;

/// Why a written query is read as no select: a group that breaks a rule, by what stands before it in its parent; a variable that is
/// not selected although DISTINCT is missing; or want of memory.
#[derive(Debug, Drop)]
pub enum GatherErr {
    Broken(Shape),
    Projected,
    Memory,
}

impl From<Memory> for GatherErr {
    ghost use Rattle.std.specs.Prelude.{◌≡◌};
    ghost use Rattle.bye_tree.specs.declared.gather_err.GatherErr.TheVariants as errors;

    ghost from_gives = { λ _ e. e ≡ errors.Memory };

    fn from(_: Memory) -> Self {
        GatherErr::Memory
    }
}

impl GatherErr {
    /// The refusal of a written query whose groups are refused.
    pub(crate) fn of_shape(error: ShapeErr) -> GatherErr
        ensures { result ≡ gather_err_of error }
    {
        match error {
            ShapeErr::Broken(shape) => GatherErr::Broken(shape),
            ShapeErr::Memory => GatherErr::Memory,
        }
    }
}
