ghost use Rattle.std.specs.Prelude.{◌≡◌, ◌↔◌, IsTrue};
ghost use Rattle.bye_member.specs.Searches as spec;

use crate::outer::outer_hold;
use crate::task::Task;
use bye_node::{Env, Pin};

/// Whether a variable has the number that is wanted, or none where none is wanted.
fn is_kept(pin: Pin, number: Option<u32>) -> bool
    ensures { IsTrue result ↔ spec.Keeps pin number }
{
    match pin {
        Pin::Free => true,
        Pin::Must(wanted) => number == Some(wanted),
        Pin::Never => number.is_none(),
    }
}

/// Whether each variable has the number that is wanted of it.
fn is_pinned(pins: &[Pin], env: &Env) -> bool
    ensures { IsTrue result ↔ spec.IsPinned pins.now env.now }
{
    for (i, pin) in pins.iter().enumerate() {
        if !is_kept(*pin, env.cell(i)) {
            return false;
        }
    }
    true
}

/// Whether the mapping is what is wanted, and the further expressions hold on it.
pub fn is_wanted(task: &Task<'_, '_>, env: &Env) -> bool
    ensures { IsTrue result ↔ spec.IsWanted task.now env.now }
{
    is_pinned(task.pins(), env) && task.outer_hold(env)
}
