ghost use Rattle.std.specs.Prelude.{◌≡◌, ◌↔◌, IsTrue};
ghost use Rattle.bye_node.specs.Pins as spec;

use crate::env::{Env, Place, Shape};

/// What the number of a variable's term may be: any, this one alone, or none. A variable past the end of a slice of pins is free.
#[derive(Clone, Copy, Debug, Drop)]
pub enum Pin {
    Free,
    Must(u32),
    Never,
}

/// The pin of a variable.
fn pin_at(pins: &[Pin], i: usize) -> Pin
    ensures { result ≡ spec.pin_at pins.now i }
{
    match pins.get(i) {
        Some(pin) => *pin,
        None => Pin::Free,
    }
}

/// The number that stands in the place, and else the one that has to.
pub fn given(env: &Env, pins: &[Pin], place: Place) -> Option<u32>
    ensures { result ≡ spec.given env.now pins.now place }
{
    match place {
        Place::Fixed(n) => Some(n),
        Place::Hole(i) => match (env.cell(i), pin_at(pins, i)) {
            (Some(n), _) => Some(n),
            (None, Pin::Must(n)) => Some(n),
            (None, _) => None,
        },
    }
}

/// Whether the number may be put in the place.
fn allows_at(pins: &[Pin], place: Place, n: u32) -> bool
    ensures { IsTrue result ↔ spec.AllowsAt pins.now place n }
{
    match place {
        Place::Fixed(_) => true,
        Place::Hole(i) => match pin_at(pins, i) {
            Pin::Free => true,
            Pin::Must(m) => n == m,
            Pin::Never => false,
        },
    }
}

/// Whether the triple may be put in the places of the shape.
pub fn allows(pins: &[Pin], shape: Shape, key: (u32, u32, u32)) -> bool
    ensures { IsTrue result ↔ spec.AllowsKey pins.now shape key }
{
    allows_at(pins, shape.s, key.0)
        && allows_at(pins, shape.p, key.1)
        && allows_at(pins, shape.o, key.2)
}

/// Whether the place is an open hole in which no number may be put.
fn is_shut_at(pins: &[Pin], env: &Env, place: Place) -> bool
    ensures { IsTrue result ↔ spec.IsShutAt pins.now env.now place }
{
    match place {
        Place::Fixed(_) => false,
        Place::Hole(i) => env.cell(i).is_none() && matches!(pin_at(pins, i), Pin::Never),
    }
}

/// Whether no triple may be put in the places of the shape, since no number may be put in one of them.
pub fn is_shut(pins: &[Pin], env: &Env, shape: Shape) -> bool
    ensures { IsTrue result ↔ spec.IsShut pins.now env.now shape }
{
    is_shut_at(pins, env, shape.s)
        || is_shut_at(pins, env, shape.p)
        || is_shut_at(pins, env, shape.o)
}
