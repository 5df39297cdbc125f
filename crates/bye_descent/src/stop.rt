ghost use Rattle.std.specs.Prelude.{◌≡◌, Err};

use bye_terms::Memory;

/// Why the reading of tokens stopped.
#[derive(Debug, Drop)]
pub enum Stop {
    /// The next token fits nowhere here, or there is none.
    Wrong,
    /// The next token is a bracket that is too deep.
    Deep,
    Memory,
}

impl From<Memory> for Stop {
    ghost use Rattle.bye_descent.specs.declared.stop.Stop.TheVariants as stops;
    ghost use Rattle.std.specs.Prelude.{◌≡◌};

    ghost from_gives = { λ _ e. e ≡ stops.Memory };

    fn from(_: Memory) -> Self {
        Stop::Memory
    }
}

/// Lets a value go, since reading stopped.
pub fn give_up<T: Drop, R>(value: T, stop: Stop) -> Result<R, Stop>
    ensures { result ≡ Err stop }
{
    drop(value);
    Err(stop)
}
