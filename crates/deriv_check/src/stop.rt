ghost use Rattle.std.specs.Prelude.{◌≡◌};
ghost use Rattle.deriv_check.specs.declared.stop.Stop.TheVariants as stops;

use osgi_version::NoMemory;

/// Why lines aren't read.
#[derive(Clone, Copy, Debug)]
pub(crate) enum Stop {
    /// The place, from 0, of the first line that none of the form begins with.
    At(usize),
    NoMemory,
}

impl Stop {
    ghost use Rattle.std.specs.Prelude.{◌-◌, ◌^◌};
    ghost use Rattle.deriv_check.specs.Reading.{StopsWithin, stop_behind};

    /// The same, where so many lines stand before them.
    pub(crate) fn behind(self, lines: usize) -> Stop
        requires { StopsWithin (2 ^ 64 - 1 - lines) self }
        ensures { result ≡ stop_behind lines self }
    {
        match self {
            Stop::At(at) => Stop::At(lines + at),
            Stop::NoMemory => Stop::NoMemory,
        }
    }
}

impl From<NoMemory> for Stop {
    ghost from_gives = { λ _ stop. stop ≡ stops.NoMemory };

    fn from(_error: NoMemory) -> Stop {
        Stop::NoMemory
    }
}
