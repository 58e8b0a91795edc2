// Which of the two reductions a call asks for.
ghost use Rattle.std.specs.Prelude.{◌≡◌, eqb};
ghost use Rattle.backends.specs.Modes.{mode_number};
ghost use Rattle.backends.specs.declared.mode.Mode.TheVariants.{Count, Distinct};

// Count: one record of the total of all diffs. Distinct: each value once. No call of another number works, and its corrections are those of distinct.
#[derive(Clone, Copy, PartialEq, Eq)]
pub enum Mode {
    Count,
    Distinct,
    Other(u64),
}

impl Mode {
    // Whether it counts.
    pub fn counts(self) -> bool
        ensures { result ≡ eqb (mode_number self) 1 }
    {
        match self {
            Mode::Count => true,
            Mode::Distinct => false,
            Mode::Other(number) => number == 1,
        }
    }
}

// The mode that a request's number names: 1 is Count, 2 is Distinct.
pub fn mode_of(number: u64) -> Mode
    ensures number_is { mode_number result ≡ number }
    ensures named { (number ≡ 1 → result ≡ Count) × (number ≡ 2 → result ≡ Distinct) }
{
    match number {
        1 => Mode::Count,
        2 => Mode::Distinct,
        _ => Mode::Other(number),
    }
}

#[cfg(test)]
mod tests {
    use super::*;

    #[test]
    fn numbers_name_modes(rt: HostRuntime) {
        assert!(rt; mode_of(1) == Mode::Count);
        assert!(rt; mode_of(2) == Mode::Distinct);
        assert!(rt; mode_of(0) == Mode::Other(0));
        assert!(rt; mode_of(3) == Mode::Other(3));
    }
}
