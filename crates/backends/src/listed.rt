// What distinct lists.
ghost use Rattle.std.specs.Prelude.{◌≡◌};
ghost use Rattle.rules.specs.Backends.{listed};

// Whether distinct lists a value of this sum.
pub fn is_listed(sum: i64) -> bool
    ensures { result ≡ listed sum }
{
    sum != 0
}
