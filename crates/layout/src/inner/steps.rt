// The steps of plans.
ghost use Rattle.std.specs.Prelude.{◌≡◌};
ghost use Rattle.layout.specs.Plan.{count as count_of, ends as ends_of};

// The count of a step.
pub fn count(b: u8) -> u32
    ensures { result ≡ count_of b }
{
    (b % 64) as u32
}

// Whether a step is the last of a field.
pub fn ends(b: u8) -> bool
    ensures { result ≡ ends_of b }
{
    64 <= b && b < 192
}
