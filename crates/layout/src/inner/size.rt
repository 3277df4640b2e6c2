// The size of a plan's layout.
ghost use Rattle.std.specs.Prelude.{◌≡◌, true, length};
ghost use Rattle.layout.specs.Layout.{bits_of};
ghost use Rattle.layout.specs.Plan.{decode};
ghost use Rattle.layout.specs.Check.{is_plan};
ghost use Rattle.layout.specs.Steps.{one};

use crate::inner::steps;

// How many fields there are, and how many bits they take.
#[derive(Clone, Copy, Debug, PartialEq, Eq)]
pub struct Size {
    pub fields: usize,
    pub bits: usize,
}

// 1 for a step that is the last of a field, else 0.
fn ended(b: u8) -> u16
    ensures { result ≡ one b }
{
    steps::ends(b) as u16
}

// How many fields a plan has, and how many bits they take. (Sums of 16 bits, which the compiler forms eight at a time.)
pub fn measure(plan: &[u8]) -> Size
    requires { is_plan plan.now ≡ true }
    ensures { result ≡ record { fields = length (decode 0 plan.now); bits = bits_of (decode 0 plan.now) } }
{
    let mut fields: u16 = 0;
    let mut bits: u16 = 0;
    for &b in plan {
        fields += ended(b);
        bits += (b % 64) as u16;
    }
    Size {
        fields: fields as usize,
        bits: bits as usize,
    }
}
