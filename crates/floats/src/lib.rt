// Floats that keep every bit pattern. The language's own f32 and f64 have one NaN with no payload, so a single or a double is
// a number, or bits. A value means its bits: two values are the same float exactly if their bits are.
#![tactic(auto)]

ghost use Rattle.std.specs.Prelude.{◌≡◌, nat_eq};
ghost use Rattle.std.specs.Ordering.{on};
ghost use Rattle.std.specs.Cmp.Rules.{comparing};
ghost use Rattle.std.proofs.Common.{rules};
ghost use Rattle.floats.specs.Floats.{single_of, single_bits, same_single, double_of, double_bits, same_double};
ghost use Rattle.floats.specs.Widening.{widened};

// Single and Double stay two types: the language has no trait over f32 and f64. One of this crate's own would have to say the contracts
// of their `from_bits`, `to_bits` and `is_nan` again and be filled in twice, which is more than the two short bodies that it saves.

// A number of 32 bits, or the 32 bits of a NaN. `Bits` that are no NaN's are the number with these bits; no read gives them.
#[derive(Clone, Copy, Debug)]
pub enum Single {
    Number(f32),
    Bits(u32),
}

// By the bits: 0 and -0 differ, and a number equals its own bits.
impl PartialEq for Single {
    ghost eq = { on single_bits nat_eq };

    ghost laws = { Prim.search (comparing, rules) };

    fn eq(&self, other: &Single) -> bool {
        bits_of_single(*self) == bits_of_single(*other)
    }
}

impl Eq for Single {
    ghost laws = { Prim.search (comparing, rules) };
}

// A number of 64 bits, or the 64 bits of a NaN. `Bits` that are no NaN's are the number with these bits; no read gives them.
#[derive(Clone, Copy, Debug)]
pub enum Double {
    Number(f64),
    Bits(u64),
}

// By the bits: 0 and -0 differ, and a number equals its own bits.
impl PartialEq for Double {
    ghost eq = { on double_bits nat_eq };

    ghost laws = { Prim.search (comparing, rules) };

    fn eq(&self, other: &Double) -> bool {
        bits_of_double(*self) == bits_of_double(*other)
    }
}

impl Eq for Double {
    ghost laws = { Prim.search (comparing, rules) };
}

// The single of 32 bits: their number, or the bits themselves where they are a NaN's.
//     let nan = floats::single_of_bits(0x7fa0_0001);
//     let bits = floats::bits_of_single(nan);
//     expect(b"bits_of_single", bits == 0x7fa0_0001);
pub fn single_of_bits(bits: u32) -> Single
    ensures { result ≡ single_of bits }
{
    if 0x7f80_0000 < bits % 0x8000_0000 {
        Single::Bits(bits)
    } else {
        Single::Number(f32::from_bits(bits))
    }
}

// The 32 bits of a single. A NaN that was computed has no payload, and gives 0x7FC00000.
//     let nan = floats::single_of_bits(0x7fa0_0001);
//     let bits = floats::bits_of_single(nan);
//     expect(b"bits_of_single", bits == 0x7fa0_0001);
pub fn bits_of_single(value: Single) -> u32
    ensures { result ≡ single_bits value }
{
    match value {
        Single::Number(x) if x.is_nan() => 0x7fc0_0000,
        Single::Number(x) => x.to_bits(),
        Single::Bits(bits) => bits,
    }
}

// Whether two singles have the same bits: 0 and -0 have not, a number and its own bits have.
//     let zero = floats::single_of_bits(0);
//     let minus = floats::single_of_bits(0x8000_0000);
//     expect(b"same_single", !floats::same_single(zero, minus));
pub fn same_single(a: Single, b: Single) -> bool
    ensures { result ≡ same_single a b }
{
    a == b
}

// The double of 64 bits: their number, or the bits themselves where they are a NaN's.
//     let nan = floats::double_of_bits(0x7ff4_0000_0000_0001);
//     let bits = floats::bits_of_double(nan);
//     expect(b"bits_of_double", bits == 0x7ff4_0000_0000_0001);
pub fn double_of_bits(bits: u64) -> Double
    ensures { result ≡ double_of bits }
{
    if 0x7ff0_0000_0000_0000 < bits % 0x8000_0000_0000_0000 {
        Double::Bits(bits)
    } else {
        Double::Number(f64::from_bits(bits))
    }
}

// The 64 bits of a double. A NaN that was computed has no payload, and gives 0x7FF8000000000000.
//     let nan = floats::double_of_bits(0x7ff4_0000_0000_0001);
//     let bits = floats::bits_of_double(nan);
//     expect(b"bits_of_double", bits == 0x7ff4_0000_0000_0001);
pub fn bits_of_double(value: Double) -> u64
    ensures { result ≡ double_bits value }
{
    match value {
        Double::Number(x) if x.is_nan() => 0x7ff8_0000_0000_0000,
        Double::Number(x) => x.to_bits(),
        Double::Bits(bits) => bits,
    }
}

// Whether two doubles have the same bits: 0 and -0 have not, a number and its own bits have.
//     let zero = floats::double_of_bits(0);
//     let minus = floats::double_of_bits(0x8000_0000_0000_0000);
//     expect(b"same_double", !floats::same_double(zero, minus));
pub fn same_double(a: Double, b: Double) -> bool
    ensures { result ≡ same_double a b }
{
    a == b
}

// A single as the double that means the same: the same number, a zero or an infinity with its sign, and for every NaN, whatever its
// payload, the one with the bits 0x7FF8000000000000.
//     let least = floats::single_of_bits(1);
//     let same = floats::double_of_single(least);
//     let bits = floats::bits_of_double(same);
//     expect(b"double_of_single", bits == 0x36a0_0000_0000_0000);
pub fn double_of_single(value: Single) -> Double
    ensures { result ≡ widened value }
{
    Double::from(value)
}

// The double that means the same, as `double_of_single` says.
impl From<Single> for Double {
    ghost from_gives = { λ value made. made ≡ widened value };

    fn from(value: Single) -> Double {
        let pattern = bits_of_single(value);
        if 0x7f80_0000 < pattern % 0x8000_0000 {
            return Double::Bits(0x7ff8_0000_0000_0000);
        }
        let number = f32::from_bits(pattern);
        let wide = number as f64;
        Double::Number(wide)
    }
}
