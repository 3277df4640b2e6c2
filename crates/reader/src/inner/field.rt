// What can be read as a field of a width of its own: bits by their number, and what they mean.
ghost use Rattle.std.specs.Prelude.{ℕ, ◌≡◌, ◌^◌, ◌<◌, eqb};
ghost use Rattle.bits.specs.Signed.{signed};
ghost use Rattle.floats.specs.Floats.{single_of, double_of};

use floats::{Double, Single};

// A value that is read as a field of its width.
pub trait Field {
    ghost WIDTH: { ℕ };

    // The value of a field's bits.
    ghost value: { ℕ → Self };

    const WIDTH: u32;

    fn of_bits(bits: u64) -> Self
        requires { bits < 2 ^ WIDTH }
        ensures { result ≡ value bits };
}

impl Field for bool {
    ghost WIDTH = { 1 };

    ghost value = { λ v. eqb v 1 };

    const WIDTH: u32 = 1;

    fn of_bits(bits: u64) -> bool {
        bits == 1
    }
}

impl Field for u8 {
    ghost WIDTH = { 8 };

    ghost value = { λ v. v };

    const WIDTH: u32 = 8;

    fn of_bits(bits: u64) -> u8 {
        bits as u8
    }
}

impl Field for i8 {
    ghost WIDTH = { 8 };

    ghost value = { signed 8 };

    const WIDTH: u32 = 8;

    fn of_bits(bits: u64) -> i8 {
        sign::inner::extend(bits, 8) as i8
    }
}

impl Field for u16 {
    ghost WIDTH = { 16 };

    ghost value = { λ v. v };

    const WIDTH: u32 = 16;

    fn of_bits(bits: u64) -> u16 {
        bits as u16
    }
}

impl Field for i16 {
    ghost WIDTH = { 16 };

    ghost value = { signed 16 };

    const WIDTH: u32 = 16;

    fn of_bits(bits: u64) -> i16 {
        sign::inner::extend(bits, 16) as i16
    }
}

impl Field for u32 {
    ghost WIDTH = { 32 };

    ghost value = { λ v. v };

    const WIDTH: u32 = 32;

    fn of_bits(bits: u64) -> u32 {
        bits as u32
    }
}

impl Field for i32 {
    ghost WIDTH = { 32 };

    ghost value = { signed 32 };

    const WIDTH: u32 = 32;

    fn of_bits(bits: u64) -> i32 {
        sign::inner::extend(bits, 32) as i32
    }
}

impl Field for Single {
    ghost WIDTH = { 32 };

    ghost value = { single_of };

    const WIDTH: u32 = 32;

    fn of_bits(bits: u64) -> Single {
        floats::single_of_bits(bits as u32)
    }
}

impl Field for Double {
    ghost WIDTH = { 64 };

    ghost value = { double_of };

    const WIDTH: u32 = 64;

    fn of_bits(bits: u64) -> Double {
        floats::double_of_bits(bits)
    }
}
