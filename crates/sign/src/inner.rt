// Sign extension and two's complement of numbers that are known to fit.
ghost use Rattle.std.specs.Prelude.{◌≡◌, ◌^◌, ◌<◌, ◌≤◌, nat_lt};
ghost use Rattle.bits.specs.Signed.{signed, pattern};

// Whether val is below 2^bits.
pub fn fits(val: u64, bits: u32) -> bool
    requires { bits ≤ 64 }
    ensures { result ≡ nat_lt val (2 ^ bits) }
{
    bits == 64 || val < 1 << bits
}

// The signed number that `bits` bits stand for: 2^bits is subtracted if the top bit is set, which is worth 2^(bits - 1). Width 0 is 0.
pub fn extend(val: u64, bits: u32) -> i64
    requires { (bits ≤ 64) × (val < 2 ^ bits) }
    ensures { result ≡ signed bits val }
{
    match bits {
        0 => 0,
        // the wrap: 2^64 is 0 modulo 2^64, so val - 2^64 has val's own bits, and read as signed these are exactly that number
        64 => signed_of_bits(val),
        _ => {
            // twice the top bit's worth is 2^bits where it is set, and nothing where it is not
            let top = val & (1 << (bits - 1));
            signed_of_bits(val.wrapping_sub(2 * top))
        }
    }
}

// The same number's 64 bits in two's complement, as plans and strips get them fastest: the field is moved to the top of a word, extended
// as 64 bits are, and moved back with its sign.
pub fn widened(val: u64, bits: u32) -> u64
    requires { (bits ≤ 64) × (val < 2 ^ bits) }
    ensures { result ≡ pattern 64 (signed bits val) }
{
    if bits == 0 {
        return 0;
    }
    let above = 64 - bits;
    bits_of_signed(extend(val << above, 64) >> above)
}

// The signed number that 64 bits stand for in two's complement.
pub fn signed_of_bits(x: u64) -> i64
    ensures { result ≡ signed 64 x }
{
    x.cast_signed()
}

// The 64 bits of a signed number in two's complement.
pub fn bits_of_signed(z: i64) -> u64
    ensures { result ≡ pattern 64 z }
{
    z.cast_unsigned()
}
