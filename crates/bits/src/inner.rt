// Operations on 64 bits for proved callers. Beside them only loads and stores, and the joining of two neighbour bytes, look at the
// order.
ghost use Rattle.std.specs.Prelude.{◌≡◌, ◌+◌, ◌-◌, ◌^◌, ◌<◌, ◌≤◌};
ghost use Rattle.bits.specs.Field.{join};
ghost use Rattle.bits.specs.Word.{first, rest, held, skipped};

use crate::Order;

// The first n of 64 bits, as a number.
pub fn first_bits(order: Order, v: u64, n: u32) -> u64
    requires { n ≤ 63 }
    ensures { result ≡ first order n (64 - n) v }
{
    match order {
        Order::Little => v & ((1 << n) - 1),
        Order::Big => (v >> 1) >> (63 - n),
    }
}

// 64 bits without the first n: the others move up, and zeros come in at the end.
pub fn skip_bits(order: Order, v: u64, n: u32) -> u64
    requires { n ≤ 63 }
    ensures { result ≡ skipped order n v }
{
    match order {
        Order::Little => v >> n,
        Order::Big => v << n,
    }
}

// n bits as a word holds them: at its low end (Little) or its high end (Big), its other bits zero.
pub fn hold_bits(order: Order, v: u64, n: u32) -> u64
    requires { (n ≤ 63) × (v < 2 ^ n) }
    ensures { result ≡ held order n v }
{
    match order {
        Order::Little => v,
        Order::Big => (v << (63 - n)) << 1,
    }
}

// a bits x and the b bits y after them, as one number.
pub fn join_bits(order: Order, a: u32, b: u32, x: u64, y: u64) -> u64
    requires { (a ≤ 63) × (b ≤ 63) × (a + b ≤ 64) × (x < 2 ^ a) × (y < 2 ^ b) }
    ensures { result ≡ join order a b x y }
{
    match order {
        Order::Little => (y << a) + x,
        Order::Big => (x << b) + y,
    }
}

// The last b of a + b bits.
pub fn last_part(order: Order, v: u64, a: u32, b: u32) -> u64
    requires { (a ≤ 63) × (b ≤ 63) }
    ensures { result ≡ rest order a b v }
{
    match order {
        Order::Little => v >> a,
        Order::Big => v & ((1 << b) - 1),
    }
}
