// Bytes by place at memory speed, for proved callers.
ghost use Rattle.std.specs.Prelude.{◌≡◌, ◌+◌, ◌*◌, ◌<◌, ◌≤◌, length, get_or};
ghost use Rattle.octets.specs.Octets.{octets, firsts, by_order, straddled};

use bits::Order;

// One of two numbers, by the order.
fn by_order(order: Order, little: usize, big: usize) -> usize
    ensures { result ≡ by_order order little big }
{
    match order {
        Order::Little => little,
        Order::Big => big,
    }
}

// The low 8 - k bits of the byte x, above the high k of y. LLVM makes a slower loop of `|`.
fn straddle(x: u8, y: u8, k: usize) -> u8
    requires { (1 ≤ k) × (k ≤ 7) }
    ensures { result ≡ straddled x y k }
{
    (x << k) ^ (y >> (8 - k))
}

// Fills out with the bytes from `at` on.
fn copy_from(src: &[u8], at: usize, out: &mut [u8])
    requires { at + length out.old ≤ length src.now }
    ensures { out.new ≡ firsts (λ i. get_or src.now (at + i) 0) (length out.old) }
{
    for (i, byte) in out.iter_mut().enumerate() {
        *byte = src[at + i];
    }
}

// Fills out with straddles of the bytes from `high` on and those from `low` on.
// By an index: of what a loop over `iter_mut().zip(..)` writes a proof knows nothing (tried, and the proof does not close).
fn straddle_from(src: &[u8], high: usize, low: usize, k: usize, out: &mut [u8])
    requires { (1 ≤ k) × (k ≤ 7) × (high + length out.old ≤ length src.now) × (low + length out.old ≤ length src.now) }
    ensures { out.new ≡ firsts (λ i. straddled (get_or src.now (high + i) 0) (get_or src.now (low + i) 0) k) (length out.old) }
{
    for (i, byte) in out.iter_mut().enumerate() {
        *byte = straddle(src[high + i], src[low + i], k);
    }
}

// Fills out with the bytes from bit n of the byte `at` on. Only the places depend on the order, so that one loop serves both.
fn read_n_bytes(order: Order, src: &[u8], at: usize, n: usize, out: &mut [u8])
    requires { (1 ≤ n) × (n ≤ 7) × (at + length out.old < length src.now) }
    ensures { out.new ≡ octets order src.now (8 * at + n) (length out.old) }
{
    let high = by_order(order, at + 1, at);
    let low = by_order(order, at, at + 1);
    straddle_from(src, high, low, by_order(order, 8 - n, n), out);
}

// Fills out with fields of eight bits from a place on.
pub fn bytes_at(order: Order, src: &[u8], place: usize, out: &mut [u8])
    requires { place + 8 * length out.old ≤ 8 * length src.now }
    ensures { out.new ≡ octets order src.now place (length out.old) }
{
    let at = place / 8;
    let n = place % 8;
    if n == 0 {
        copy_from(src, at, out);
    } else {
        read_n_bytes(order, src, at, n, out);
    }
}
