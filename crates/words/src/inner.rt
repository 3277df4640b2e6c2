// Loads and fields by place, for proved callers.
ghost use Rattle.std.specs.Prelude.{◌≡◌, ◌+◌, ◌-◌, ◌*◌, ◌/◌, ◌≤◌, length, get_or};
ghost use Rattle.bits.specs.Refusals.{longest};
ghost use Rattle.bits.specs.Field.{field};
ghost use Rattle.bits.specs.Word.{first, skipped};
ghost use Rattle.words.specs.Eight.{swapped};

use bits::Order;

// The byte at k, or 0 past the end.
fn byte_at(src: &[u8], k: usize) -> u8
    ensures { result ≡ get_or src.now k 0 }
{
    src.get(k).copied().unwrap_or(0)
}

// The eight bytes of x in the other order.
pub fn swap8(x: u64) -> u64
    ensures { result ≡ swapped x }
{
    x.swap_bytes()
}

// The 64 bits from byte `at` on, the first byte least significant: the eight reads compile to one load.
fn load_little(src: &[u8], at: usize) -> u64
    requires { at + 8 ≤ length src.now }
    ensures { result ≡ field Order.Little src.now (8 * at) 64 }
{
    u64::from_le_bytes([
        src[at],
        src[at + 1],
        src[at + 2],
        src[at + 3],
        src[at + 4],
        src[at + 5],
        src[at + 6],
        src[at + 7],
    ])
}

// The 64 bits from byte `at` on, where eight bytes are there: one load, and a byte swap if the order is big.
pub fn load_whole(order: Order, src: &[u8], at: usize) -> u64
    requires { at + 8 ≤ length src.now }
    ensures { result ≡ field order src.now (8 * at) 64 }
{
    match order {
        Order::Little => load_little(src, at),
        Order::Big => swap8(load_little(src, at)),
    }
}

// n bytes from byte `at` on, one by one; past the end zeros stand. (It calls itself, so that the compiler leaves it out of line.)
fn load_bytes(order: Order, src: &[u8], at: usize, n: u32) -> u64
    requires { (n ≤ 8) × (at + n ≤ longest + 8) }
    ensures { result ≡ field order src.now (8 * at) (8 * n) }
{
    if n == 0 {
        return 0;
    }
    let b = byte_at(src, at);
    let rest = load_bytes(order, src, at + 1, n - 1);
    bits::inner::join_bits(order, 8, 8 * (n - 1), b as u64, rest)
}

// The 64 bits from byte `at` on, byte by byte. (The slice is lent again, so that the compiler keeps the caller's in registers.)
fn load_end(order: Order, src: &[u8], at: usize) -> u64
    requires { at ≤ longest }
    ensures { result ≡ field order src.now (8 * at) 64 }
{
    load_bytes(order, &src[..src.len()], at, 8)
}

// The 64 bits from byte `at` on; past the end zeros stand.
pub fn load(order: Order, src: &[u8], at: usize) -> u64
    requires { (at ≤ length src.now) × (length src.now ≤ longest) }
    ensures { result ≡ field order src.now (8 * at) 64 }
{
    match order {
        Order::Little => {
            if src.len() < at + 8 {
                return load_end(Order::Little, src, at);
            }
            load_whole(Order::Little, src, at)
        }
        Order::Big => {
            if src.len() < at + 8 {
                return load_end(Order::Big, src, at);
            }
            load_whole(Order::Big, src, at)
        }
    }
}

// Out of 64 bits the w that come after the first `used`.
fn part(order: Order, word: u64, used: u32, w: u32) -> u64
    requires { (used ≤ 63) × (w ≤ 63) }
    ensures { result ≡ first order w (64 - w) (skipped order used word) }
{
    bits::inner::first_bits(order, bits::inner::skip_bits(order, word, used), w)
}

// The field of at most 57 bits at a place from whose byte on eight are there.
pub fn whole_field(order: Order, src: &[u8], place: usize, width: u32) -> u64
    requires { (width ≤ 57) × (place / 8 + 8 ≤ length src.now) }
    ensures { result ≡ field order src.now place width }
{
    part(
        order,
        load_whole(order, src, place / 8),
        (place % 8) as u32,
        width,
    )
}

// The field of at most 57 bits at a place.
pub fn short_field(order: Order, src: &[u8], place: usize, width: u32) -> u64
    requires { (width ≤ 57) × (place ≤ 8 * length src.now) × (length src.now ≤ longest) }
    ensures { result ≡ field order src.now place width }
{
    part(
        order,
        load(order, src, place / 8),
        (place % 8) as u32,
        width,
    )
}

// The field of at most 64 bits at a place; a wide one is two short ones, joined.
pub fn field_at(order: Order, src: &[u8], place: usize, width: u32) -> u64
    requires { (width ≤ 64) × (place + width ≤ 8 * length src.now) × (length src.now ≤ longest) }
    ensures { result ≡ field order src.now place width }
{
    if width <= 56 {
        return short_field(order, src, place, width);
    }
    let more = width - 56;
    let low = short_field(order, src, place, 56);
    let high = short_field(order, src, place + 56, more);
    bits::inner::join_bits(order, 56, more, low, high)
}
