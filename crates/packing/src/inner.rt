// Putting bits and bytes behind those that were written, for proved callers.
ghost use Rattle.std.specs.Prelude.{◌≡◌, ◌+◌, ◌-◌, ◌*◌, ◌%◌, ◌^◌, ◌<◌, ◌≤◌, length};
ghost use Rattle.std.proofs.lemmas.List.Edits.{sets};
ghost use Rattle.bits.specs.Refusals.{longest, number_of};
ghost use Rattle.bits.specs.Field.{join};
ghost use Rattle.bits.specs.Word.{rest};
ghost use Rattle.packing.specs.Packing.{bits_written, belongs, Belongs, state_refusal, bytes_of, gathered, full, over, put, put_out, put_bytes, put_bytes_out};

use crate::State;
use bits::{LONGEST, Order, Refusal};

// Whether a writer belongs to an output of len bytes.
fn is_of(len: usize, c: State) -> bool
    requires { len ≤ longest }
    ensures { result ≡ belongs len c }
{
    c.held <= 7
        && c.written <= len
        && c.held as usize <= 8 * (len - c.written)
        && c.number < 1 << c.held
}

// Tests a writer: 1 for an output past the limit, 2 for a writer that does not belong to it.
pub fn check(len: usize, c: State) -> Result<(), Refusal>
    ensures { number_of result ≡ state_refusal len c }
{
    if LONGEST < len {
        return Err(Refusal::TooLong);
    }
    if is_of(len, c) {
        Ok(())
    } else {
        Err(Refusal::Foreign)
    }
}

// The n low bytes of a word, the lowest first, stored from `at` on: one by one, since a copy of so few takes twice as long, and by their
// places, since a walk over that part of the output takes a tenth more instructions.
fn store(out: &mut [u8], at: usize, n: u32, word: u64)
    requires { (n ≤ 8) × (at + n ≤ length out.old) }
    ensures { out.new ≡ sets out.old at (bytes_of Order.Little n (64 - 8 * n) word) }
{
    let mut left = word;
    for k in at..at + n as usize {
        out[k] = (left % 256) as u8;
        left /= 256;
    }
}

// The held bits, then n bits v, as a word: its low bytes, the lowest first, are those that are full now. What is over is cut off.
fn front(order: Order, c: State, n: u32, v: u64) -> u64
    requires { (c.held ≤ 7) × (c.number < 2 ^ c.held) × (1 ≤ n) × (n ≤ 64) × (v < 2 ^ n) }
    ensures { bytes_of Order.Little (full c n) (64 - 8 * full c n) result ≡ bytes_of order (full c n) (over c n) (gathered order c n v) }
{
    match order {
        Order::Little => (v << c.held) + c.number,
        Order::Big => words::inner::swap8(
            ((c.number << (63 - c.held)) << 1) + ((v << (64 - n)) >> c.held),
        ),
    }
}

// The last b of a + b bits, a from 1 to 64.
fn tail(order: Order, v: u64, a: u32, b: u32) -> u64
    requires { (1 ≤ a) × (a ≤ 64) × (b ≤ 63) }
    ensures { result ≡ rest order a b v }
{
    match order {
        Order::Little => (v >> (a - 1)) >> 1,
        Order::Big => v & ((1 << b) - 1),
    }
}

// Up to 64 bits v behind those written: the bytes that are full now are stored.
pub fn put_bits(order: Order, out: &mut [u8], c: State, n: u32, v: u64) -> State
    requires { Belongs (length out.old) c × (n ≤ 64) × (v < 2 ^ n) × (bits_written c + n ≤ 8 * length out.old) }
    ensures answer { result ≡ put order c n v }
    ensures memory { out.new ≡ put_out order out.old c n v }
{
    let bits = c.held + n;
    if bits < 8 {
        return State {
            written: c.written,
            held: bits,
            number: bits::inner::join_bits(order, c.held, n, c.number, v),
        };
    }
    let full = bits / 8;
    let over = bits % 8;
    store(out, c.written, full, front(order, c, n, v));
    State {
        written: c.written + full as usize,
        held: over,
        number: tail(order, v, n - over, over),
    }
}

// The low n bits of a number.
pub fn low_bits(v: u64, n: u32) -> u64
    requires { n ≤ 64 }
    ensures { result ≡ v % 2 ^ n }
{
    if n == 64 {
        return v;
    }
    v & ((1 << n) - 1)
}

// The eight bytes of a word, stored from `at` on: one store, after a byte swap if the order is big. (A copy in
// each arm: where the arms only choose the bytes, the compiler stores them one by one.)
pub fn store_whole(order: Order, out: &mut [u8], at: usize, word: u64)
    requires { at + 8 ≤ length out.old }
    ensures { out.new ≡ sets out.old at (bytes_of order 8 0 word) }
{
    match order {
        Order::Little => out[at..at + 8].copy_from_slice(&word.to_le_bytes()),
        Order::Big => out[at..at + 8].copy_from_slice(&word.to_be_bytes()),
    }
}

// 64 bits v behind those that are held: eight bytes are full and stored, and as many bits as before stay.
fn put_word(order: Order, out: &mut [u8], c: State, v: u64) -> State
    requires { (1 ≤ c.held) × (c.held ≤ 7) × (c.number < 2 ^ c.held) × (c.written + 8 ≤ length out.old) }
    ensures answer { result ≡ put order c 64 v }
    ensures memory { out.new ≡ put_out order out.old c 64 v }
{
    let n = 64 - c.held;
    let first = bits::inner::first_bits(order, v, n);
    let word = bits::inner::join_bits(order, c.held, n, c.number, first);
    store_whole(order, out, c.written, word);
    let last = bits::inner::skip_bits(order, v, n);
    State {
        written: c.written + 8,
        held: c.held,
        number: bits::inner::first_bits(order, last, c.held),
    }
}

// Bytes behind held bits: by words of eight bytes, then one by one.
fn put_shifted(order: Order, out: &mut [u8], c: State, src: &[u8]) -> State
    requires { Belongs (length out.old) c × (1 ≤ c.held) × (bits_written c + 8 * length src.now ≤ 8 * length out.old) }
    ensures answer { result ≡ put_bytes order c src.now }
    ensures memory { out.new ≡ put_bytes_out order out.old c src.now }
{
    let (words, bytes) = src.as_chunks::<8>();
    let mut next = c;
    for word in words {
        let v = words::inner::load_whole(order, word, 0);
        next = put_word(order, out, next, v);
    }
    for b in bytes {
        next = put_bits(order, out, next, 8, u64::from(*b));
    }
    next
}

// Bytes where no bits are held: a copy, byte by byte, so that the C library's is not called.
fn put_copied(out: &mut [u8], at: usize, src: &[u8])
    requires { at + length src.now ≤ length out.old }
    ensures { out.new ≡ sets out.old at src.now }
{
    for (i, byte) in src.iter().enumerate() {
        out[at + i] = *byte;
    }
}

// Bytes behind those written, eight bits each.
pub fn put_bytes(order: Order, out: &mut [u8], c: State, src: &[u8]) -> State
    requires { Belongs (length out.old) c × (bits_written c + 8 * length src.now ≤ 8 * length out.old) }
    ensures answer { result ≡ put_bytes order c src.now }
    ensures memory { out.new ≡ put_bytes_out order out.old c src.now }
{
    if 0 < c.held {
        return put_shifted(order, out, c, src);
    }
    put_copied(out, c.written, src);
    State {
        written: c.written + src.len(),
        held: 0,
        number: 0,
    }
}
