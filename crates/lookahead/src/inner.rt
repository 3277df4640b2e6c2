// Refilling, peeking, consuming and reading from a state that belongs to its slice.
ghost use Rattle.std.specs.Prelude.{◌≡◌, true, ◌+◌, ◌-◌, ◌*◌, ◌/◌, ◌≤◌, length, ltb};
ghost use Rattle.bits.specs.Refusals.{longest, number_of};
ghost use Rattle.bits.specs.Field.{field};
ghost use Rattle.counts.specs.Counts.{place, Within, bits_left, refill_if, after_refill, after_take};
ghost use Rattle.lookahead.specs.State.{register_of, counts_of, state_of, belongs, Belongs, state_refusal, taken_of, inside as inside_of};

use crate::{State, Taken};
use bits::{LONGEST, Order, Refusal};
use counts::Counts;

// The n bits before a byte, byte by byte. (It calls itself, so that the compiler leaves it out of line.)
fn bits_before(order: Order, src: &[u8], offset: usize, n: u32) -> u64
    requires { (offset ≤ length src.now) × (n ≤ 63) × (n ≤ 8 * offset) }
    ensures { result ≡ field order src.now (8 * offset - n) n }
{
    if n == 0 {
        return 0;
    }
    let b = src[offset - 1];
    if n < 8 {
        return bits::inner::last_part(order, b as u64, 8 - n, n);
    }
    let before = bits_before(order, src, offset - 1, n - 8);
    bits::inner::join_bits(order, n - 8, 8, before, b as u64)
}

// The register that goes with counts, byte by byte. (The slice is lent again, so that the compiler keeps the caller's in registers.)
fn register_end(order: Order, src: &[u8], k: Counts) -> u64
    requires { Within (length src.now) k }
    ensures { result ≡ register_of order src.now k }
{
    let value = bits_before(order, &src[..src.len()], k.offset, k.lookahead);
    bits::inner::hold_bits(order, value, k.lookahead)
}

// The register that goes with counts whose offset is at least eight: the last bits of the eight bytes before it.
pub fn register_behind(order: Order, src: &[u8], k: Counts) -> u64
    requires { Within (length src.now) k × (8 ≤ k.offset) }
    ensures { result ≡ register_of order src.now k }
{
    let word = words::inner::load_whole(order, src, k.offset - 8);
    bits::inner::skip_bits(
        order,
        bits::inner::skip_bits(order, word, 1),
        63 - k.lookahead,
    )
}

// The register that goes with counts.
fn register_at(order: Order, src: &[u8], k: Counts) -> u64
    requires { Within (length src.now) k }
    ensures { result ≡ register_of order src.now k }
{
    if k.offset < 8 {
        return register_end(order, src, k);
    }
    register_behind(order, src, k)
}

// The state of a slice with these counts.
pub fn state_at(order: Order, src: &[u8], k: Counts) -> State
    requires { Within (length src.now) k }
    ensures { result ≡ state_of order src.now k }
{
    State {
        offset: k.offset,
        lookahead: k.lookahead,
        register: register_at(order, src, k),
    }
}

// Whether a state belongs to a slice.
fn is_of(order: Order, src: &[u8], c: State) -> bool
    requires { length src.now ≤ longest }
    ensures { result ≡ belongs order src.now c }
{
    if src.len() < c.offset {
        return false;
    }
    if 63 < c.lookahead {
        return false;
    }
    if 8 * c.offset < c.lookahead as usize {
        return false;
    }
    let k = Counts {
        offset: c.offset,
        lookahead: c.lookahead,
    };
    c.register == register_at(order, src, k)
}

// Tests a state: 1 for a slice past the limit, 2 for a state that does not belong to it.
pub fn check(order: Order, src: &[u8], c: State) -> Result<(), Refusal>
    ensures { number_of result ≡ state_refusal order src.now c }
{
    if LONGEST < src.len() {
        return Err(Refusal::TooLong);
    }
    if is_of(order, src, c) {
        Ok(())
    } else {
        Err(Refusal::Foreign)
    }
}

// The first n bits of the lookahead.
pub fn peek(order: Order, src: &[u8], c: State, n: u32) -> u64
    requires { Belongs order src.now c × (n ≤ c.lookahead) }
    ensures { result ≡ field order src.now (place (counts_of c)) n }
{
    bits::inner::first_bits(order, c.register, n)
}

// The state without the first n bits of its lookahead.
pub fn consume(order: Order, src: &[u8], c: State, n: u32) -> State
    requires { Belongs order src.now c × (n ≤ c.lookahead) }
    ensures { result ≡ state_of order src.now (after_take n (counts_of c)) }
{
    State {
        offset: c.offset,
        lookahead: c.lookahead - n,
        register: bits::inner::skip_bits(order, c.register, n),
    }
}

// A refill that has eight bytes to fetch from and ends at least eight bytes on: one load.
fn refill_inside(order: Order, src: &[u8], k: Counts) -> State
    requires { Within (length src.now) k × (k.offset + 8 ≤ length src.now) × (8 ≤ k.offset + (63 - k.lookahead) / 8) }
    ensures { result ≡ state_of order src.now (after_refill (length src.now) k) }
{
    let free = 63 - k.lookahead;
    let offset = k.offset + (free / 8) as usize;
    let lookahead = 56 + k.lookahead % 8;
    let word = words::inner::load_whole(order, src, offset - 8);
    State {
        offset: offset,
        lookahead: lookahead,
        register: bits::inner::skip_bits(order, word, 64 - lookahead),
    }
}

// Any refill, byte by byte.
fn refill_end(order: Order, src: &[u8], k: Counts) -> State
    requires { Within (length src.now) k }
    ensures { result ≡ state_of order src.now (after_refill (length src.now) k) }
{
    let next = counts::inner::after_refill(src.len(), k);
    State {
        offset: next.offset,
        lookahead: next.lookahead,
        register: register_end(order, src, next),
    }
}

// The state with as many more bytes in the lookahead as a refill fetches.
pub fn refill(order: Order, src: &[u8], c: State) -> State
    requires { Belongs order src.now c }
    ensures { result ≡ state_of order src.now (after_refill (length src.now) (counts_of c)) }
{
    let k = Counts {
        offset: c.offset,
        lookahead: c.lookahead,
    };
    if c.offset + 8 <= src.len() {
        let free = 63 - c.lookahead;
        if 8 <= c.offset + (free / 8) as usize {
            return refill_inside(order, src, k);
        }
    }
    refill_end(order, src, k)
}

// A refill where b says so.
fn refill_if(b: bool, order: Order, src: &[u8], c: State) -> State
    requires { Belongs order src.now c }
    ensures { result ≡ state_of order src.now (refill_if b (length src.now) (counts_of c)) }
{
    if b { refill(order, src, c) } else { c }
}

// The first n bits of the lookahead, taken.
fn take(order: Order, src: &[u8], c: State, n: u32) -> Taken
    requires { Belongs order src.now c × (n ≤ c.lookahead) }
    ensures value { result.value ≡ field order src.now (place (counts_of c)) n }
    ensures state { result.state ≡ state_of order src.now (after_take n (counts_of c)) }
{
    Taken {
        value: peek(order, src, c, n),
        state: consume(order, src, c, n),
    }
}

// A read of at most 56 bits, of which enough are left.
pub fn read_short(order: Order, src: &[u8], c: State, w: u32) -> Taken
    requires { Belongs order src.now c × (w ≤ 56) × (w ≤ bits_left (length src.now) (counts_of c)) }
    ensures { result ≡ taken_of order src.now (counts_of c) w }
{
    take(order, src, refill_if(c.lookahead < w, order, src, c), w)
}

// ---- between eight bytes and eight more

// Whether counts are those of a state with eight bytes before its offset and eight behind it.
pub fn inside(len: usize, k: Counts) -> bool
    ensures { result ≡ inside_of len k }
{
    if LONGEST < len {
        return false;
    }
    if len < 8 {
        return false;
    }
    if len - 8 < k.offset {
        return false;
    }
    if k.offset < 8 {
        return false;
    }
    k.lookahead <= 63
}

// A refill there, if the lookahead has fewer than w bits.
fn top_up(order: Order, src: &[u8], c: State, w: u32) -> State
    requires { Belongs order src.now c × (inside_of (length src.now) (counts_of c) ≡ true) }
    ensures { result ≡ state_of order src.now (refill_if (ltb c.lookahead w) (length src.now) (counts_of c)) }
{
    if c.lookahead < w {
        let k = Counts {
            offset: c.offset,
            lookahead: c.lookahead,
        };
        return refill_inside(order, src, k);
    }
    c
}

// A read of at most 56 bits there.
pub fn read_inside(order: Order, src: &[u8], c: State, w: u32) -> Taken
    requires { Belongs order src.now c × (inside_of (length src.now) (counts_of c) ≡ true) × (w ≤ 56) }
    ensures { result ≡ taken_of order src.now (counts_of c) w }
{
    take(order, src, top_up(order, src, c, w), w)
}
