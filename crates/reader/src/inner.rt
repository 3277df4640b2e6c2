// A cursor taken apart and put together, and the refusals and reads behind its methods.
ghost use Rattle.std.specs.Prelude.{◌≡◌, ◌*◌, ◌≤◌, length};
ghost use Rattle.bits.specs.Refusals.{longest, number_of};
ghost use Rattle.counts.specs.Counts as C;
ghost use Rattle.octets.specs.Octets.{octets};
ghost use Rattle.reader.specs.Cursor.{state_in, with_state, counts_in, place, cursor_at, gone_to, ending_at, bits_left, bytes_left, unfetched as unfetched_of, ahead_in, stop as stop_of, cursor_refusal, inside_end, is_inside, Fits};
ghost use Rattle.reader.specs.Answers.{read_told, read_refusal, read_of, bytes_refusal, manual_refusal, remainder_refusal, lower_refusal};

use crate::{Cursor, Read};
use bits::{LONGEST, Order, Refusal};
use counts::Counts;
use lookahead::{State, Taken};

pub mod field;

// The state of a cursor.
pub fn state_in(c: Cursor) -> State
    ensures { result ≡ state_in c }
{
    State {
        offset: c.offset,
        lookahead: c.lookahead,
        register: c.register,
    }
}

// The cursor gone on to a state, the rest of it kept.
pub fn with_state(c: Cursor, state: State) -> Cursor
    ensures { result ≡ with_state c state }
{
    Cursor {
        offset: state.offset,
        lookahead: state.lookahead,
        register: state.register,
        end: c.end,
    }
}

// The cursor with another end, the rest of it kept.
pub fn ending_at(c: Cursor, end: usize) -> Cursor
    ensures { result ≡ ending_at c end }
{
    Cursor {
        offset: c.offset,
        lookahead: c.lookahead,
        register: c.register,
        end: end,
    }
}

// The counts of a cursor.
pub fn counts_in(c: Cursor) -> Counts
    ensures { result ≡ counts_in c }
{
    Counts {
        offset: c.offset,
        lookahead: c.lookahead,
    }
}

// Tests a cursor: 1 and 2.
pub fn check(order: Order, src: &[u8], c: Cursor) -> Result<(), Refusal>
    ensures { number_of result ≡ cursor_refusal order src.now c }
{
    lookahead::inner::check(order, src, state_in(c))?;
    if c.end < 8 * c.offset - c.lookahead as usize {
        return Err(Refusal::Foreign);
    }
    if 8 * src.len() < c.end {
        return Err(Refusal::Foreign);
    }
    Ok(())
}

// The place at which reading goes on, of a cursor that belongs.
pub fn place_of(src: &[u8], c: Cursor) -> usize
    requires { Fits src.now c }
    ensures { result ≡ place c }
{
    8 * c.offset - c.lookahead as usize
}

// The place at which reading stops, of a cursor that belongs.
pub fn stop(src: &[u8], c: Cursor) -> usize
    requires { Fits src.now c }
    ensures { result ≡ stop_of src.now c }
{
    c.end
}

// The bits left behind a cursor that belongs.
pub fn bits_left(src: &[u8], c: Cursor) -> usize
    requires { Fits src.now c }
    ensures { result ≡ bits_left src.now c }
{
    c.end - place_of(src, c)
}

// The whole bytes left behind a cursor that belongs.
pub fn bytes_left(src: &[u8], c: Cursor) -> usize
    requires { Fits src.now c }
    ensures { result ≡ bytes_left src.now c }
{
    bits_left(src, c) / 8
}

// The bytes before the end of a cursor that are not yet fetched.
pub fn unfetched(src: &[u8], c: Cursor) -> usize
    ensures { result ≡ unfetched_of src.now c }
{
    let last = c.end / 8;
    if last < c.offset { 0 } else { last - c.offset }
}

// The bits of lookahead of a cursor that belongs, as far as they are left.
pub fn ahead(src: &[u8], c: Cursor) -> u32
    requires { Fits src.now c }
    ensures { result ≡ ahead_in src.now c }
{
    let left = bits_left(src, c);
    if left < c.lookahead as usize {
        return left as u32;
    }
    c.lookahead
}

// Tests a read of `bits` bits: 1 and 2, then 3 and 9.
pub fn check_read(order: Order, src: &[u8], c: Cursor, bits: u32) -> Result<(), Refusal>
    ensures { number_of result ≡ read_refusal order src.now c bits }
{
    check(order, src, c)?;
    if 64 < bits {
        return Err(Refusal::TooWide);
    }
    if bits_left(src, c) < bits as usize {
        return Err(Refusal::TooFew);
    }
    Ok(())
}

// A read from any cursor, taken apart; a wide one is a read of 56 bits, a refill, and a read of the rest. (It calls itself, so that the
// compiler leaves it out of line, and what is left of a public read is small. The cursor's numbers are handed over one by one for speed: a
// struct goes through memory in a call that stays, and the caller's own with it; docs/DECISIONS.md, 31.)
fn read_any(
    order: Order,
    src: &[u8],
    offset: usize,
    lookahead: u32,
    register: u64,
    end: usize,
    bits: u32,
) -> Result<Read<u64>, Refusal>
    ensures { read_told 0 (record { offset = offset; lookahead = lookahead; register = register; end = end }) result ≡ read_of order src.now (record { offset = offset; lookahead = lookahead; register = register; end = end }) bits }
{
    let c = Cursor {
        offset: offset,
        lookahead: lookahead,
        register: register,
        end: end,
    };
    check_read(order, src, c, bits)?;
    if bits <= 56 {
        return Ok(done_with(
            c,
            lookahead::inner::read_short(order, src, state_in(c), bits),
        ));
    }
    let low = read_any(order, src, offset, lookahead, register, end, 56)?;
    let middle = low.cursor;
    let full = lookahead::inner::refill(order, src, state_in(middle));
    let high = read_any(
        order,
        src,
        full.offset,
        full.lookahead,
        full.register,
        end,
        bits - 56,
    )?;
    Ok(Read {
        value: bits::inner::join_bits(order, 56, bits - 56, low.value, high.value),
        cursor: high.cursor,
    })
}

// What was read from a cursor, and the cursor that goes on.
fn done_with(c: Cursor, taken: Taken) -> Read<u64>
    ensures { result ≡ record { value = taken.value; cursor = with_state c taken.state } }
{
    Read {
        value: taken.value,
        cursor: with_state(c, taken.state),
    }
}

// A read from any cursor, its answer made anew, so that the compiler keeps the caller's in registers; the end is the one that came.
fn read_out(order: Order, src: &[u8], c: Cursor, bits: u32) -> Result<Read<u64>, Refusal>
    ensures { read_told 0 c result ≡ read_of order src.now c bits }
{
    let read = read_any(order, src, c.offset, c.lookahead, c.register, c.end, bits)?;
    Ok(Read {
        value: read.value,
        cursor: with_state(c, state_in(read.cursor)),
    })
}

// Whether counts have eight bytes before the offset, and eight more before an end within the slice. (In this order: what a loop does not
// change is tested outside it.)
fn inside_end(len: usize, end: usize, k: Counts) -> bool
    ensures { result ≡ inside_end len end k }
{
    len <= LONGEST && end <= 8 * len && lookahead::inner::inside(end / 8, k)
}

// Whether a read is of at most 56 bits from a cursor that belongs, with eight bytes before its offset and eight more before its end.
fn is_inside(order: Order, src: &[u8], c: Cursor, bits: u32) -> bool
    ensures { result ≡ is_inside order src.now c bits }
{
    let k = counts_in(c);
    bits <= 56
        && inside_end(src.len(), c.end, k)
        && c.register == lookahead::inner::register_behind(order, src, k)
}

// A read from any cursor: at once where it is inside the slice, and else behind a call.
#[inline]
pub fn read_bits(order: Order, src: &[u8], c: Cursor, bits: u32) -> Result<Read<u64>, Refusal>
    ensures { read_told 0 c result ≡ read_of order src.now c bits }
{
    if is_inside(order, src, c, bits) {
        return Ok(done_with(
            c,
            lookahead::inner::read_inside(order, src, state_in(c), bits),
        ));
    }
    read_out(order, src, c, bits)
}

// Tests a peek or consume of `count` bits: 1 and 2, then 10.
pub fn check_manual(order: Order, src: &[u8], c: Cursor, count: u32) -> Result<(), Refusal>
    ensures { number_of result ≡ manual_refusal order src.now c count }
{
    check(order, src, c)?;
    if ahead(src, c) < count {
        return Err(Refusal::PastLookahead);
    }
    Ok(())
}

// Tests a remainder: 1 and 2, then 14 where the end is within a byte.
pub fn check_remainder(order: Order, src: &[u8], c: Cursor) -> Result<(), Refusal>
    ensures { number_of result ≡ remainder_refusal order src.now c }
{
    check(order, src, c)?;
    if c.end % 8 != 0 {
        return Err(Refusal::EndInByte);
    }
    Ok(())
}

// Tests another end: 1 and 2, then 13 where it is above the cursor's own or below its place.
pub fn check_lower(order: Order, src: &[u8], c: Cursor, end: usize) -> Result<(), Refusal>
    ensures { number_of result ≡ lower_refusal order src.now c end }
{
    check(order, src, c)?;
    if c.end < end {
        return Err(Refusal::BadEnd);
    }
    if end < place_of(src, c) {
        return Err(Refusal::BadEnd);
    }
    Ok(())
}

// Tests a read of n bytes: 1 also for the buffer, 2, then 9.
pub fn check_bytes(order: Order, src: &[u8], c: Cursor, n: usize) -> Result<(), Refusal>
    ensures { number_of result ≡ bytes_refusal order src.now c n }
{
    if LONGEST < n {
        return Err(Refusal::TooLong);
    }
    check(order, src, c)?;
    if bytes_left(src, c) < n {
        return Err(Refusal::TooFew);
    }
    Ok(())
}

// Fills the buffer from the place on, where the bytes are there; the bytes go by place, and the cursor is made of the counts after them.
pub fn read_bytes(order: Order, src: &[u8], c: Cursor, buf: &mut [u8]) -> Cursor
    requires { Fits src.now c × (length buf.old ≤ bytes_left src.now c) }
    ensures answer { result ≡ cursor_at order src.now c (C.after_bytes (length src.now) (length buf.old) (counts_in c)) }
    ensures memory { buf.new ≡ octets order src.now (place c) (length buf.old) }
{
    let n = buf.len();
    octets::inner::bytes_at(order, src, place_of(src, c), buf);
    let next = counts::inner::after_bytes(src.len(), counts_in(c), n);
    with_state(c, lookahead::inner::state_at(order, src, next))
}

// The cursor gone on to a place, with the fewest bits held, the rest of it kept.
pub fn gone_to(order: Order, src: &[u8], c: Cursor, place: usize) -> Cursor
    requires { (place ≤ 8 * length src.now) × (length src.now ≤ longest) }
    ensures { result ≡ gone_to order src.now c place }
{
    with_state(
        c,
        lookahead::inner::state_at(order, src, counts::inner::counts_at(place)),
    )
}
