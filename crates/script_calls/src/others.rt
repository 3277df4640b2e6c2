// The same calls another way: reads and writes by typed values, manual mode and lower ends on a borrowed cursor, the remainder as one
// record.
ghost use Rattle.std.specs.Prelude.{◌≤◌, length};

use crate::fixed::Fixed;
use crate::reads::After;
use crate::writes::Written;
use crate::{reads, writes};
use bits::{Order, Refusal};
use lent::Outcome;
use reader::{Cursor, Read};
use script_words::inner as spelling;
use script_words::inner::Line;
use typed::Kind;
use writer::Writer;

// Runs a call on the cursor the other way if there is one, else as it is.
pub fn read(l: Line, order: Order, c: Cursor, src: &[u8], buf: &mut [u8], line: &mut [u8]) -> After
    ensures { result.length ≤ length line.old }
{
    match l.letter {
        b'b' | b's' | b'f' | b'p' => reads::told_of(
            c,
            answer(l.letter, l.first, c, order, src),
            line,
        ),
        b'c' | b'r' | b'l' => left_told(left(l.letter, l.first, c, order, src), line),
        b'm' => After {
            cursor: c,
            length: remainder(c, order, src, line),
        },
        b'd' => After {
            cursor: c,
            length: widen(l.first, line),
        },
        _ => reads::call(l, order, c, src, buf, line),
    }
}

// A move of a borrowed cursor: its answer, and the cursor as the call left it.
fn left(letter: u8, n: u64, c: Cursor, order: Order, src: &[u8]) -> Outcome {
    match letter {
        b'c' => lent::consumed(c, order, src, crate::narrow(n)),
        b'l' => lent::lowered(c, order, src, n as usize),
        _ => lent::refilled(c, order, src),
    }
}

// That cursor, and its line: `refusal 0 offset lookahead`, the last two as the call left them.
fn left_told(left: Outcome, line: &mut [u8]) -> After
    ensures { result.length ≤ length line.old }
{
    After {
        cursor: left.cursor,
        length: reads::told(line, left.answer.map(|_done| 0), left.cursor),
    }
}

// The answer of a typed read, or of a peek of a borrowed cursor.
fn answer(letter: u8, n: u64, c: Cursor, order: Order, src: &[u8]) -> Result<Read<u64>, Refusal> {
    match letter {
        b'b' => typed_read(c, order, src, Kind::Unsigned, crate::narrow(n)),
        b's' => typed_read(c, order, src, Kind::Signed, crate::narrow(n)),
        b'f' => fixed(Fixed::from(n), c, order, src),
        _ => reads::seen(c, lent::peeked(c, order, src, crate::narrow(n))),
    }
}

// A read of a fixed width; one bit has no kind.
fn fixed(k: Fixed, c: Cursor, order: Order, src: &[u8]) -> Result<Read<u64>, Refusal> {
    match k.kind() {
        None => reads::fixed(k, c, order, src),
        Some(kind) => typed_read(c, order, src, kind, k.width()),
    }
}

// A typed read, its value as bits.
fn typed_read(
    c: Cursor,
    order: Order,
    src: &[u8],
    kind: Kind,
    width: u32,
) -> Result<Read<u64>, Refusal> {
    reads::bits_of(
        typed::read_typed(c, order, src, kind, width),
        |value| typed::bits_of_typed(value),
    )
}

// The remainder record's numbers, refused or not, and the bytes of its slice: the last ones before the cursor's end.
fn remainder(c: Cursor, order: Order, src: &[u8], line: &mut [u8]) -> usize
    ensures { result ≤ length line.old }
{
    let rest = lent::left(c, order, src);
    let (refusal, _value) = crate::numbers(c.partial(order, src).map(|_partial| 0));
    let value = 16 * u64::from(rest.partial_byte) + u64::from(rest.partial_bits);
    let end = spelling::put_four(
        line,
        refusal,
        value,
        c.offset as u64,
        u64::from(c.lookahead),
    );
    let last = crate::within(src, c.end / 8);
    let start = last.saturating_sub(rest.length);
    spelling::put_next_bytes(line, end, &src[start..last])
}

// The typed double of a typed single, both by their bits.
fn widen(bits: u64, line: &mut [u8]) -> usize
    ensures { result ≤ length line.old }
{
    let value = typed::typed_of_bits(Kind::Single, bits);
    let wide = typed::widen_typed(value);
    spelling::put_two(line, 0, typed::bits_of_typed(wide))
}

// Runs a call on the writer the other way if there is one, else as it is.
pub fn write(
    l: Line,
    order: Order,
    w: Writer,
    out: &mut [u8],
    some: &[u8],
    line: &mut [u8],
) -> Written
    ensures { result.length ≤ length line.old }
{
    match l.letter {
        b'w' | b'x' | b'F' => writes::told_of(w, wrote(l, w, order, out), line),
        _ => writes::call(l, order, w, out, some, line),
    }
}

// The answer of a typed write.
fn wrote(l: Line, w: Writer, order: Order, out: &mut [u8]) -> Result<Writer, Refusal> {
    let n = l.second;
    match l.letter {
        b'w' => typed_write(w, order, out, Kind::Unsigned, crate::narrow(l.first), n),
        b'x' => typed_write(w, order, out, Kind::Signed, crate::narrow(l.first), n),
        _ => fixed_write(Fixed::from(l.first), n, w, order, out),
    }
}

// A write of a fixed width; one bit has no kind.
fn fixed_write(
    k: Fixed,
    n: u64,
    w: Writer,
    order: Order,
    out: &mut [u8],
) -> Result<Writer, Refusal> {
    match k.kind() {
        None => writes::fixed(k, n, w, order, out),
        Some(kind) => typed_write(w, order, out, kind, k.width(), k.low_bits(n)),
    }
}

// A typed write of the value that bits make.
fn typed_write(
    w: Writer,
    order: Order,
    out: &mut [u8],
    kind: Kind,
    width: u32,
    bits: u64,
) -> Result<Writer, Refusal> {
    let value = typed::typed_of_bits(kind, bits);
    typed::write_typed(w, order, out, value, width)
}
