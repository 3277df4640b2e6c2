// Calls on the cursor, sign extension, and the double of a single.
ghost use Rattle.std.specs.Prelude.{◌≤◌, length};

use crate::fixed::Fixed;
use bits::{Order, Refusal};
use reader::{Cursor, Read};
use script_words::inner as spelling;
use script_words::inner::Line;
use sign::inner::bits_of_signed;

// The cursor after a call, and the length of the answer.
#[derive(Clone, Copy, Debug, PartialEq, Eq)]
pub struct After {
    pub cursor: Cursor,
    pub length: usize,
}

// Runs a call with two numbers at most.
pub fn call(l: Line, order: Order, c: Cursor, src: &[u8], buf: &mut [u8], line: &mut [u8]) -> After
    ensures { result.length ≤ length line.old }
{
    match l.letter {
        b'y' => {
            let size = spelling::repeat(buf, l.first, 0xee);
            bytes(c, order, src, &mut buf[..size], line)
        }
        b'm' => After {
            cursor: c,
            length: remainder(c, order, src, line),
        },
        b'k' | b'g' => After {
            cursor: c,
            length: shown(l.letter, c, line),
        },
        b'e' => After {
            cursor: c,
            length: extend(l.first, l.second, line),
        },
        b'd' => After {
            cursor: c,
            length: widen(l.first, line),
        },
        _ => told_of(c, answer(l.letter, l.first, c, order, src), line),
    }
}

// The answer of a call that is told by four numbers.
fn answer(letter: u8, n: u64, c: Cursor, order: Order, src: &[u8]) -> Result<Read<u64>, Refusal> {
    match letter {
        b'n' => moved(Cursor::new(src)),
        b'b' => c.read_bits(order, src, crate::narrow(n)),
        b's' => bits_of(
            c.read_signed_bits(order, src, crate::narrow(n)),
            |z| bits_of_signed(z),
        ),
        b'f' => fixed(Fixed::from(n), c, order, src),
        b'q' => seen(c, count(n, c, order, src)),
        b'h' => seen(
            c,
            c.has_bits_remaining(order, src, n as usize)
                .map(|b| u64::from(b)),
        ),
        b'p' => seen(c, c.peek(order, src, crate::narrow(n))),
        b'c' => moved(c.consume(order, src, crate::narrow(n))),
        b'l' => moved(c.lower_end(order, src, n as usize)),
        _ => moved(c.refill_lookahead(order, src)),
    }
}

// A read of a fixed width, its value as bits.
pub fn fixed(k: Fixed, c: Cursor, order: Order, src: &[u8]) -> Result<Read<u64>, Refusal> {
    match k {
        Fixed::Bit => bits_of(c.read_bit(order, src), |b| u64::from(b)),
        Fixed::U8 => bits_of(c.read_u8(order, src), |n| u64::from(n)),
        Fixed::I8 => bits_of(c.read_i8(order, src), |z| bits_of_signed(i64::from(z))),
        Fixed::U16 => bits_of(c.read_u16(order, src), |n| u64::from(n)),
        Fixed::I16 => bits_of(c.read_i16(order, src), |z| bits_of_signed(i64::from(z))),
        Fixed::U32 => bits_of(c.read_u32(order, src), |n| u64::from(n)),
        Fixed::I32 => bits_of(c.read_i32(order, src), |z| bits_of_signed(i64::from(z))),
        Fixed::F32 => bits_of(c.read_f32(order, src), |x| {
            u64::from(floats::bits_of_single(x))
        }),
        Fixed::U64 => c.read_u64(order, src),
        Fixed::I64 => bits_of(c.read_i64(order, src), |z| bits_of_signed(z)),
        Fixed::F64 => bits_of(c.read_f64(order, src), |x| floats::bits_of_double(x)),
    }
}

// A count or a test. (Its number is looked at here alone, so it has no enum.)
fn count(k: u64, c: Cursor, order: Order, src: &[u8]) -> Result<u64, Refusal> {
    match k {
        0 => c.bytes_remaining(order, src).map(|n| n as u64),
        1 => c.unbuffered_bytes_remaining(order, src).map(|n| n as u64),
        2 => c.bits_remaining(order, src).map(|n| n as u64),
        3 => c.is_empty(order, src).map(|b| u64::from(b)),
        4 => c.byte_aligned(order, src).map(|b| u64::from(b)),
        _ => c.lookahead_bits(order, src).map(|n| u64::from(n)),
    }
}

// A read with its value as 64 bits.
pub(crate) fn bits_of<T: Copy, F: FnOnce(T) -> u64>(
    read: Result<Read<T>, Refusal>,
    bits: F,
) -> Result<Read<u64>, Refusal>
    requires { F.IsAlwaysCallable bits }
{
    let read = read?;
    Ok(Read {
        value: bits(read.value),
        cursor: read.cursor,
    })
}

// A move, which has the value 0.
fn moved(next: Result<Cursor, Refusal>) -> Result<Read<u64>, Refusal> {
    Ok(Read {
        value: 0,
        cursor: next?,
    })
}

// A value that moves no cursor.
pub(crate) fn seen(c: Cursor, value: Result<u64, Refusal>) -> Result<Read<u64>, Refusal> {
    Ok(Read {
        value: value?,
        cursor: c,
    })
}

// read_bytes into a buffer: its bytes follow the four numbers.
fn bytes(c: Cursor, order: Order, src: &[u8], buf: &mut [u8], line: &mut [u8]) -> After
    ensures { result.length ≤ length line.old }
{
    let moved = c.read_bytes(order, src, buf);
    let next = moved.unwrap_or(c);
    let end = told(line, moved.map(|_next| buf.len() as u64), next);
    After {
        cursor: next,
        length: spelling::put_next_bytes(line, end, buf),
    }
}

// The remainder: its partial byte and bits as the value, and its part of the source behind the four numbers.
fn remainder(c: Cursor, order: Order, src: &[u8], line: &mut [u8]) -> usize
    ensures { result ≤ length line.old }
{
    let value = c.partial(order, src).map(|p| 16 * u64::from(p.partial_byte)
        + u64::from(p.partial_bits));
    let end = told(line, value, c);
    spelling::put_next_bytes(line, end, c.remainder(order, src))
}

// The cursor itself: its end, or its other numbers.
fn shown(letter: u8, c: Cursor, line: &mut [u8]) -> usize
    ensures { result ≤ length line.old }
{
    if letter == b'g' {
        return spelling::put_one(line, c.end as u64);
    }
    spelling::put_three(line, c.offset as u64, u64::from(c.lookahead), c.register)
}

// sign_extend: `refusal value`.
fn extend(value: u64, width: u64, line: &mut [u8]) -> usize
    ensures { result ≤ length line.old }
{
    let extended = sign::sign_extend(value, crate::narrow(width));
    let (refusal, bits) = crate::numbers(extended.map(|z| bits_of_signed(z)));
    spelling::put_two(line, refusal, bits)
}

// double_of_single, both by their bits: `0 value`.
fn widen(bits: u64, line: &mut [u8]) -> usize
    ensures { result ≤ length line.old }
{
    let single = floats::single_of_bits((bits % 0x1_0000_0000) as u32);
    let double = floats::double_of_single(single);
    spelling::put_two(line, 0, floats::bits_of_double(double))
}

// An answer's cursor, which is the one that came where it is refused, and its line.
pub fn told_of(came: Cursor, answer: Result<Read<u64>, Refusal>, line: &mut [u8]) -> After
    ensures { result.length ≤ length line.old }
{
    let next = answer.map_or(came, |read| read.cursor);
    After {
        cursor: next,
        length: told(line, answer.map(|read| read.value), next),
    }
}

// `refusal value offset lookahead`.
pub fn told(line: &mut [u8], value: Result<u64, Refusal>, c: Cursor) -> usize
    ensures { result ≤ length line.old }
{
    let (refusal, value) = crate::numbers(value);
    spelling::put_four(
        line,
        refusal,
        value,
        c.offset as u64,
        u64::from(c.lookahead),
    )
}
