// Calls on the writer.
ghost use Rattle.std.specs.Prelude.{◌≤◌, length};

use crate::fixed::Fixed;
use bits::{Order, Refusal};
use floats::Single;
use script_words::inner as spelling;
use script_words::inner::Line;
use sign::inner::signed_of_bits;
use writer::Writer;

// The writer after a call, and the length of the answer.
#[derive(Clone, Copy, Debug, PartialEq, Eq)]
pub struct Written {
    pub writer: Writer,
    pub length: usize,
}

// Runs a call with two numbers at most, or with bytes.
pub fn call(
    l: Line,
    order: Order,
    w: Writer,
    out: &mut [u8],
    some: &[u8],
    line: &mut [u8],
) -> Written
    ensures { result.length ≤ length line.old }
{
    match l.letter {
        b'u' => Written {
            writer: w,
            length: unaligned(w, out, line),
        },
        b'K' => Written {
            writer: w,
            length: spelling::put_three(line, w.written as u64, u64::from(w.held), w.number),
        },
        b'o' => Written {
            writer: w,
            length: spelling::put_marked(line, out),
        },
        _ => told_of(w, answer(l, w, order, out, some), line),
    }
}

// The answer of a call that is told by three numbers.
fn answer(
    l: Line,
    w: Writer,
    order: Order,
    out: &mut [u8],
    some: &[u8],
) -> Result<Writer, Refusal> {
    match l.letter {
        b'N' => Writer::new(out),
        b'w' => w.write_bits(order, out, crate::narrow(l.first), l.second),
        b'x' => w.write_signed_bits(order, out, crate::narrow(l.first), signed_of_bits(l.second)),
        b'F' => fixed(Fixed::from(l.first), l.second, w, order, out),
        b'Y' => w.write_bytes(order, out, some),
        _ => w.flush(order, out),
    }
}

// A write of a fixed width.
pub fn fixed(k: Fixed, n: u64, w: Writer, order: Order, out: &mut [u8]) -> Result<Writer, Refusal> {
    match k {
        Fixed::Bit => w.write_bit(order, out, n == 1),
        Fixed::U8 => w.write_u8(order, out, (n % 0x100) as u8),
        Fixed::I8 => w.write_i8(order, out, ((n % 0x100) as u8).cast_signed()),
        Fixed::U16 => w.write_u16(order, out, (n % 0x1_0000) as u16),
        Fixed::I16 => w.write_i16(order, out, ((n % 0x1_0000) as u16).cast_signed()),
        Fixed::U32 => w.write_u32(order, out, (n % 0x1_0000_0000) as u32),
        Fixed::I32 => w.write_i32(order, out, ((n % 0x1_0000_0000) as u32).cast_signed()),
        Fixed::F32 => w.write_f32(order, out, single_of(n)),
        Fixed::U64 => w.write_u64(order, out, n),
        Fixed::I64 => w.write_i64(order, out, signed_of_bits(n)),
        Fixed::F64 => w.write_f64(order, out, floats::double_of_bits(n)),
    }
}

// The low 32 bits of a number as a single.
fn single_of(n: u64) -> Single {
    floats::single_of_bits((n % 0x1_0000_0000) as u32)
}

// unaligned_bits: `refusal value`.
fn unaligned(w: Writer, out: &[u8], line: &mut [u8]) -> usize
    ensures { result ≤ length line.old }
{
    let (refusal, held) = crate::numbers(w.unaligned_bits(out).map(|n| u64::from(n)));
    spelling::put_two(line, refusal, held)
}

// An answer's writer, which is the one that came where it is refused, and its line: `refusal written held`.
pub fn told_of(came: Writer, answer: Result<Writer, Refusal>, line: &mut [u8]) -> Written
    ensures { result.length ≤ length line.old }
{
    let w = answer.unwrap_or(came);
    let (refusal, _) = crate::numbers(answer.map(|_next| 0));
    Written {
        writer: w,
        length: spelling::put_three(line, refusal, w.written as u64, u64::from(w.held)),
    }
}
