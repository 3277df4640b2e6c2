// The calls by number, as C names them and is told of them: each answers the number of its refusal, or 0.
use bits::{LONGEST, Order, Refusal};
use reader::Cursor;
use record::Record;
use rows::PackError;
use writer::Writer;

// The calls that read the slice, by number: 0 to 12 the cursor's, 13 to 20 the others, from 21 on those of rows, and the verdict.
#[unsafe(no_mangle)]
pub extern "C" fn limits_read(call: u32, src: &[u8]) -> u32 {
    if call < 13 {
        return read_call(call, src);
    }
    if call < 21 {
        return other_call(call, src);
    }
    row_call(call, src)
}

// The calls that write the slice, by number: 0 to 7 the writer's, 8 to 15 the others.
#[unsafe(no_mangle)]
pub extern "C" fn limits_write(call: u32, out: &mut [u8]) -> u32 {
    if call < 8 {
        return write_call(call, out);
    }
    fill_call(call, out)
}

// The number of an answer's refusal, or 0.
fn number<T: Copy>(answer: Result<T, Refusal>) -> u32 {
    match answer {
        Ok(_) => 0,
        Err(refusal) => refusal.number(),
    }
}

// The same of rows that are packed.
fn number_packed(answer: Result<Option<usize>, PackError>) -> u32 {
    match answer {
        Ok(_) => 0,
        Err(error) => error.number(),
    }
}

// A fresh cursor of a slice, all zeros where it is refused.
fn fresh(src: &[u8]) -> Cursor {
    Cursor::new(src).unwrap_or(Cursor::from_parts(0, 0, 0, 0))
}

// A fresh writer, whatever the output.
fn blank() -> Writer {
    Writer {
        written: 0,
        held: 0,
        number: 0,
    }
}

// The cursor's methods, on a fresh one; the end that is asked for is that of the longest slice.
fn read_call(call: u32, src: &[u8]) -> u32 {
    let c = fresh(src);
    match call {
        0 => number(Cursor::new(src)),
        1 => number(c.read_bits(Order::Big, src, 38)),
        2 => number(c.read_signed_bits(Order::Big, src, 38)),
        3 => number(c.read_u8(Order::Big, src)),
        4 => number(c.bytes_remaining(Order::Big, src)),
        5 => number(c.has_bits_remaining(Order::Big, src, 1)),
        6 => number(c.lookahead_bits(Order::Big, src)),
        7 => number(c.peek(Order::Big, src, 0)),
        8 => number(c.consume(Order::Big, src, 0)),
        9 => number(c.refill_lookahead(Order::Big, src)),
        10 => number(c.partial(Order::Big, src)),
        11 => number(c.lower_end(Order::Big, src, 8 * LONGEST)),
        _ => number(c.read_bytes(Order::Big, src, &mut [0u8; 4])),
    }
}

// Bytes to write, a layout, a plan, a line, a record's and a strip's source.
fn other_call(call: u32, src: &[u8]) -> u32 {
    let mut small = [0u8; 16];
    let mut results = [0u64; 6];
    match call {
        13 => number(blank().write_bytes(Order::Big, &mut small, src)),
        14 => number(layout::compile(src, &mut small)),
        15 => number(layout::check(src)),
        16 => number(line::read_line(src)),
        17 => number(strip::read_record(fresh(src), src)),
        18 => number(strip::read_strip(src, &mut results)),
        19 => number(plan::run(fresh(&small), Order::Big, &small, src, &mut results)),
        _ => number(plan::run(fresh(src), Order::Big, src, b"", &mut results)),
    }
}

// A row, a strip and rows, and a strip that is vetted.
fn row_call(call: u32, src: &[u8]) -> u32 {
    let mut small = [0u8; 16];
    match call {
        21 => number(rows::read_row(src)),
        22 => number(rows::strip_to_rows(src, &mut small)),
        23 => number_packed(rows::rows_to_strip(src, &mut small)),
        _ => number(vetting::vet_strip(src)),
    }
}

// The writer's methods, on a fresh one.
fn write_call(call: u32, out: &mut [u8]) -> u32 {
    let w = blank();
    match call {
        0 => number(Writer::new(out)),
        1 => number(w.write_bits(Order::Big, out, 3, 5)),
        2 => number(w.write_signed_bits(Order::Big, out, 3, 1)),
        3 => number(w.write_u8(Order::Big, out, 5)),
        4 => number(w.write_bytes(Order::Big, out, b"ab")),
        5 => number(w.unaligned_bits(out)),
        6 => number(w.flush(Order::Big, out)),
        _ => number(w.write_f32(Order::Big, out, floats::single_of_bits(0))),
    }
}

// A buffer to read bytes into, a plan's, a line's, a record's, a strip's and rows' output.
fn fill_call(call: u32, out: &mut [u8]) -> u32 {
    let r = Record::default();
    match call {
        8 => number(fresh(b"ab").read_bytes(Order::Big, b"ab", out)),
        9 => number(layout::compile(b"", out)),
        10 => number(listing::write_line(r, out)),
        11 => number(strip::pack_record(blank(), out, r)),
        12 => number(strip::pack_strip(&[0u64; 6], 1, out)),
        13 => number(rows::write_row(r, out)),
        14 => number(rows::strip_to_rows(b"", out)),
        _ => number_packed(rows::rows_to_strip(b"", out)),
    }
}
