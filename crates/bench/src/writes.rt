// Fields written one behind the other; the order is a constant of each loop, and the width stands in the call.
use crate::{blank, order};
use bits::{Order, Refusal};
use writer::Writer;

// The values as fields of 38 bits by the public call; the answer is how many bytes are full.
pub fn fixed<const BIG: bool>(out: &mut [u8], values: &[u64]) -> u64 {
    given::<BIG>(out, 38, values)
}

// The same of a width that is handed in.
#[inline(always)]
pub fn given<const BIG: bool>(out: &mut [u8], w: u32, values: &[u64]) -> u64 {
    let mut writer = blank();
    for value in values {
        let Ok(next) = writer.write_bits(order(BIG), out, w, *value) else {
            return 0;
        };
        writer = next;
    }
    let end = writer.flush(order(BIG), out).unwrap_or(writer);
    end.written as u64
}

// The first three numbers of a record, one call each.
fn front(writer: Writer, out: &mut [u8], numbers: [u64; 3]) -> Result<Writer, Refusal> {
    let [star, date, limit] = numbers;
    let writer = writer.write_bits(Order::Big, out, 20, star)?;
    let writer = writer.write_bits(Order::Big, out, 38, date)?;
    writer.write_bits(Order::Big, out, 1, limit)
}

// The last three.
fn back(writer: Writer, out: &mut [u8], numbers: [u64; 3]) -> Result<Writer, Refusal> {
    let [magnitude, error, filter] = numbers;
    let writer = writer.write_bits(Order::Big, out, 16, magnitude)?;
    let writer = writer.write_bits(Order::Big, out, 10, error)?;
    writer.write_bits(Order::Big, out, 4, filter)
}

// Records of six numbers, six calls each.
pub fn records(out: &mut [u8], numbers: &[u64]) -> u64 {
    let mut writer = blank();
    for six in numbers.chunks_exact(6) {
        let Ok(middle) = front(writer, out, [six[0], six[1], six[2]]) else {
            return 0;
        };
        let Ok(next) = back(middle, out, [six[3] % 0x1_0000, six[4], six[5]]) else {
            return 0;
        };
        writer = next;
    }
    let end = writer.flush(Order::Big, out).unwrap_or(writer);
    end.written as u64
}
