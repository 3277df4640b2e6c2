// Bytes read and written behind some bits.
use crate::{blank, order};
use reader::Cursor;

// The buffer filled some times, from where the last time ended.
pub fn reads<const BIG: bool>(src: &[u8], skip: u32, buf: &mut [u8], times: usize) -> u64 {
    let Ok(start) = Cursor::new(src) else {
        return 0;
    };
    let skipped = start.read_bits(order(BIG), src, skip);
    let mut cursor = skipped.map_or(start, |read| read.cursor);
    let mut sum: u64 = 0;
    for _time in 0..times {
        let Ok(next) = cursor.read_bytes(order(BIG), src, buf) else {
            return sum;
        };
        cursor = next;
        sum ^= buf.first().map_or(0, |b| u64::from(*b));
    }
    sum
}

// The buffer written some times behind some zeros; the answer is how many bytes are full.
pub fn writes<const BIG: bool>(out: &mut [u8], skip: u32, buf: &[u8], times: usize) -> u64 {
    let start = blank();
    let mut writer = start.write_bits(order(BIG), out, skip, 0).unwrap_or(start);
    for _time in 0..times {
        let Ok(next) = writer.write_bytes(order(BIG), out, buf) else {
            return 0;
        };
        writer = next;
    }
    let end = writer.flush(order(BIG), out).unwrap_or(writer);
    end.written as u64
}
