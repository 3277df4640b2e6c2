// Fields of one width, one behind the other. The order is a constant of each loop and the width stands in the call, as they do in the
// Rust's loops.
use crate::order;
use bits::LONGEST;
use reader::Cursor;

// n fields of 38 bits by the public call, or as many as there are.
pub fn fixed<const BIG: bool>(src: &[u8], n: usize) -> u64 {
    given::<BIG>(src, 38, n)
}

// The same of a width that is handed in.
#[inline(always)]
pub fn given<const BIG: bool>(src: &[u8], w: u32, n: usize) -> u64 {
    let Ok(mut cursor) = Cursor::new(src) else {
        return 0;
    };
    let mut sum: u64 = 0;
    for _field in 0..n {
        let Ok(read) = cursor.read_bits(order(BIG), src, w) else {
            return sum;
        };
        cursor = read.cursor;
        sum ^= read.value;
    }
    sum
}

// Every field of 38 bits by its place.
pub fn places<const BIG: bool>(src: &[u8]) -> u64 {
    if LONGEST < src.len() {
        return 0;
    }
    let mut sum: u64 = 0;
    for field in 0..8 * src.len() / 38 {
        sum ^= words::inner::field_at(order(BIG), src, 38 * field, 38);
    }
    sum
}
