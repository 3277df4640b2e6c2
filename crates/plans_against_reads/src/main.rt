// Random layouts, compiled and run in both orders from random places up to random ends, against the reader's own answers field by field:
// values, the place behind, and the refusal where too few bits are left. Writes how many runs agree, of 600.
#![tactic(auto)]

use bits::{Order, Refusal};
use reader::{Cursor, Read};

fn main(rt: HostRuntime) {
    let mut seed: u64 = 20261115;
    let mut agreed: u64 = 0;
    for _round in 0..300 {
        seed = next(seed);
        for order in [Order::Little, Order::Big] {
            agreed = agreed.saturating_add(u64::from(round(order, seed)));
        }
    }
    let _told = println!(rt; "{agreed} of 600 runs agree");
}

// One round: some bytes and a layout from the seed, a run and its reading.
fn round(order: Order, seed: u64) -> bool {
    let mut src = [0u8; 300];
    let filled = fill(&mut src, seed);
    let mut layout = [0u8; 128];
    let made = make(&mut layout, filled);
    let lent = (made / 512 % 301) as usize;
    let used = 2 * (made / 65536 % 65) as usize;
    agrees(order, &src[..lent], &layout[..used], next(made))
}

// The next random number.
fn next(x: u64) -> u64 {
    let a = x ^ (x << 13);
    let b = a ^ (a >> 7);
    b ^ (b << 17)
}

// Fills bytes at random.
fn fill(buf: &mut [u8], seed: u64) -> u64 {
    let mut x = seed;
    for b in buf.iter_mut() {
        x = next(x);
        *b = (x / 256 % 256) as u8;
    }
    x
}

// A layout of fields with kinds and widths at random.
fn make(layout: &mut [u8], seed: u64) -> u64 {
    let mut x = seed;
    for field in layout.chunks_exact_mut(2) {
        x = next(x);
        field[0] = (x / 65536 % 2) as u8;
        x = next(x);
        field[1] = (x / 65536 % 65) as u8;
    }
    x
}

// Whether a run agrees with reading field by field, from a place behind some bits, up to an end that may be lowered.
fn agrees(order: Order, src: &[u8], layout: &[u8], seed: u64) -> bool {
    let mut plan = [0u8; 256];
    let Ok(length) = layout::compile(layout, &mut plan) else {
        return false;
    };
    let Ok(start) = Cursor::new(src) else {
        return false;
    };
    let Some(compiled) = plan.get(..length) else {
        return false;
    };
    let read = start.read_bits(order, src, (seed / 1024 % 57) as u32);
    let behind = read.map_or(start, |read| read.cursor);
    let moved = behind.lower_end(order, src, (seed / 65536 % 2401) as usize);
    let from = moved.unwrap_or(behind);
    let mut results = [0u64; 64];
    let ran = plan::run(from, order, src, compiled, &mut results);
    same(order, src, from, layout, &results, ran)
}

// Reads field by field and compares. Where the run was refused, nothing stands in the results.
fn same(
    order: Order,
    src: &[u8],
    from: Cursor,
    layout: &[u8],
    results: &[u64],
    ran: Result<Cursor, Refusal>,
) -> bool {
    let mut c = from;
    for (field, result) in layout.chunks_exact(2).zip(results) {
        let Ok(got) = read_field(order, src, c, field[0], u32::from(field[1])) else {
            return ran == Err(Refusal::TooFew);
        };
        if *result != ran.map_or(0, |_last| got.value) {
            return false;
        }
        c = got.cursor;
    }
    match ran {
        Ok(last) => c.bits_remaining(order, src) == last.bits_remaining(order, src),
        Err(_) => false,
    }
}

// A field by the reader, a signed one as its two's complement.
fn read_field(
    order: Order,
    src: &[u8],
    c: Cursor,
    kind: u8,
    width: u32,
) -> Result<Read<u64>, Refusal> {
    if kind == 0 {
        return c.read_bits(order, src, width);
    }
    let read = c.read_signed_bits(order, src, width)?;
    Ok(Read {
        value: sign::inner::bits_of_signed(read.value),
        cursor: read.cursor,
    })
}
