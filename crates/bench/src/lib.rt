// The loops that bench/run times beside the Rust's: each goes through a whole slice in one way of the library and answers a sum of what
// it read, which the driver compares. Nothing is claimed of them but that they are safe.
#![tactic(auto)]

use bits::{Order, Refusal};
use vetting::Verdict;
use writer::Writer;

mod bytes;
mod plans;
mod reads;
mod writes;

// The order of a loop.
fn order(big: bool) -> Order {
    if big { Order::Big } else { Order::Little }
}

// A fresh writer.
fn blank() -> Writer {
    Writer {
        written: 0,
        held: 0,
        number: 0,
    }
}

// What is told to the driver of a length or a refusal: the refusal's number, and the length 32 bits up.
fn told(answer: Result<usize, Refusal>) -> u64 {
    match answer {
        Ok(length) => (length as u64) << 32,
        Err(refusal) => u64::from(refusal.number()),
    }
}

// ---- fields, one call each

#[unsafe(no_mangle)]
pub extern "C" fn bench_read_38_big(src: &[u8], n: usize) -> u64 {
    reads::fixed::<true>(src, n)
}

#[unsafe(no_mangle)]
pub extern "C" fn bench_read_38_little(src: &[u8], n: usize) -> u64 {
    reads::fixed::<false>(src, n)
}

#[unsafe(no_mangle)]
pub extern "C" fn bench_read_big(src: &[u8], w: u32, n: usize) -> u64 {
    reads::given::<true>(src, w, n)
}

#[unsafe(no_mangle)]
pub extern "C" fn bench_read_little(src: &[u8], w: u32, n: usize) -> u64 {
    reads::given::<false>(src, w, n)
}

#[unsafe(no_mangle)]
pub extern "C" fn bench_place_38_big(src: &[u8]) -> u64 {
    reads::places::<true>(src)
}

#[unsafe(no_mangle)]
pub extern "C" fn bench_place_38_little(src: &[u8]) -> u64 {
    reads::places::<false>(src)
}

#[unsafe(no_mangle)]
pub extern "C" fn bench_write_38_big(out: &mut [u8], values: &[u64]) -> u64 {
    writes::fixed::<true>(out, values)
}

#[unsafe(no_mangle)]
pub extern "C" fn bench_write_38_little(out: &mut [u8], values: &[u64]) -> u64 {
    writes::fixed::<false>(out, values)
}

#[unsafe(no_mangle)]
pub extern "C" fn bench_write_big(out: &mut [u8], w: u32, values: &[u64]) -> u64 {
    writes::given::<true>(out, w, values)
}

#[unsafe(no_mangle)]
pub extern "C" fn bench_write_little(out: &mut [u8], w: u32, values: &[u64]) -> u64 {
    writes::given::<false>(out, w, values)
}

#[unsafe(no_mangle)]
pub extern "C" fn bench_write_record(out: &mut [u8], numbers: &[u64]) -> u64 {
    writes::records(out, numbers)
}

// ---- plans

#[unsafe(no_mangle)]
pub extern "C" fn bench_fields_big(src: &[u8], plan: &[u8], results: &mut [u64]) -> u64 {
    plans::fields::<true>(src, plan, results)
}

#[unsafe(no_mangle)]
pub extern "C" fn bench_fields_little(src: &[u8], plan: &[u8], results: &mut [u64]) -> u64 {
    plans::fields::<false>(src, plan, results)
}

#[unsafe(no_mangle)]
pub extern "C" fn bench_run_big(src: &[u8], plan: &[u8], n: usize, results: &mut [u64]) -> u64 {
    plans::runs::<true>(src, plan, n, results)
}

#[unsafe(no_mangle)]
pub extern "C" fn bench_run_little(src: &[u8], plan: &[u8], n: usize, results: &mut [u64]) -> u64 {
    plans::runs::<false>(src, plan, n, results)
}

// Compiles a layout; the answer is the plan's length.
#[unsafe(no_mangle)]
pub extern "C" fn bench_compile(layout: &[u8], plan: &mut [u8]) -> usize {
    layout::compile(layout, plan).unwrap_or(0)
}

// Checks a plan; the answer is the refusal.
#[unsafe(no_mangle)]
pub extern "C" fn bench_check(plan: &[u8]) -> u32 {
    match layout::check(plan) {
        Ok(()) => 0,
        Err(refusal) => refusal.number(),
    }
}

// ---- whole strips

#[unsafe(no_mangle)]
pub extern "C" fn bench_read_strip(src: &[u8], numbers: &mut [u64]) -> usize {
    strip::read_strip(src, numbers).map_or(0, |read| read.count)
}

#[unsafe(no_mangle)]
pub extern "C" fn bench_pack_strip(numbers: &[u64], n: usize, out: &mut [u8]) -> usize {
    strip::pack_strip(numbers, n, out).unwrap_or(0)
}

// 0 where the strip keeps the rules; the rule and, 3 bits up, the record at fault; 4 for a bad tail; the refusal 32 bits up.
#[unsafe(no_mangle)]
pub extern "C" fn bench_vet_strip(strip: &[u8]) -> u64 {
    match vetting::vet_strip(strip) {
        Ok(Verdict::Fine) => 0,
        Ok(Verdict::Broken { record, rule }) => u64::from(rule.number()) | (record as u64) << 3,
        Ok(Verdict::BadTail) => 4,
        Err(refusal) => u64::from(refusal.number()) << 32,
    }
}

// ---- whole texts

// The refusal, and the text's length 32 bits up.
#[unsafe(no_mangle)]
pub extern "C" fn bench_list_text(strip: &[u8], out: &mut [u8]) -> u64 {
    told(text::list_text(strip, out))
}

// The refusal, the number of a bad line 4 bits up, and the strip's length 32 bits up.
#[unsafe(no_mangle)]
pub extern "C" fn bench_pack_text(text: &[u8], out: &mut [u8]) -> u64 {
    match text::pack_text(text, out) {
        Ok(length) => told(Ok(length)),
        Err(text::PackError::Refused(refusal)) => told(Err(refusal)),
        Err(text::PackError::BadLine(line)) => told(Err(Refusal::BadLine)) | (line as u64) << 4,
    }
}

// ---- FITS rows

// What is told of a strip or rows: the same with 1 where a tail is good, 31 bits up.
fn told_whole(length: Option<usize>) -> u64 {
    match length {
        Some(length) => told(Ok(length)) | 0x8000_0000,
        None => 0,
    }
}

// The refusal, whether the strip's tail is good, and the rows' length 32 bits up.
#[unsafe(no_mangle)]
pub extern "C" fn bench_strip_to_rows(strip: &[u8], out: &mut [u8]) -> u64 {
    match rows::strip_to_rows(strip, out) {
        Ok(length) => told_whole(length),
        Err(refusal) => told(Err(refusal)),
    }
}

// The refusal, the number of a bad row 4 bits up, whether the last row is whole, and the strip's length 32 bits up.
#[unsafe(no_mangle)]
pub extern "C" fn bench_rows_to_strip(rows: &[u8], out: &mut [u8]) -> u64 {
    match rows::rows_to_strip(rows, out) {
        Ok(length) => told_whole(length),
        Err(rows::PackError::Refused(refusal)) => told(Err(refusal)),
        Err(rows::PackError::BadRow(row)) => told(Err(Refusal::BadRow)) | (row as u64) << 4,
    }
}

// ---- bytes

#[unsafe(no_mangle)]
pub extern "C" fn bench_read_bytes_big(src: &[u8], skip: u32, buf: &mut [u8], times: usize) -> u64 {
    bytes::reads::<true>(src, skip, buf, times)
}

#[unsafe(no_mangle)]
pub extern "C" fn bench_read_bytes_little(
    src: &[u8],
    skip: u32,
    buf: &mut [u8],
    times: usize,
) -> u64 {
    bytes::reads::<false>(src, skip, buf, times)
}

#[unsafe(no_mangle)]
pub extern "C" fn bench_write_bytes_big(
    out: &mut [u8],
    skip: u32,
    buf: &[u8],
    times: usize,
) -> u64 {
    bytes::writes::<true>(out, skip, buf, times)
}

#[unsafe(no_mangle)]
pub extern "C" fn bench_write_bytes_little(
    out: &mut [u8],
    skip: u32,
    buf: &[u8],
    times: usize,
) -> u64 {
    bytes::writes::<false>(out, skip, buf, times)
}
