// Rows where the tests are made, for proved callers.
ghost use Rattle.std.specs.Prelude.{◌≡◌, true, cond, ◌&&◌, ◌||◌, ◌+◌, ◌*◌, ◌^◌, ◌<◌, ◌≤◌, length, eqb, ltb};
ghost use Rattle.std.proofs.lemmas.List.Edits.{sets};
ghost use Rattle.bits.specs.Refusals.{longest, number_of};
ghost use Rattle.record.specs.Record.{fits, named as named_by, InFields, record_bits, star_bits, date_bits, error_bits, filter_bits};
ghost use Rattle.strip.specs.Bits.{record_at};
ghost use Rattle.strip.specs.Strip.{records_from, strip_length, strip_bytes};
ghost use Rattle.rows.specs.Row.{letter, columns_at, in_range, record_said, row_bytes, row_length, letter_t, letter_f};
ghost use Rattle.rows.specs.Rows.{rows_bytes, records_in_rows, bad_from, named};
ghost use Rattle.rows.specs.Answers.{found_told, row_refusal, read_refusal, rows_refusal, found_of};

use crate::{PackError, ROW_LENGTH};
use bits::{LONGEST, Order, Refusal};
use record::inner::Numbers;
use record::{RECORD_BITS, Record};

// The letters T and F of a column L.
const LETTER_T: u64 = 84;

const LETTER_F: u64 = 70;

// ---- one record

// Tests the writing of a record's row: 1, then 4 and 8.
pub fn check_row(len: usize, found: Record) -> Result<(), Refusal>
    ensures { number_of result ≡ row_refusal len found }
{
    if LONGEST < len {
        return Err(Refusal::TooLong);
    }
    if !record::inner::fits(found) {
        return Err(Refusal::TooLarge);
    }
    if len < ROW_LENGTH {
        return Err(Refusal::NoRoom);
    }
    Ok(())
}

// The letter of a limit.
fn letter_of(limit: u64) -> u64
    ensures { result ≡ letter limit }
{
    if limit == 1 { LETTER_T } else { LETTER_F }
}

// Stores the row of six numbers from byte `at` on: three words that overlap, the date over the zeros beside the others.
#[inline]
fn put_columns(out: &mut [u8], at: usize, six: Numbers)
    requires { (at + row_length ≤ length out.old) × InFields six }
    ensures { out.new ≡ sets out.old at (row_bytes (named_by six)) }
{
    let l = letter_of(six.limit);
    let bits = six.magnitude % 0x1_0000;
    let low = l * 0x100_0000_0000 + bits * 0x100_0000 + six.error * 0x100 + six.filter;
    packing::inner::store_whole(Order::Big, out, at, six.star * 0x1_0000_0000);
    packing::inner::store_whole(Order::Big, out, at + 10, low);
    packing::inner::store_whole(Order::Big, out, at + 4, six.date);
}

// Stores a record's row at the front.
pub fn put_row(out: &mut [u8], found: Record)
    requires { (row_length ≤ length out.old) × (fits found ≡ true) }
    ensures { out.new ≡ sets out.old 0 (row_bytes found) }
{
    put_columns(out, 0, Numbers::from(found))
}

// Whether the numbers of a row are those of a record.
// (They are no record::inner::Numbers: a letter stands for the limit, and every magnitude will do. There is one call.)
fn numbers_good(star: u64, date: u64, letter: u64, error: u64, filter: u64) -> bool
    ensures { result ≡ (ltb star (2 ^ star_bits) && (ltb date (2 ^ date_bits) && ((eqb letter letter_t || eqb letter letter_f) && (ltb error (2 ^ error_bits) && ltb filter (2 ^ filter_bits))))) }
{
    if star < 0x10_0000 && date < 0x40_0000_0000 && error < 0x400 && filter < 16 {
        return letter == LETTER_T || letter == LETTER_F;
    }
    false
}

// Whether the row from byte `at` on says a record: by three words that overlap.
fn row_good(src: &[u8], at: usize) -> bool
    requires { (at + row_length ≤ length src.now) × (length src.now ≤ longest) }
    ensures { result ≡ in_range (columns_at src.now (8 * at)) }
{
    let high = words::inner::load_whole(Order::Big, src, at);
    let date = words::inner::load_whole(Order::Big, src, at + 4);
    let low = words::inner::load_whole(Order::Big, src, at + 10);
    numbers_good(
        high / 0x1_0000_0000,
        date,
        low / 0x100_0000_0000 % 0x100,
        low / 0x100 % 0x1_0000,
        low % 0x100,
    )
}

// 1 for the letter T, else 0.
fn limit_of(letter: u64) -> u8
    ensures { result ≡ cond (eqb letter letter_t) 1 0 }
{
    if letter == LETTER_T { 1 } else { 0 }
}

// The record of a row that says one.
pub fn row_at(src: &[u8], at: usize) -> Record
    requires { (at + row_length ≤ length src.now) × (length src.now ≤ longest) × (in_range (columns_at src.now (8 * at)) ≡ true) }
    ensures { result ≡ record_said (columns_at src.now (8 * at)) }
{
    let high = words::inner::load_whole(Order::Big, src, at);
    let date = words::inner::load_whole(Order::Big, src, at + 4);
    let low = words::inner::load_whole(Order::Big, src, at + 10);
    Record {
        star: (high / 0x1_0000_0000) as u32,
        date: date,
        limit: limit_of(low / 0x100_0000_0000 % 0x100),
        magnitude: sign::inner::extend(low / 0x100_0000 % 0x1_0000, 16) as i16,
        error: (low / 0x100 % 0x1_0000) as u16,
        filter: (low % 0x100) as u8,
    }
}

// Tests the reading of a row: 1, then 9 and 11.
pub fn check_read(src: &[u8]) -> Result<(), Refusal>
    ensures { number_of result ≡ read_refusal src.now }
{
    if LONGEST < src.len() {
        return Err(Refusal::TooLong);
    }
    if src.len() < ROW_LENGTH {
        return Err(Refusal::TooFew);
    }
    if !row_good(src, 0) {
        return Err(Refusal::BadRow);
    }
    Ok(())
}

// ---- a strip to rows

// Tests the writing of a strip's rows to `len` bytes: 1, then 8.
pub fn check_rows(strip: &[u8], len: usize) -> Result<(), Refusal>
    ensures { number_of result ≡ rows_refusal strip.now len }
{
    if LONGEST < strip.len() || LONGEST < len {
        return Err(Refusal::TooLong);
    }
    if len < ROW_LENGTH * (8 * strip.len() / RECORD_BITS) {
        return Err(Refusal::NoRoom);
    }
    Ok(())
}

// Stores the row of the record that starts `used` bits into byte `byte`, where 15 bytes are there from that one on: two words moved alike.
fn put_row_used(src: &[u8], byte: usize, used: u32, out: &mut [u8], at: usize)
    requires { (byte + 15 ≤ length src.now) × (used ≤ 7) × (at + row_length ≤ length out.old) }
    ensures { out.new ≡ sets out.old at (row_bytes (record_at src.now (8 * byte + used))) }
{
    let first = words::inner::load_whole(Order::Big, src, byte);
    let second = words::inner::load_whole(Order::Big, src, byte + 7);
    let front = bits::inner::skip_bits(Order::Big, first, used);
    let back = bits::inner::skip_bits(Order::Big, second, used);
    let star = front / 0x1000_0000_0000;
    let date = front / 0x100 % 0x10_0000_0000 * 4 + back / 0x4000_0000_0000_0000;
    let rest = back / 0x8000_0000 % 0x8000_0000;
    put_columns(out, at, strip::inner::numbers_in(star, date, rest));
}

// Stores the row of the record at a place: where 15 bytes are there from its first on, no load tests for the end.
fn put_row_at(src: &[u8], place: usize, out: &mut [u8], at: usize)
    requires { (place + record_bits ≤ 8 * length src.now) × (length src.now ≤ longest) × (at + row_length ≤ length out.old) }
    ensures { out.new ≡ sets out.old at (row_bytes (record_at src.now place)) }
{
    if place + 120 <= 8 * src.len() {
        put_row_used(src, place / 8, (place % 8) as u32, out, at);
    } else {
        let star = words::inner::short_field(Order::Big, src, place, 20);
        let date = words::inner::short_field(Order::Big, src, place + 20, 38);
        let rest = words::inner::short_field(Order::Big, src, place + 58, 31);
        put_columns(out, at, strip::inner::numbers_in(star, date, rest));
    }
}

// Stores the row of record k of eight that start at byte `byte`: 89 k bits are 11 k bytes and k bits.
fn put_nth(src: &[u8], byte: usize, k: u32, out: &mut [u8], at: usize)
    requires { (byte + 92 ≤ length src.now) × (k ≤ 7) × (at + row_length * 8 ≤ length out.old) }
    ensures { out.new ≡ sets out.old (at + row_length * k) (row_bytes (record_at src.now (8 * byte + record_bits * k))) }
{
    let n = k as usize;
    put_row_used(src, byte + 11 * n, k, out, at + ROW_LENGTH * n);
}

// Stores the rows of eight records that start at byte `byte`, where three bytes more than their 89 are there: the loop is unrolled, so that every shift is constant.
fn put_eight(src: &[u8], byte: usize, out: &mut [u8], at: usize)
    requires { (byte + 92 ≤ length src.now) × (at + row_length * 8 ≤ length out.old) }
    ensures { out.new ≡ sets out.old at (rows_bytes (records_from src.now (8 * byte) 8)) }
{
    for k in 0..8 {
        put_nth(src, byte, k, out, at);
    }
}

// Stores the rows of the first records of a strip: eight at a time while more are left, then one at a time.
pub fn put_rows(src: &[u8], count: usize, out: &mut [u8])
    requires { (record_bits * count ≤ 8 * length src.now) × (length src.now ≤ longest) × (row_length * count ≤ length out.old) }
    ensures { out.new ≡ sets out.old 0 (rows_bytes (records_from src.now 0 count)) }
{
    let groups = count.saturating_sub(1) / 8;
    for i in 0..groups {
        put_eight(src, RECORD_BITS * i, out, 8 * ROW_LENGTH * i);
    }
    for i in 8 * groups..count {
        put_row_at(src, RECORD_BITS * i, out, ROW_LENGTH * i);
    }
}

// ---- rows to a strip

// The number of the first of n rows that says no record, from 1; none where each says one.
pub fn first_bad(src: &[u8], n: usize) -> Option<usize>
    requires { (row_length * n ≤ length src.now) × (length src.now ≤ longest) }
    ensures { result ≡ named (bad_from src.now 0 1 n) }
{
    for i in 0..n {
        if !row_good(src, ROW_LENGTH * i) {
            return Some(i + 1);
        }
    }
    None
}

// Tests the packing of rows into `len` bytes: 1 and 8, then the first bad row.
pub fn check_pack(rows: &[u8], len: usize) -> Result<(), PackError>
    ensures { found_told result ≡ found_of rows.now len }
{
    if LONGEST < rows.len() || LONGEST < len {
        return Err(PackError::Refused(Refusal::TooLong));
    }
    if 8 * len / RECORD_BITS < rows.len() / ROW_LENGTH {
        return Err(PackError::Refused(Refusal::NoRoom));
    }
    match first_bad(rows, rows.len() / ROW_LENGTH) {
        Some(row) => Err(PackError::BadRow(row)),
        None => Ok(()),
    }
}

// Packs n rows that say records and flushes; the answer is the strip's length.
pub fn put_records(src: &[u8], n: usize, out: &mut [u8]) -> usize
    requires { (row_length * n ≤ length src.now) × (length src.now ≤ longest) × (length out.old ≤ longest) × (strip_length n ≤ length out.old) × (bad_from src.now 0 1 n ≡ 0) }
    ensures answer { result ≡ strip_length n }
    ensures memory { out.new ≡ sets out.old 0 (strip_bytes (records_in_rows src.now 0 n)) }
{
    let mut c = strip::inner::START;
    for i in 0..n {
        let found = row_at(src, ROW_LENGTH * i);
        c = strip::inner::put_record(out, c, found);
    }
    let last = writer::inner::flush(Order::Big, out, writer::inner::writer_with(c));
    last.written
}
