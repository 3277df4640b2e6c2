// Records and strips where the tests are made, for proved callers.
ghost use Rattle.std.specs.Prelude.{◌≡◌, true, [], ◌∷◌, ◌+◌, ◌*◌, ◌/◌, ◌%◌, ◌^◌, ◌<◌, ◌≤◌, length, drop};
ghost use Rattle.std.proofs.lemmas.List.Edits.{sets};
ghost use Rattle.bits.specs.Refusals.{longest, number_of};
ghost use Rattle.bits.specs.Signed.{signed, pattern};
ghost use Rattle.packing.specs.Packing.{Belongs, bits_written, put, put_out};
ghost use Rattle.record.specs.Record.{fits, named, InFields, record_bits};
ghost use Rattle.strip.specs.Bits.{bits_of, record_at};
ghost use Rattle.strip.specs.Strip.{numbers_of, record_in, records_in, all_fit, all_numbers, strip_length, strip_bytes, records_from, tail_good as tailGood_of};
ghost use Rattle.strip.specs.Answers.{pack_refusal, read_refusal, strip_refusal, list_refusal};

use bits::{LONGEST, Order, Refusal};
use packing::State;
use reader::Cursor;
use record::inner::Numbers;
use record::{RECORD_BITS, Record};
use writer::Writer;

// The bits of a record's last four fields.
const LAST_FOUR: u32 = 31;

// The state in which nothing is written yet.
pub const START: State = State {
    written: 0,
    held: 0,
    number: 0,
};

// ---- one record

// Tests the packing of a record: 1 and 2, then 4 and 8.
pub fn check_pack(len: usize, w: Writer, found: Record) -> Result<(), Refusal>
    ensures { number_of result ≡ pack_refusal len w found }
{
    packing::inner::check(len, writer::inner::state_in(w))?;
    if record::inner::fits(found) {
        return writer::inner::check_room(len, w, RECORD_BITS);
    }
    Err(Refusal::TooLarge)
}

// The six numbers as one of 89 bits behind those written: 56 bits, then 33.
#[inline]
fn put_six(out: &mut [u8], c: State, six: Numbers) -> State
    requires { Belongs (length out.old) c × (bits_written c + record_bits ≤ 8 * length out.old) × InFields six }
    ensures answer { result ≡ put Order.Big c record_bits (bits_of (named six)) }
    ensures memory { out.new ≡ put_out Order.Big out.old c record_bits (bits_of (named six)) }
{
    let high = six.star * 0x10_0000_0000 + six.date / 4;
    let low = six.date % 4 * 0x8000_0000
        + six.limit * 0x4000_0000
        + six.magnitude % 0x1_0000 * 0x4000
        + six.error * 16
        + six.filter;
    let middle = packing::inner::put_bits(Order::Big, out, c, 56, high);
    packing::inner::put_bits(Order::Big, out, middle, 33, low)
}

// A record behind what was written.
pub fn put_record(out: &mut [u8], c: State, found: Record) -> State
    requires { Belongs (length out.old) c × (bits_written c + record_bits ≤ 8 * length out.old) × (fits found ≡ true) }
    ensures answer { result ≡ put Order.Big c record_bits (bits_of found) }
    ensures memory { out.new ≡ put_out Order.Big out.old c record_bits (bits_of found) }
{
    put_six(out, c, Numbers::from(found))
}

// Tests the reading of a record: 1 and 2, then 9.
pub fn check_read(src: &[u8], c: Cursor) -> Result<(), Refusal>
    ensures { number_of result ≡ read_refusal src.now c }
{
    reader::inner::check(Order::Big, src, c)?;
    if reader::inner::bits_left(src, c) < RECORD_BITS {
        return Err(Refusal::TooFew);
    }
    Ok(())
}

// The record at a place: by windows of 64 bits, the last four fields out of one.
pub fn record_at(src: &[u8], place: usize) -> Record
    requires { (place + record_bits ≤ 8 * length src.now) × (length src.now ≤ longest) }
    ensures { result ≡ record_at src.now place }
{
    let star = words::inner::short_field(Order::Big, src, place, 20);
    let date = words::inner::short_field(Order::Big, src, place + 20, 38);
    let rest = words::inner::short_field(Order::Big, src, place + 58, LAST_FOUR);
    Record {
        star: star as u32,
        date: date,
        limit: (rest / 0x4000_0000) as u8,
        magnitude: sign::inner::extend(rest / 0x4000 % 0x1_0000, 16) as i16,
        error: (rest / 16 % 0x400) as u16,
        filter: (rest % 16) as u8,
    }
}

// ---- whole strips

// The six numbers of a list from a place on.
#[inline]
fn numbers_at(numbers: &[u64], at: usize) -> Numbers
    requires { at + 6 ≤ length numbers.now }
    ensures { named result ≡ record_in (drop at numbers.now) }
{
    Numbers {
        star: numbers[at],
        date: numbers[at + 1],
        limit: numbers[at + 2],
        magnitude: numbers[at + 3],
        error: numbers[at + 4],
        filter: numbers[at + 5],
    }
}

// Whether the first n records of a list fit.
fn all_fit(numbers: &[u64], n: usize) -> bool
    requires { 6 * n ≤ length numbers.now }
    ensures { result ≡ all_fit (records_in n numbers.now) }
{
    for i in 0..n {
        if !numbers_at(numbers, 6 * i).fit() {
            return false;
        }
    }
    true
}

// Tests the packing of n records: 1, then 4 and 8.
pub fn check_strip(numbers: &[u64], n: usize, len: usize) -> Result<(), Refusal>
    ensures { number_of result ≡ strip_refusal numbers.now n len }
{
    if LONGEST < len {
        return Err(Refusal::TooLong);
    }
    let there = n.min(numbers.len() / 6);
    if !all_fit(numbers, there) {
        return Err(Refusal::TooLarge);
    }
    if there < n || 8 * len / RECORD_BITS < n {
        return Err(Refusal::NoRoom);
    }
    Ok(())
}

// Packs n records and flushes; the answer is the strip's length.
pub fn put_strip(numbers: &[u64], n: usize, out: &mut [u8]) -> usize
    requires { (6 * n ≤ length numbers.now) × (strip_length n ≤ length out.old) × (length out.old ≤ longest) × (all_fit (records_in n numbers.now) ≡ true) }
    ensures answer { result ≡ strip_length n }
    ensures memory { out.new ≡ sets out.old 0 (strip_bytes (records_in n numbers.now)) }
{
    let mut c = START;
    for i in 0..n {
        c = put_six(out, c, numbers_at(numbers, 6 * i));
    }
    let last = writer::inner::flush(Order::Big, out, writer::inner::writer_with(c));
    last.written
}

// Tests the reading of a strip into a list of `room` numbers: 1, then 8.
pub fn check_list(src: &[u8], room: usize) -> Result<(), Refusal>
    ensures { number_of result ≡ list_refusal src.now room }
{
    if LONGEST < src.len() {
        return Err(Refusal::TooLong);
    }
    if room < 6 * (8 * src.len() / RECORD_BITS) {
        return Err(Refusal::NoRoom);
    }
    Ok(())
}

// The six numbers of a record, the last four out of one of 31 bits.
#[inline]
pub fn numbers_in(star: u64, date: u64, rest: u64) -> Numbers
    ensures { result ≡ (record { star = star; date = date; limit = rest / 2 ^ 30; magnitude = pattern 64 (signed 16 (rest / 2 ^ 14 % 2 ^ 16)); error = rest / 2 ^ 4 % 2 ^ 10; filter = rest % 2 ^ 4 }) }
{
    Numbers {
        star,
        date,
        limit: rest / 0x4000_0000,
        magnitude: sign::inner::widened(rest / 0x4000 % 0x1_0000, 16),
        error: rest / 16 % 0x400,
        filter: rest % 16,
    }
}

// Stores a record's six numbers, the last four out of one of 31 bits.
fn put_parts(numbers: &mut [u64], at: usize, star: u64, date: u64, rest: u64)
    requires { at + 6 ≤ length numbers.old }
    ensures { numbers.new ≡ sets numbers.old at (star ∷ date ∷ rest / 2 ^ 30 ∷ pattern 64 (signed 16 (rest / 2 ^ 14 % 2 ^ 16)) ∷ rest / 2 ^ 4 % 2 ^ 10 ∷ rest % 2 ^ 4 ∷ []) }
{
    let six = numbers_in(star, date, rest);
    numbers[at] = six.star;
    numbers[at + 1] = six.date;
    numbers[at + 2] = six.limit;
    numbers[at + 3] = six.magnitude;
    numbers[at + 4] = six.error;
    numbers[at + 5] = six.filter;
}

// Stores the six numbers of the record at a place: if 64 bits are there from its last 31 on, no load tests for the end.
fn put_numbers_at(src: &[u8], place: usize, numbers: &mut [u64], at: usize)
    requires { (place + record_bits ≤ 8 * length src.now) × (length src.now ≤ longest) × (at + 6 ≤ length numbers.old) }
    ensures { numbers.new ≡ sets numbers.old at (numbers_of (record_at src.now place)) }
{
    if place + 122 <= 8 * src.len() {
        let star = words::inner::whole_field(Order::Big, src, place, 20);
        let date = words::inner::whole_field(Order::Big, src, place + 20, 38);
        let rest = words::inner::whole_field(Order::Big, src, place + 58, LAST_FOUR);
        put_parts(numbers, at, star, date, rest);
    } else {
        let star = words::inner::short_field(Order::Big, src, place, 20);
        let date = words::inner::short_field(Order::Big, src, place + 20, 38);
        let rest = words::inner::short_field(Order::Big, src, place + 58, LAST_FOUR);
        put_parts(numbers, at, star, date, rest);
    }
}

// Stores the numbers of the first records of a strip.
pub fn put_numbers(src: &[u8], count: usize, numbers: &mut [u64])
    requires { (record_bits * count ≤ 8 * length src.now) × (length src.now ≤ longest) × (6 * count ≤ length numbers.old) }
    ensures { numbers.new ≡ sets numbers.old 0 (all_numbers (records_from src.now 0 count)) }
{
    for i in 0..count {
        put_numbers_at(src, RECORD_BITS * i, numbers, 6 * i);
    }
}

// Whether the bits behind the last record are under eight, and all zero.
pub fn tail_good(src: &[u8]) -> bool
    requires { length src.now ≤ longest }
    ensures { result ≡ tailGood_of src.now }
{
    let bits = 8 * src.len() % RECORD_BITS;
    bits < 8 && words::inner::short_field(Order::Big, src, 8 * src.len() - bits, bits as u32) == 0
}
