// The example of every public call, as its comment has it, and a message that wraps a strip: what is expected is worked out by hand, and
// each line written says whether the call answered so. `start` is a fresh cursor of the slice that is read, `blank` a fresh writer.
#![tactic(auto)]

ghost use Rattle.std.specs.Prelude.{take};

use bits::{Order, Refusal};
use programs::inner::Job;
use reader::{Cursor, Read};
use record::Record;
use text::PackError;
use typed::Kind;
use vetting::{Rule, Verdict};
use writer::Writer;

fn main(rt: HostRuntime) -> Result<(), Refusal> {
    refusals(&rt);
    reads(&rt)?;
    wide_reads(&rt)?;
    fields(&rt)?;
    counts(&rt)?;
    bytes(&rt)?;
    manual(&rt)?;
    remainders(&rt)?;
    ends(&rt)?;
    borrowed(&rt)?;
    remainder_records(&rt)?;
    writes(&rt)?;
    wide_writes(&rt)?;
    field_writes(&rt)?;
    floats_and_signs(&rt);
    typed_values(&rt)?;
    layouts(&rt)?;
    records(&rt)?;
    lists(&rt)?;
    wrapped(&rt)?;
    vetted(&rt);
    tables(&rt);
    lines(&rt);
    texts(&rt);
    whole_jobs(&rt);
    whole_program(&rt);
    hosts(&rt);
    Ok(())
}

// Writes a call's name, and whether it answered as expected.
fn expect(rt: &impl Print, call: &str, holds: bool) {
    let said = if holds { "holds" } else { "FAILS" };
    let _told = println!(rt; "{call} {said}");
}

fn refusals(rt: &impl Print) {
    expect(rt, "Refusal::number", Refusal::TooFew.number() == 9);
}

fn reads(rt: &impl Print) -> Result<(), Refusal> {
    let made = Cursor::new(b"\x5a\xff");
    expect(rt, "Cursor::new", made.is_ok());

    let far = Cursor::from_parts(9, 0, 0, 72);
    let got = far.read_u8(Order::Big, b"\x5a");
    expect(rt, "Cursor::from_parts", got == Err(Refusal::Foreign));

    let start = Cursor::new(b"\x01\x02")?;
    let got: Read<u16> = start.read(Order::Big, b"\x01\x02")?;
    expect(rt, "read", got.value == 0x0102);

    let start = Cursor::new(b"\x80")?;
    let got = start.read_bit(Order::Big, b"\x80")?;
    expect(rt, "read_bit", got.value);

    let start = Cursor::new(b"\x5a")?;
    let got = start.read_u8(Order::Big, b"\x5a")?;
    expect(rt, "read_u8", got.value == 0x5a);

    let start = Cursor::new(b"\xda")?;
    let got = start.read_i8(Order::Big, b"\xda")?;
    expect(rt, "read_i8", got.value == -38);

    let start = Cursor::new(b"\x01\x02")?;
    let got = start.read_u16(Order::Little, b"\x01\x02")?;
    expect(rt, "read_u16", got.value == 0x0201);

    let start = Cursor::new(b"\xfe\xff")?;
    let got = start.read_i16(Order::Little, b"\xfe\xff")?;
    expect(rt, "read_i16", got.value == -2);

    let start = Cursor::new(b"\x00\x01\x02\x03")?;
    let got = start.read_u32(Order::Big, b"\x00\x01\x02\x03")?;
    expect(rt, "read_u32", got.value == 0x0001_0203);

    let start = Cursor::new(b"\xff\xff\xff\xfe")?;
    let got = start.read_i32(Order::Big, b"\xff\xff\xff\xfe")?;
    expect(rt, "read_i32", got.value == -2);
    Ok(())
}

fn wide_reads(rt: &impl Print) -> Result<(), Refusal> {
    let start = Cursor::new(b"\x3f\x80\x00\x00")?;
    let got = start.read_f32(Order::Big, b"\x3f\x80\x00\x00")?;
    let bits = floats::bits_of_single(got.value);
    expect(rt, "read_f32", bits == 0x3f80_0000);

    let start = Cursor::new(b"\x00\x01\x02\x03\x04\x05\x06\x07")?;
    let got = start.read_u64(Order::Big, b"\x00\x01\x02\x03\x04\x05\x06\x07")?;
    expect(rt, "read_u64", got.value == 0x0001_0203_0405_0607);

    let start = Cursor::new(b"\xfe\xff\xff\xff\xff\xff\xff\xff")?;
    let got = start.read_i64(Order::Little, b"\xfe\xff\xff\xff\xff\xff\xff\xff")?;
    expect(rt, "read_i64", got.value == -2);

    let start = Cursor::new(b"\x3f\xf0\x00\x00\x00\x00\x00\x00")?;
    let got = start.read_f64(Order::Big, b"\x3f\xf0\x00\x00\x00\x00\x00\x00")?;
    let bits = floats::bits_of_double(got.value);
    expect(rt, "read_f64", bits == 0x3ff0_0000_0000_0000);
    Ok(())
}

fn fields(rt: &impl Print) -> Result<(), Refusal> {
    let start = Cursor::new(b"\xa5")?;
    let got = start.read_bits(Order::Big, b"\xa5", 3)?;
    expect(rt, "read_bits", got.value == 5);

    let start = Cursor::new(b"\x8f")?;
    let got = start.read_signed_bits(Order::Big, b"\x8f", 4)?;
    expect(rt, "read_signed_bits", got.value == -8);
    Ok(())
}

fn counts(rt: &impl Print) -> Result<(), Refusal> {
    let start = Cursor::new(b"\x5a\xff")?;

    let left = start.bytes_remaining(Order::Big, b"\x5a\xff");
    expect(rt, "bytes_remaining", left == Ok(2));

    let left = start.unbuffered_bytes_remaining(Order::Big, b"\x5a\xff");
    expect(rt, "unbuffered_bytes_remaining", left == Ok(2));

    let left = start.bits_remaining(Order::Big, b"\x5a\xff");
    expect(rt, "bits_remaining", left == Ok(16));

    let more = start.has_bits_remaining(Order::Big, b"\x5a\xff", 16);
    expect(rt, "has_bits_remaining", more == Ok(true));

    let start = Cursor::new(b"")?;
    let none = start.is_empty(Order::Big, b"");
    expect(rt, "is_empty", none == Ok(true));

    let start = Cursor::new(b"\x5a\xff")?;
    let whole = start.byte_aligned(Order::Big, b"\x5a\xff");
    expect(rt, "byte_aligned", whole == Ok(true));
    Ok(())
}

fn bytes(rt: &impl Print) -> Result<(), Refusal> {
    let start = Cursor::new(b"\x01\x02\x03")?;
    let mut two = [0u8; 2];

    let got = start.read_bytes(Order::Big, b"\x01\x02\x03", &mut two);
    expect(rt, "read_bytes", two[1] == 2);
    expect(rt, "read_bytes", got.is_ok());
    Ok(())
}

fn manual(rt: &impl Print) -> Result<(), Refusal> {
    let start = Cursor::new(b"\xa5\x01")?;

    let moved = start.refill_lookahead(Order::Big, b"\xa5\x01");
    expect(rt, "refill_lookahead", moved.is_ok());
    let full = moved?;

    let ahead = full.lookahead_bits(Order::Big, b"\xa5\x01");
    expect(rt, "lookahead_bits", ahead == Ok(16));

    let seen = full.peek(Order::Big, b"\xa5\x01", 4);
    expect(rt, "peek", seen == Ok(10));

    let moved = full.consume(Order::Big, b"\xa5\x01", 4);
    expect(rt, "consume", moved.is_ok());
    Ok(())
}

fn remainders(rt: &impl Print) -> Result<(), Refusal> {
    let start = Cursor::new(b"\x5a\xff")?;
    let three = start.read_bits(Order::Big, b"\x5a\xff", 3)?;
    let behind = three.cursor;

    let rest = behind.remainder(Order::Big, b"\x5a\xff");
    expect(rt, "remainder", rest.len() == 1);

    let before = behind.partial(Order::Big, b"\x5a\xff")?;
    expect(rt, "partial", before.partial_byte == 0x1a);
    Ok(())
}

fn ends(rt: &impl Print) -> Result<(), Refusal> {
    let start = Cursor::new(b"\x5a\xff")?;

    let cut = start.lower_end(Order::Big, b"\x5a\xff", 8)?;
    let left = cut.bits_remaining(Order::Big, b"\x5a\xff");
    expect(rt, "lower_end", left == Ok(8));
    Ok(())
}

fn borrowed(rt: &impl Print) -> Result<(), Refusal> {
    let start = Cursor::new(b"\xa5\x01")?;

    let moved = lent::refilled(start, Order::Big, b"\xa5\x01");
    expect(rt, "inplace::refill_lookahead", moved.answer == Ok(()));
    let full = moved.cursor;

    let seen = lent::peeked(full, Order::Big, b"\xa5\x01", 4);
    expect(rt, "inplace::peek", seen == Ok(10));

    let moved = lent::consumed(full, Order::Big, b"\xa5\x01", 17);
    let due = Err(Refusal::PastLookahead);
    expect(rt, "inplace::consume", moved.answer == due);

    let moved = lent::lowered(start, Order::Big, b"\xa5\x01", 17);
    let due = Err(Refusal::BadEnd);
    expect(rt, "inplace::lower_end", moved.answer == due);
    Ok(())
}

fn remainder_records(rt: &impl Print) -> Result<(), Refusal> {
    let start = Cursor::new(b"\x5a\xff")?;
    let three = start.read_bits(Order::Big, b"\x5a\xff", 3)?;
    let behind = three.cursor;

    let rest = lent::left(behind, Order::Big, b"\x5a\xff");
    expect(rt, "remainder_record", rest.partial_bits == 5);

    expect(rt, "Remainder::partial_bits", rest.partial_bits == 5);

    expect(rt, "Remainder::partial_byte", rest.partial_byte == 0x1a);

    expect(rt, "Remainder::data", rest.length == 1);
    Ok(())
}

fn writes(rt: &impl Print) -> Result<(), Refusal> {
    let blank = Writer::new(b"")?;
    let mut out = [0u8; 8];

    let made = Writer::new(&out);
    expect(rt, "Writer::new", made.is_ok());

    let wrote = blank.write_bit(Order::Big, &mut out, true);
    expect(rt, "write_bit", wrote.is_ok());

    let _wrote = blank.write_u8(Order::Big, &mut out, 0x5a);
    expect(rt, "write_u8", out[0] == 0x5a);

    let _wrote = blank.write_i8(Order::Big, &mut out, -38);
    expect(rt, "write_i8", out[0] == 0xda);

    let _wrote = blank.write_u16(Order::Little, &mut out, 0x0201);
    expect(rt, "write_u16", out[1] == 2);

    let _wrote = blank.write_i16(Order::Big, &mut out, -2);
    expect(rt, "write_i16", out[1] == 0xfe);

    let _wrote = blank.write_u32(Order::Big, &mut out, 0x0001_0203);
    expect(rt, "write_u32", out[3] == 3);

    let _wrote = blank.write_i32(Order::Big, &mut out, -2);
    expect(rt, "write_i32", out[3] == 0xfe);
    Ok(())
}

fn wide_writes(rt: &impl Print) -> Result<(), Refusal> {
    let blank = Writer::new(b"")?;
    let mut out = [0u8; 8];

    let one = floats::single_of_bits(0x3f80_0000);
    let wrote = blank.write_f32(Order::Big, &mut out, one);
    expect(rt, "write_f32", wrote == Err(Refusal::RetiredKind));

    let _wrote = blank.write_u64(Order::Big, &mut out, 0x0001_0203_0405_0607);
    expect(rt, "write_u64", out[7] == 7);

    let _wrote = blank.write_i64(Order::Big, &mut out, -2);
    expect(rt, "write_i64", out[7] == 0xfe);

    let one = floats::double_of_bits(0x3ff0_0000_0000_0000);
    let _wrote = blank.write_f64(Order::Big, &mut out, one);
    expect(rt, "write_f64", out[1] == 0xf0);
    Ok(())
}

fn field_writes(rt: &impl Print) -> Result<(), Refusal> {
    let blank = Writer::new(b"")?;
    let mut out = [0u8; 8];

    let wrote = blank.write_bits(Order::Big, &mut out, 3, 5);
    expect(rt, "write_bits", wrote.is_ok());
    let next = wrote?;

    let over = next.unaligned_bits(&out);
    expect(rt, "unaligned_bits", over == Ok(3));

    let wrote = next.flush(Order::Big, &mut out);
    expect(rt, "flush", out[0] == 0xa0);
    let last = wrote?;

    let wrote = last.write_signed_bits(Order::Big, &mut out, 8, -1);
    expect(rt, "write_signed_bits", out[1] == 0xff);
    let last = wrote?;

    let _wrote = last.write_bytes(Order::Big, &mut out, b"\x01\x02");
    expect(rt, "write_bytes", out[3] == 2);
    Ok(())
}

fn floats_and_signs(rt: &impl Print) {
    let eight = sign::sign_extend(8, 4);
    expect(rt, "sign_extend", eight == Ok(-8));

    let nan = floats::single_of_bits(0x7fa0_0001);
    let bits = floats::bits_of_single(nan);
    expect(rt, "bits_of_single", bits == 0x7fa0_0001);

    let nan = floats::double_of_bits(0x7ff4_0000_0000_0001);
    let bits = floats::bits_of_double(nan);
    expect(rt, "bits_of_double", bits == 0x7ff4_0000_0000_0001);

    let zero = floats::single_of_bits(0);
    let minus = floats::single_of_bits(0x8000_0000);
    expect(rt, "same_single", !floats::same_single(zero, minus));

    let zero = floats::double_of_bits(0);
    let minus = floats::double_of_bits(0x8000_0000_0000_0000);
    expect(rt, "same_double", !floats::same_double(zero, minus));

    let least = floats::single_of_bits(1);
    let same = floats::double_of_single(least);
    let bits = floats::bits_of_double(same);
    expect(rt, "double_of_single", bits == 0x36a0_0000_0000_0000);
}

fn typed_values(rt: &impl Print) -> Result<(), Refusal> {
    let start = Cursor::new(b"\xfe")?;
    let blank = Writer::new(b"")?;
    let mut out = [0u8; 8];

    let two = typed::typed_of_bits(Kind::Signed, 0xffff_ffff_ffff_fffe);
    let bits = typed::bits_of_typed(two);
    expect(rt, "bits_of_typed", bits == 0xffff_ffff_ffff_fffe);

    let near = typed::typed_of_bits(Kind::Unsigned, 0xffff_ffff_ffff_fffe);
    expect(rt, "same_typed", !typed::same_typed(two, near));

    let zero = typed::typed_of_bits(Kind::Single, 0x8000_0000);
    let wide = typed::widen_typed(zero);
    let bits = typed::bits_of_typed(wide);
    expect(rt, "widen_typed", bits == 0x8000_0000_0000_0000);

    let _wrote = typed::write_typed(blank, Order::Big, &mut out, two, 8);
    expect(rt, "write_typed", out[0] == 0xfe);

    let read = typed::read_typed(start, Order::Big, b"\xfe", Kind::Signed, 8)?;
    let bits = typed::bits_of_typed(read.value);
    expect(rt, "read_typed", bits == 0xffff_ffff_ffff_fffe);
    Ok(())
}

fn layouts(rt: &impl Print) -> Result<(), Refusal> {
    let start = Cursor::new(b"\xbf")?;
    let mut out = [0u8; 8];
    let mut results = [0u64; 2];

    let compiled = layout::compile(b"\x00\x03\x01\x05", &mut out);
    expect(rt, "compile", compiled == Ok(3));

    let checked = layout::check(b"\x00\x43\x85");
    expect(rt, "check", checked == Ok(()));

    let ran = plan::run(start, Order::Big, b"\xbf", b"\x00\x43\x85", &mut results);
    expect(rt, "run", ran.is_ok() && results[0] == 5);
    Ok(())
}

// The estimate 5,2460523.64817,0,-1.440,0.012,3.
fn estimate() -> Record {
    Record {
        star: 5,
        date: 246_052_364_817,
        limit: 0,
        magnitude: -1440,
        error: 12,
        filter: 3,
    }
}

fn records(rt: &impl Print) -> Result<(), Refusal> {
    let blank = Writer::new(b"")?;
    let mut out = [0u8; 12];
    let found = estimate();

    let wrote = strip::pack_record(blank, &mut out, found);
    expect(rt, "pack_record", out[2] == 0x5e);
    let last = wrote?;
    let _ended = last.flush(Order::Big, &mut out);

    let start = Cursor::new(&out)?;
    let read = strip::read_record(start, &out)?;
    expect(rt, "read_record", read.value == found);
    Ok(())
}

fn lists(rt: &impl Print) -> Result<(), Refusal> {
    let mut out = [0u8; 12];
    let mut list = [5u64, 246_052_364_817, 0, 0, 12, 3];

    let packed = strip::pack_strip(&list, 1, &mut out);
    expect(rt, "pack_strip", packed == Ok(12));

    let read = strip::read_strip(&out, &mut list)?;
    expect(rt, "read_strip", read.tail_good);
    Ok(())
}

// A message of a header byte, a strip of 12 bytes (the worked record of docs/FORMAT.md) and words behind it.
fn wrapped(rt: &impl Print) -> Result<(), Refusal> {
    let message = *b"\x7e\x00\x00\x5e\x52\x77\x48\x84\x5f\x4c\x00\x61\x80dome 4, done";
    let start = Cursor::new(&message)?;

    // The header, and then the end put behind the strip: at bit 8 + 8 * 12.
    let header = start.read_u8(Order::Big, &message)?;
    expect(rt, "wrapped strip", header.value == 0x7e);
    let within = header.cursor;
    let cut = within.lower_end(Order::Big, &message, 104)?;

    // Records, until 9 is answered: without the end the words would be the second one.
    let first = strip::read_record(cut, &message)?;
    expect(rt, "wrapped strip", first.value.date == 246_052_364_817);
    let behind = first.cursor;
    let second = strip::read_record(behind, &message);
    expect(rt, "wrapped strip", second == Err(Refusal::TooFew));

    // The rest up to the end: no whole byte, and the tail's seven bits, which are 0.
    let rest = behind.remainder(Order::Big, &message);
    expect(rt, "wrapped strip", rest.len() == 0);
    let tail = behind.partial(Order::Big, &message)?;
    expect(rt, "wrapped strip", tail.partial_bits == 7);
    expect(rt, "wrapped strip", tail.partial_byte == 0);

    // The words: the message from byte 104 / 8 on.
    let words = &message[13..];
    expect(rt, "wrapped strip", words[0] == b'd');
    Ok(())
}

fn vetted(rt: &impl Print) {
    let zeros = [0u8; 12];
    let verdict = vetting::vet_strip(&zeros);
    let fault = Verdict::Broken {
        record: 1,
        rule: Rule::Error,
    };
    expect(rt, "vet_strip", verdict == Ok(fault));

    expect(rt, "Rule::number", Rule::Error.number() == 3);
}

fn tables(rt: &impl Print) {
    let mut table = [0u8; 18];
    let mut strip = *b"\x00\x00\x5e\x52\x77\x48\x84\x5f\x4c\x00\x61\x80";
    let found = estimate();

    let wrote = rows::write_row(found, &mut table);
    expect(rt, "write_row", wrote == Ok(()));

    let read = rows::read_row(&table);
    expect(rt, "read_row", read == Ok(found));

    let turned = rows::strip_to_rows(&strip, &mut table);
    expect(rt, "strip_to_rows", turned == Ok(Some(18)));

    let packed = rows::rows_to_strip(&table, &mut strip);
    expect(rt, "rows_to_strip", packed == Ok(Some(12)));

    let third = rows::PackError::BadRow(3);
    expect(rt, "rows::PackError::number", third.number() == 11);
}

fn lines(rt: &impl Print) {
    let mut out = [0u8; 41];
    let found = estimate();

    let read = line::read_line(b"5,2460523.64817,0,-1.440,0.012,3\n");
    expect(rt, "read_line", read == Ok(found));

    let wrote = listing::write_line(found, &mut out);
    expect(rt, "write_line", wrote == Ok(33));
}

fn texts(rt: &impl Print) {
    let mut out = [0u8; 64];

    let listed = text::list_text(b"\x00", &mut out);
    expect(rt, "list_text", listed == Ok(40));

    let packed = text::pack_text(b"star,date\n", &mut out);
    expect(rt, "pack_text", packed == Err(PackError::BadLine(1)));

    let headless = PackError::BadLine(1);
    expect(rt, "text::PackError::number", headless.number() == 7);
}

fn whole_jobs(rt: &impl Print) {
    let mut out = [0u8; 64];

    let answer = jobs::list_answer(b"\x00", &mut out);
    expect(rt, "list_answer", answer == Ok(40));

    let answer = jobs::pack_answer(b"star,date\n", &mut out);
    expect(rt, "pack_answer", answer == Ok(11));

    let answer = jobs::rows_answer(b"\x00", &mut out);
    expect(rt, "rows_answer", answer == Ok(9));

    let answer = jobs::pack_rows_answer(b"star", &mut out);
    expect(rt, "pack_rows_answer", answer == Ok(9));

    let answer = jobs::check_answer(b"\x00", &mut out);
    expect(rt, "check_answer", answer == Ok(9));
}

// A job that says no limit: the first ten bytes of what is read.
struct Firsts;

impl Job for Firsts {
    ghost answer = { take 10 };

    ghost room = { 10 };

    fn answer(input: &[u8], out: &mut [u8]) -> usize {
        let n = input.len().min(10);
        out[..n].copy_from_slice(&input[..n]);
        n
    }
}

// The job done on more than ten bytes: the line `run holds`, by `run` itself.
fn whole_program(rt: &(impl Print + Eprint)) {
    let mut given: &[u8] = b"run holds\nand no more";
    programs::inner::run::<Firsts>(&mut given, rt, &mut [0u8; 65537], &mut [0u8; 10]);
}

fn hosts(rt: &impl Print) {
    let number = host::strip_refusal(1, 4, 21, b"\x00\x00\x5e");
    expect(rt, "strip_refusal", number == 9);

    let value = host::strip_value(1, 0, 20, b"\x00\x00\x5e");
    expect(rt, "strip_value", value == 5);
}
