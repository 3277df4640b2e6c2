// The strip: records of 89 bits, big endian, one behind the other, and zeros up to a byte.
#![tactic(auto)]

ghost use Rattle.reader.specs.Answers.{read_told};
ghost use Rattle.record.specs.Record.{no_record};
ghost use Rattle.bits.specs.Refusals.{length_told};
ghost use Rattle.std.specs.Prelude.{◌≡◌, length};
ghost use Rattle.writer.specs.Answers.{wrote_told};
ghost use Rattle.strip.specs.Answers.{strip_told, pack_of, pack_out, read_of, strip_of, packed_out, list_of, list_out};

use bits::{Order, Refusal};
use reader::{Cursor, Read};
use record::{RECORD_BITS, Record};
use writer::Writer;

pub mod inner;

// How many records a strip has, and whether the bits behind them are under eight and all zero. (A bad tail leaves the count as it is.)
#[derive(Clone, Copy, Debug, PartialEq, Eq)]
pub struct StripRead {
    pub count: usize,
    pub tail_good: bool,
}

// Writes a record's 89 bits. Refusals 1, 2, 4 (a number does not fit its field) and 8, before the first bit.
//     let wrote = strip::pack_record(blank, &mut out, found);
//     expect(b"pack_record", out[2] == 0x5e);
pub fn pack_record(writer: Writer, out: &mut [u8], found: Record) -> Result<Writer, Refusal>
    ensures answer { wrote_told writer result ≡ pack_of (length out.old) writer found }
    ensures memory { out.new ≡ pack_out out.old writer found }
{
    inner::check_pack(out.len(), writer, found)?;
    let state = inner::put_record(out, writer::inner::state_in(writer), found);
    Ok(writer::inner::writer_with(state))
}

// Reads the record at a cursor. Refusals 1, 2 and 9. The cursor behind it holds fewer than eight bits.
//     let read = strip::read_record(start, &out)?;
//     expect(b"read_record", read.value == found);
pub fn read_record(cursor: Cursor, src: &[u8]) -> Result<Read<Record>, Refusal>
    ensures { read_told no_record cursor result ≡ read_of src.now cursor }
{
    inner::check_read(src, cursor)?;
    let place = reader::inner::place_of(src, cursor);
    Ok(Read {
        value: inner::record_at(src, place),
        cursor: reader::inner::gone_to(Order::Big, src, cursor, place + RECORD_BITS),
    })
}

// Packs the first n records of a list of numbers, six a record, into a strip, and answers its length. Refusals 1, 4 and 8 (also for
// fewer than 6 n numbers), before the first byte; what lies past the strip is untouched.
//     let packed = strip::pack_strip(&list, 1, &mut out);
//     expect(b"pack_strip", packed == Ok(12));
pub fn pack_strip(numbers: &[u64], n: usize, out: &mut [u8]) -> Result<usize, Refusal>
    ensures answer { length_told result ≡ strip_of numbers.now n (length out.old) }
    ensures memory { out.new ≡ packed_out numbers.now n out.old }
{
    inner::check_strip(numbers, n, out.len())?;
    Ok(inner::put_strip(numbers, n, out))
}

// Reads every record of a strip into a list of numbers, six a record. Refusals 1 and 8; the rest of the list is untouched.
//     let read = strip::read_strip(&out, &mut list)?;
//     expect(b"read_strip", read.tail_good);
pub fn read_strip(src: &[u8], numbers: &mut [u64]) -> Result<StripRead, Refusal>
    ensures answer { strip_told result ≡ list_of src.now (length numbers.old) }
    ensures memory { numbers.new ≡ list_out src.now numbers.old }
{
    inner::check_list(src, numbers.len())?;
    let count = 8 * src.len() / RECORD_BITS;
    inner::put_numbers(src, count, numbers);
    Ok(StripRead {
        count: count,
        tail_good: inner::tail_good(src),
    })
}
