// FITS rows: records as rows of a binary table, and back.
#![tactic(auto)]

ghost use Rattle.record.specs.Record.{no_record};
ghost use Rattle.std.specs.Prelude.{◌≡◌, Some, length};
ghost use Rattle.bits.specs.Refusals.{number_of, told};
ghost use Rattle.rows.specs.declared.PackError.TheVariants.{Refused};
ghost use Rattle.rows.specs.Answers.{rows_told, packed_told, error_number, error_said, row_refusal, row_out, read_of, rows_of, rows_out, packed_of, packed_out};

use bits::Refusal;
use record::{RECORD_BITS, Record};
use std::error::Error;
use std::fmt;

pub mod inner;

// The bytes of a row.
pub const ROW_LENGTH: usize = 18;

// Why rows are not packed: a refusal, or the first row that says no record, by its number from 1.
#[derive(Clone, Copy, Debug, PartialEq, Eq)]
pub enum PackError {
    Refused(Refusal),
    BadRow(usize),
}

impl PackError {
    // The number by which it is known outside Rattle.
    //     let third = rows::PackError::BadRow(3);
    //     expect(b"rows::PackError::number", third.number() == 11);
    pub fn number(self) -> u32
        ensures { result ≡ error_number self }
    {
        match self {
            PackError::Refused(refusal) => refusal.number(),
            PackError::BadRow(_) => Refusal::BadRow.number(),
        }
    }
}

impl fmt::Display for PackError {
    ghost output = { λ error. Some (error_said error) };

    fn fmt<W: fmt::Write>(&self, f: &mut fmt::Formatter<W>) -> fmt::Result {
        match self {
            PackError::Refused(refusal) => write!(f, "{refusal}"),
            PackError::BadRow(row) => write!(f, "row {row} says no record"),
        }
    }
}

impl Error for PackError {}

impl From<Refusal> for PackError {
    ghost from_gives = { λ refusal e. e ≡ Refused refusal };

    fn from(refusal: Refusal) -> PackError {
        PackError::Refused(refusal)
    }
}

// Writes a record's row to the first 18 bytes of an output. Refusals 1, 4 (a number does not fit its field) and 8.
//     let wrote = rows::write_row(found, &mut table);
//     expect(b"write_row", wrote == Ok(()));
pub fn write_row(found: Record, out: &mut [u8]) -> Result<(), Refusal>
    ensures answer { number_of result ≡ row_refusal (length out.old) found }
    ensures memory { out.new ≡ row_out out.old found }
{
    inner::check_row(out.len(), found)?;
    inner::put_row(out, found);
    Ok(())
}

// Reads the record of the row in the first 18 bytes. Refusals 1, 9 and 11 (the row says no record).
//     let read = rows::read_row(&table);
//     expect(b"read_row", read == Ok(found));
pub fn read_row(src: &[u8]) -> Result<Record, Refusal>
    ensures { told no_record result ≡ read_of src.now }
{
    inner::check_read(src)?;
    Ok(inner::row_at(src, 0))
}

// Writes the rows of a strip, and answers their length. Refusals 1 and 8 (no room for a row of every record), before the first byte. A
// strip with a bad tail has no rows, and no length of them. What lies past the rows is untouched.
//     let turned = rows::strip_to_rows(&strip, &mut table);
//     expect(b"strip_to_rows", turned == Ok(Some(18)));
pub fn strip_to_rows(strip: &[u8], out: &mut [u8]) -> Result<Option<usize>, Refusal>
    ensures answer { rows_told result ≡ rows_of strip.now (length out.old) }
    ensures memory { out.new ≡ rows_out strip.now out.old }
{
    inner::check_rows(strip, out.len())?;
    if !strip::inner::tail_good(strip) {
        return Ok(None);
    }
    let count = 8 * strip.len() / RECORD_BITS;
    inner::put_rows(strip, count, out);
    Ok(Some(ROW_LENGTH * count))
}

// Packs rows into a strip, and answers its length. Refusals 1 and 8 (no room for the strip of the whole rows), or the number of the first
// row that says no record, before the first byte. Where the last row is cut there is no strip, and no length of it. What lies past the
// strip is untouched.
//     let packed = rows::rows_to_strip(&table, &mut strip);
//     expect(b"rows_to_strip", packed == Ok(Some(12)));
pub fn rows_to_strip(rows: &[u8], out: &mut [u8]) -> Result<Option<usize>, PackError>
    ensures answer { packed_told result ≡ packed_of rows.now (length out.old) }
    ensures memory { out.new ≡ packed_out rows.now out.old }
{
    inner::check_pack(rows, out.len())?;
    if rows.len() % ROW_LENGTH != 0 {
        return Ok(None);
    }
    Ok(Some(inner::put_records(rows, rows.len() / ROW_LENGTH, out)))
}
