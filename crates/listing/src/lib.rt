// The line of a record.
#![tactic(auto)]

ghost use Rattle.bits.specs.Refusals.{length_told};
ghost use Rattle.std.specs.Prelude.{◌≡◌, length};
ghost use Rattle.listing.specs.Listing.{write_line, write_out};

use bits::{LONGEST, Refusal};
use record::Record;

pub mod inner;

// Writes a record's line to the front of a lent output, and answers its length. What lies past the line is untouched, and all of the output
// on a refusal: 1 (past the limit), 4 (a number too large for its field), 8 (no room for the line).
//     let wrote = listing::write_line(found, &mut out);
//     expect(b"write_line", wrote == Ok(33));
pub fn write_line(r: Record, out: &mut [u8]) -> Result<usize, Refusal>
    ensures answer { length_told result ≡ write_line r (length out.old) }
    ensures memory { out.new ≡ write_out r out.old }
{
    if LONGEST < out.len() {
        return Err(Refusal::TooLong);
    }
    if !record::inner::fits(r) {
        return Err(Refusal::TooLarge);
    }
    if out.len() < inner::line_size(r) {
        return Err(Refusal::NoRoom);
    }
    Ok(inner::put_line(r, out, 0))
}
