// A line of text, and the record that it names.
#![tactic(auto)]

ghost use Rattle.bits.specs.Refusals.{told};
ghost use Rattle.record.specs.Record.{no_record};
ghost use Rattle.std.specs.Prelude.{◌≡◌};
ghost use Rattle.line.specs.Reading.{read_line};

use bits::{LONGEST, Refusal};
use record::Record;

pub mod inner;

// The record that a line names, or refusal 1 (past the limit) or 7 (no line). The slice is the line with its newline, and nothing more.
//     let read = line::read_line(b"5,2460523.64817,0,-1.440,0.012,3\n");
//     expect(b"read_line", read == Ok(found));
pub fn read_line(src: &[u8]) -> Result<Record, Refusal>
    ensures { told no_record result ≡ read_line src.now }
{
    if LONGEST < src.len() {
        return Err(Refusal::TooLong);
    }
    let line = inner::line_at(src, 0);
    if line.next < src.len() {
        return Err(Refusal::BadLine);
    }
    line.record.ok_or(Refusal::BadLine)
}
