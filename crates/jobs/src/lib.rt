// Whole jobs: all that a program reads to all that it writes.
#![tactic(auto)]

ghost use Rattle.bits.specs.Refusals.{length_told};
ghost use Rattle.std.specs.Prelude.{◌≡◌, length};
ghost use Rattle.jobs.specs.Jobs.{list_answer, pack_answer, rows_answer, pack_rows_answer, check_answer};
ghost use Rattle.jobs.specs.Answers.{answered_of, answered_out};

use bits::Refusal;
use rows::ROW_LENGTH;
use vetting::Verdict;

pub mod inner;

// The most bytes that a job takes.
const MOST_TAKEN: usize = 65536;

// All that striplist writes for a strip: its text, or `too long` for more than 65,536 bytes. Refusals 1 and 8, for the output alone and
// before the first byte; what lies past the answer is untouched.
//     let answer = jobs::list_answer(b"\x00", &mut out);
//     expect(b"list_answer", answer == Ok(40));
pub fn list_answer(input: &[u8], out: &mut [u8]) -> Result<usize, Refusal>
    ensures answer { length_told result ≡ answered_of (list_answer input.now) (length out.old) }
    ensures memory { out.new ≡ answered_out (list_answer input.now) out.old }
{
    if MOST_TAKEN < input.len() {
        return inner::say(b"too long\n", out);
    }
    text::list_text(input, out)
}

// All that strippack writes for a text: its strip, `bad line N` for the first bad line, or `too long` for more than 65,536 bytes. Refusals
// 1 and 8, for the output alone and before the first byte; what lies past the answer is untouched.
//     let answer = jobs::pack_answer(b"star,date\n", &mut out);
//     expect(b"pack_answer", answer == Ok(11));
pub fn pack_answer(input: &[u8], out: &mut [u8]) -> Result<usize, Refusal>
    ensures answer { length_told result ≡ answered_of (pack_answer input.now) (length out.old) }
    ensures memory { out.new ≡ answered_out (pack_answer input.now) out.old }
{
    if MOST_TAKEN < input.len() {
        return inner::say(b"too long\n", out);
    }
    match text::pack_text(input, out) {
        Ok(length) => Ok(length),
        Err(text::PackError::BadLine(line)) => inner::say_numbered(b"bad line ", line as u32, out),
        Err(text::PackError::Refused(refusal)) => Err(refusal),
    }
}

// All that striprows writes for a strip: its rows, `bad tail` where its tail is bad, or `too long` for more than 65,536 bytes. Refusals 1
// and 8, for the output alone and before the first byte; what lies past the answer is untouched.
//     let answer = jobs::rows_answer(b"\x00", &mut out);
//     expect(b"rows_answer", answer == Ok(9));
pub fn rows_answer(input: &[u8], out: &mut [u8]) -> Result<usize, Refusal>
    ensures answer { length_told result ≡ answered_of (rows_answer input.now) (length out.old) }
    ensures memory { out.new ≡ answered_out (rows_answer input.now) out.old }
{
    if MOST_TAKEN < input.len() {
        return inner::say(b"too long\n", out);
    }
    if !strip::inner::tail_good(input) {
        return inner::say(b"bad tail\n", out);
    }
    Ok(rows::strip_to_rows(input, out)?.unwrap())
}

// All that rowspack writes for rows: their strip, `bad row N` for the first bad row, `bad tail` where the last row is cut, or `too long`
// for more than 65,536 bytes. Refusals 1 and 8, for the output alone and before the first byte; what lies past the answer is untouched.
//     let answer = jobs::pack_rows_answer(b"star", &mut out);
//     expect(b"pack_rows_answer", answer == Ok(9));
pub fn pack_rows_answer(input: &[u8], out: &mut [u8]) -> Result<usize, Refusal>
    ensures answer { length_told result ≡ answered_of (pack_rows_answer input.now) (length out.old) }
    ensures memory { out.new ≡ answered_out (pack_rows_answer input.now) out.old }
{
    if MOST_TAKEN < input.len() {
        return inner::say(b"too long\n", out);
    }
    if let Some(row) = rows::inner::first_bad(input, input.len() / ROW_LENGTH) {
        return inner::say_numbered(b"bad row ", row as u32, out);
    }
    if input.len() % ROW_LENGTH != 0 {
        return inner::say(b"bad tail\n", out);
    }
    match rows::rows_to_strip(input, out) {
        Ok(length) => Ok(length.unwrap()),
        Err(rows::PackError::Refused(refusal)) => Err(refusal),
        Err(rows::PackError::BadRow(_)) => unreachable!(),
    }
}

// All that stripcheck writes for a strip: `ok` where it keeps the rules and its tail is good, `record N rule R` for the first record at
// fault, `bad tail`, or `too long` for more than 65,536 bytes. Refusals 1 and 8, for the output alone and before the first byte; what lies
// past the answer is untouched.
//     let answer = jobs::check_answer(b"\x00", &mut out);
//     expect(b"check_answer", answer == Ok(9));
pub fn check_answer(input: &[u8], out: &mut [u8]) -> Result<usize, Refusal>
    ensures answer { length_told result ≡ answered_of (check_answer input.now) (length out.old) }
    ensures memory { out.new ≡ answered_out (check_answer input.now) out.old }
{
    if MOST_TAKEN < input.len() {
        return inner::say(b"too long\n", out);
    }
    match vetting::inner::verdict(input) {
        Verdict::Fine => inner::say(b"ok\n", out),
        Verdict::Broken { record, rule } => inner::say_fault(record as u32, rule.number(), out),
        Verdict::BadTail => inner::say(b"bad tail\n", out),
    }
}
