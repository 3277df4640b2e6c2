// The parts of listing and packing whole texts, for proved callers.
ghost use Rattle.std.specs.Prelude.{◌≡◌, true, cond, Result, Ok, Err, ◌+◌, ◌*◌, ◌≤◌, length};
ghost use Rattle.std.proofs.lemmas.List.Edits.{sets};
ghost use Rattle.bits.specs.Refusals.{longest, number_of};
ghost use Rattle.strip.specs.Strip.{strip_length, strip_bytes};
ghost use Rattle.text.specs.Text.{header, text_of, headed, body_of, bad_line_of};
ghost use Rattle.text.specs.Answers.{list_refusal, found_told, found_of};

use crate::PackError;
use bits::{LONGEST, Order, Refusal};
use record::RECORD_BITS;

// The header line, and the last line of a strip whose tail is bad.
const HEADER: &[u8] = b"star,date,limit,mag,err,filter\n";

const BAD_TAIL: &[u8] = b"bad tail\n";

// ---- listing

// How many bytes the text of a strip has.
fn text_size(strip: &[u8]) -> usize
    requires { length strip.now ≤ longest }
    ensures { result ≡ length (text_of strip.now) }
{
    let mut size = HEADER.len();
    let count = 8 * strip.len() / RECORD_BITS;
    for i in 0..count {
        size += listing::inner::line_size(strip::inner::record_at(strip, RECORD_BITS * i));
    }
    if strip::inner::tail_good(strip) {
        return size;
    }
    size + BAD_TAIL.len()
}

// No line has more bytes.
const LONGEST_LINE: usize = 41;

// Whether listing into `len` bytes is refused. Where there is room for the longest lines, none is looked at.
pub fn check_list(strip: &[u8], len: usize) -> Result<(), Refusal>
    ensures { number_of result ≡ list_refusal strip.now len }
{
    if LONGEST < strip.len() {
        return Err(Refusal::TooLong);
    }
    if LONGEST < len {
        return Err(Refusal::TooLong);
    }
    if LONGEST_LINE * (8 * strip.len() / RECORD_BITS) + HEADER.len() + BAD_TAIL.len() <= len {
        return Ok(());
    }
    if len < text_size(strip) {
        return Err(Refusal::NoRoom);
    }
    Ok(())
}

// Puts bytes at a place of an output that has room for them, and answers the place behind them.
pub fn put(some: &[u8], out: &mut [u8], at: usize) -> usize
    requires { at + length some.now ≤ length out.old }
    ensures answer { result ≡ at + length some.now }
    ensures memory { out.new ≡ sets out.old at some.now }
{
    let end = at + some.len();
    out[at..end].copy_from_slice(some);
    end
}

// Writes the text of a strip; the answer is its length.
pub fn put_text(strip: &[u8], out: &mut [u8]) -> usize
    requires { (length strip.now ≤ longest) × (length (text_of strip.now) ≤ length out.old) }
    ensures answer { result ≡ length (text_of strip.now) }
    ensures memory { out.new ≡ sets out.old 0 (text_of strip.now) }
{
    let mut at = put(HEADER, out, 0);
    let count = 8 * strip.len() / RECORD_BITS;
    for i in 0..count {
        at = listing::inner::put_line(strip::inner::record_at(strip, RECORD_BITS * i), out, at);
    }
    if strip::inner::tail_good(strip) {
        return at;
    }
    put(BAD_TAIL, out, at)
}

// ---- packing

// Counts the lines behind the header, unless one is bad. (By a place: a line ends where its reading does, which no iterator tells.)
fn count_lines(text: &[u8]) -> Result<usize, PackError>
    requires { headed header text.now ≡ true }
    ensures { result ≡ cond (body_of text.now).good (Ok (length (body_of text.now).records)) (Err (PackError.BadLine (bad_line_of text.now))) }
{
    let mut at = HEADER.len();
    let mut count: usize = 0;
    while at < text.len() {
        let line = line::inner::line_at(text, at);
        if line.record.is_none() {
            return Err(PackError::BadLine(count + 2));
        }
        at = line.next;
        count += 1;
    }
    Ok(count)
}

// Whether packing a text into `len` bytes is refused, or fails at a bad line.
pub fn check_pack(text: &[u8], len: usize) -> Result<(), PackError>
    ensures { found_told result ≡ found_of text.now len }
{
    if LONGEST < text.len() {
        return Err(PackError::Refused(Refusal::TooLong));
    }
    if LONGEST < len {
        return Err(PackError::Refused(Refusal::TooLong));
    }
    if !text.starts_with(HEADER) {
        return Err(PackError::BadLine(1));
    }
    let count = count_lines(text)?;
    if 8 * len / RECORD_BITS < count {
        return Err(PackError::Refused(Refusal::NoRoom));
    }
    Ok(())
}

// Packs the lines of a good text and flushes; the answer is the strip's length. (By a place, as the count of lines.)
pub fn put_records(text: &[u8], out: &mut [u8]) -> usize
    requires { (length header ≤ length text.now) × (length text.now ≤ longest) × (length out.old ≤ longest) × ((body_of text.now).good ≡ true) × (strip_length (length (body_of text.now).records) ≤ length out.old) }
    ensures answer { result ≡ strip_length (length (body_of text.now).records) }
    ensures memory { out.new ≡ sets out.old 0 (strip_bytes (body_of text.now).records) }
{
    let mut c = strip::inner::START;
    let mut at = HEADER.len();
    while at < text.len() {
        let line = line::inner::line_at(text, at);
        c = strip::inner::put_record(out, c, line.record.unwrap());
        at = line.next;
    }
    let last = writer::inner::flush(Order::Big, out, writer::inner::writer_with(c));
    last.written
}
