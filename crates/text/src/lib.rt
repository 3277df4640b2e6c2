// Whole texts: a strip as text, and a text as a strip.
#![tactic(auto)]

ghost use Rattle.bits.specs.Refusals.{length_told};
ghost use Rattle.std.specs.Prelude.{◌≡◌, Some, Err, length};
ghost use Rattle.text.specs.declared.PackError.TheVariants.{Refused};
ghost use Rattle.text.specs.Answers.{list_of, list_out, packed_told, error_said, pack_of, pack_out};

use bits::Refusal;
use std::error::Error;
use std::fmt;

pub mod inner;

// Why a text is not packed: by a refusal, or by its first bad line, whose number is told, the header being line 1.
#[derive(Clone, Copy, Debug, PartialEq, Eq)]
pub enum PackError {
    Refused(Refusal),
    BadLine(usize),
}

impl PackError {
    // The number by which it is known outside Rattle.
    //     let headless = PackError::BadLine(1);
    //     expect(b"text::PackError::number", headless.number() == 7);
    pub fn number(self) -> u32
        ensures { result ≡ (packed_told (Err self)).refusal }
    {
        match self {
            PackError::Refused(why) => why.number(),
            PackError::BadLine(_) => Refusal::BadLine.number(),
        }
    }
}

impl fmt::Display for PackError {
    ghost output = { λ error. Some (error_said error) };

    fn fmt<W: fmt::Write>(&self, f: &mut fmt::Formatter<W>) -> fmt::Result {
        match self {
            PackError::Refused(why) => write!(f, "{why}"),
            PackError::BadLine(line) => write!(f, "line {line} breaks the line rules"),
        }
    }
}

impl Error for PackError {}

impl From<Refusal> for PackError {
    ghost from_gives = { λ refusal error. error ≡ Refused refusal };

    fn from(refusal: Refusal) -> PackError {
        PackError::Refused(refusal)
    }
}

// Writes the text of a strip, and answers its length: the header line, a line a record, and `bad tail` where the tail is bad. Refusals 1
// and 8, before the first byte; what lies past the text is untouched.
//     let listed = text::list_text(b"\x00", &mut out);
//     expect(b"list_text", listed == Ok(40));
pub fn list_text(strip: &[u8], out: &mut [u8]) -> Result<usize, Refusal>
    ensures answer { length_told result ≡ list_of strip.now (length out.old) }
    ensures memory { out.new ≡ list_out strip.now out.old }
{
    inner::check_list(strip, out.len())?;
    Ok(inner::put_text(strip, out))
}

// Packs a text into a strip, and answers its length. Refusals 1 and 8, or the number of the first bad line (another header, or a line that
// breaks the line rules), before the first byte; what lies past the strip is untouched.
//     let packed = text::pack_text(b"star,date\n", &mut out);
//     expect(b"pack_text", packed == Err(PackError::BadLine(1)));
pub fn pack_text(text: &[u8], out: &mut [u8]) -> Result<usize, PackError>
    ensures answer { packed_told result ≡ pack_of text.now (length out.old) }
    ensures memory { out.new ≡ pack_out text.now out.old }
{
    inner::check_pack(text, out.len())?;
    Ok(inner::put_records(text, out))
}
