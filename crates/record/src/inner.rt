// Tests and values of records, for proved callers.
ghost use Rattle.std.specs.Prelude.{◌≡◌, true};
ghost use Rattle.bits.specs.Signed.{pattern};
ghost use Rattle.record.specs.Record.{fits as fits_of, named};

use crate::Record;

// A record's six numbers as lists hold them, the magnitude's in two's complement of 64 bits.
#[derive(Clone, Copy, Debug, PartialEq, Eq)]
pub struct Numbers {
    pub star: u64,
    pub date: u64,
    pub limit: u64,
    pub magnitude: u64,
    pub error: u64,
    pub filter: u64,
}

impl Numbers {
    // Whether the six numbers fit their fields.
    pub fn fit(self) -> bool
        ensures { result ≡ fits_of (named self) }
    {
        self.star < 0x10_0000
            && self.date < 0x40_0000_0000
            && self.limit < 2
            && self.error < 0x400
            && self.filter < 16
            && self.magnitude.wrapping_add(0x8000) < 0x1_0000
    }

    // The record of six numbers that fit.
    pub fn to_record(self) -> Record
        requires { fits_of (named self) ≡ true }
        ensures { result ≡ named self }
    {
        Record {
            star: self.star as u32,
            date: self.date,
            limit: self.limit as u8,
            magnitude: sign::inner::signed_of_bits(self.magnitude) as i16,
            error: self.error as u16,
            filter: self.filter as u8,
        }
    }
}

// The six numbers of a record.
impl From<Record> for Numbers {
    ghost from_gives = { λ r six. named six ≡ r };

    fn from(r: Record) -> Numbers {
        Numbers {
            star: u64::from(r.star),
            date: r.date,
            limit: u64::from(r.limit),
            magnitude: magnitude_number(r.magnitude),
            error: u64::from(r.error),
            filter: u64::from(r.filter),
        }
    }
}

// The 64 bits of a magnitude in two's complement.
pub fn magnitude_number(magnitude: i16) -> u64
    ensures { result ≡ pattern 64 magnitude }
{
    sign::inner::bits_of_signed(i64::from(magnitude))
}

// Whether a record's numbers fit their fields.
pub fn fits(r: Record) -> bool
    ensures { result ≡ fits_of r }
{
    Numbers::from(r).fit()
}
