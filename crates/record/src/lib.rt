// The strip record: one estimate of a variable star.
#![tactic(auto)]

pub mod inner;

// The bits of a record.
pub const RECORD_BITS: usize = 89;

// A star's number, a Julian Date in 10^-5 day, whether the magnitude is a limit, the magnitude and its error in thousandths, and a
// filter's number. The default has zeros alone.
#[derive(Clone, Copy, Debug, Default, PartialEq, Eq)]
pub struct Record {
    pub star: u32,
    pub date: u64,
    pub limit: u8,
    pub magnitude: i16,
    pub error: u16,
    pub filter: u8,
}
