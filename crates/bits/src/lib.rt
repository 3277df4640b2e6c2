// The order of bits, the refusals, and the operations on 64 bits.
#![tactic(auto)]

ghost use Rattle.std.specs.Prelude.{◌≡◌, Some};
ghost use Rattle.bits.specs.Refusals.{number, refusal_said};

use std::error::Error;
use std::fmt;

pub mod inner;

// The order of the bits: the first bit of a field is its least significant (Little) or its most (Big).
#[derive(Clone, Copy, Debug, PartialEq, Eq)]
pub enum Order {
    Little,
    Big,
}

// The longest byte slice that a call takes.
pub const LONGEST: usize = 16_777_216;

// Why a call is refused, each by its number. Where several apply, the lowest is given.
#[derive(Clone, Copy, Debug, PartialEq, Eq)]
pub enum Refusal {
    TooLong = 1,
    Foreign = 2,
    TooWide = 3,
    TooLarge = 4,
    BadLayout = 5,
    BadPlan = 6,
    BadLine = 7,
    NoRoom = 8,
    TooFew = 9,
    PastLookahead = 10,
    BadRow = 11,
    BadEnd = 13,
    EndInByte = 14,
    RetiredKind = 16,
}

impl Refusal {
    // The number by which it is known outside Rattle.
    //     expect(b"Refusal::number", Refusal::TooFew.number() == 9);
    pub fn number(self) -> u32
        ensures { result ≡ number self }
    {
        self as u32
    }
}

impl fmt::Display for Refusal {
    ghost output = { λ why. Some (refusal_said why) };

    fn fmt<W: fmt::Write>(&self, f: &mut fmt::Formatter<W>) -> fmt::Result {
        f.write_str(match self {
            Refusal::TooLong => "a slice is longer than the limit",
            Refusal::Foreign => "the cursor or writer does not belong to the slice",
            Refusal::TooWide => "a width is above 64",
            Refusal::TooLarge => "a value does not fit its width",
            Refusal::BadLayout => "these bytes are no layout",
            Refusal::BadPlan => "no layout compiles to this plan",
            Refusal::BadLine => "a line breaks the line rules",
            Refusal::NoRoom => "the output has no room",
            Refusal::TooFew => "too few bits are left",
            Refusal::PastLookahead => "the lookahead has fewer bits",
            Refusal::BadRow => "a row says no record",
            Refusal::BadEnd => "the end is raised, or put before the place",
            Refusal::EndInByte => "the end is within a byte",
            Refusal::RetiredKind => "singles are written no more",
        })
    }
}

impl Error for Refusal {}
