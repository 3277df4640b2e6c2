// Strips from other apps: whether one keeps the rules under which it is filed.
#![tactic(auto)]

ghost use Rattle.std.specs.Prelude.{◌≡◌};
ghost use Rattle.vetting.specs.Verdicts.{rule_number, verdict_told, verdict_of};

use bits::{LONGEST, Refusal};

pub mod inner;

// A rule under which a strip is filed, by its number: no date is before the one above it, the filter is at most 9, and error 0 stands only
// with limit 1.
#[derive(Clone, Copy, Debug, PartialEq, Eq)]
pub enum Rule {
    Date = 1,
    Filter = 2,
    Error = 3,
}

impl Rule {
    // The number of the rule, from 1.
    //     expect(b"Rule::number", Rule::Error.number() == 3);
    pub fn number(self) -> u32
        ensures { result ≡ rule_number self }
    {
        self as u32
    }
}

// What is said of a strip: every record keeps the rules and the tail is good; a record, by its number from 1, breaks a rule; or all records
// keep the rules and the tail is bad.
#[derive(Clone, Copy, Debug, PartialEq, Eq)]
pub enum Verdict {
    Fine,
    Broken { record: usize, rule: Rule },
    BadTail,
}

// Tells whether a strip keeps the rules: (1) no date is before the one above it, (2) the filter is at most 9, (3) error 0 stands only with
// limit 1; and the tail is good. The first record at fault is named, and the first rule that it breaks; a bad tail only where there is
// none. Refusal 1; a fault is no refusal.
//     let zeros = [0u8; 12];
//     let verdict = vetting::vet_strip(&zeros);
//     let fault = Verdict::Broken {
//         record: 1,
//         rule: Rule::Error,
//     };
//     expect(b"vet_strip", verdict == Ok(fault));
pub fn vet_strip(strip: &[u8]) -> Result<Verdict, Refusal>
    ensures { verdict_told result ≡ verdict_of strip.now }
{
    if LONGEST < strip.len() {
        return Err(Refusal::TooLong);
    }
    Ok(inner::verdict(strip))
}
