// Sign extension, and two's complement for proved callers.
#![tactic(auto)]

ghost use Rattle.std.specs.Prelude.{◌≡◌, pos};
ghost use Rattle.bits.specs.Refusals.{told};
ghost use Rattle.sign.specs.Extend.{extend_of};

use bits::Refusal;

pub mod inner;

// The signed number that the low `bits` bits `val` stand for, or refusal 3 (over 64 bits) or 4 (`val` does not fit them).
//     let eight = sign::sign_extend(8, 4);
//     expect(b"sign_extend", eight == Ok(-8));
pub fn sign_extend(val: u64, bits: u32) -> Result<i64, Refusal>
    ensures { told (pos 0) result ≡ extend_of val bits }
{
    if 64 < bits {
        return Err(Refusal::TooWide);
    }
    if inner::fits(val, bits) {
        Ok(inner::extend(val, bits))
    } else {
        Err(Refusal::TooLarge)
    }
}
