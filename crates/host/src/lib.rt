// The phone's C host: the refusal number and the value of a field at a bit place, with no cursor. A library exports nothing to C: what C
// links is made of the crate host_c, whose two functions call these.
#![tactic(auto)]

ghost use Rattle.std.specs.Prelude.{◌≡◌, length};
ghost use Rattle.bits.specs.Refusals.{number_of};
ghost use Rattle.host.specs.Host.{order_of, host_refusal, host_value};

use bits::{LONGEST, Order, Refusal};

// The order by its number: 0 little, any other big.
fn order_of(order: u32) -> Order
    ensures { result ≡ order_of order }
{
    if order == 0 {
        Order::Little
    } else {
        Order::Big
    }
}

// Tests a field of `width` bits at bit `place`: 1, 3 and 9.
fn check(place: u64, width: u32, src: &[u8]) -> Result<(), Refusal>
    ensures { number_of result ≡ host_refusal place width (length src.now) }
{
    if LONGEST < src.len() {
        return Err(Refusal::TooLong);
    }
    if 64 < width {
        return Err(Refusal::TooWide);
    }
    let bits = (8 * src.len()) as u64;
    let w = width as u64;
    if bits < w {
        return Err(Refusal::TooFew);
    }
    if bits - w < place {
        return Err(Refusal::TooFew);
    }
    Ok(())
}

// 0 where the field of `width` bits at bit `place` can be had, else 1 (slice too long), 3 (width above 64) or 9 (it ends past the slice).
// The number is C's.
//     let number = host::strip_refusal(1, 4, 21, b"\x00\x00\x5e");
//     expect(b"strip_refusal", number == 9);
#[unsafe(no_mangle)]
pub extern "C" fn strip_refusal(order: u32, place: u64, width: u32, src: &[u8]) -> u32
    ensures { result ≡ host_refusal place width (length src.now) }
{
    match check(place, width, src) {
        Ok(()) => 0,
        Err(refusal) => refusal.number(),
    }
}

// The field's value, or 0 where `strip_refusal` is not 0.
//     let value = host::strip_value(1, 0, 20, b"\x00\x00\x5e");
//     expect(b"strip_value", value == 5);
#[unsafe(no_mangle)]
pub extern "C" fn strip_value(order: u32, place: u64, width: u32, src: &[u8]) -> u64
    ensures { result ≡ host_value order place width src.now }
{
    match check(place, width, src) {
        Ok(()) => words::inner::field_at(order_of(order), src, place as usize, width),
        Err(_) => 0,
    }
}
