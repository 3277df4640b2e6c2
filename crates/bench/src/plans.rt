// Layouts read over and over, each from where the last ended. The order is a constant of each loop.
ghost use Rattle.std.specs.Prelude.{◌≡◌, true, ◌≤◌, length};
ghost use Rattle.bits.specs.Refusals.{longest};
ghost use Rattle.layout.specs.Layout.{items_of, is_layout, bits_of};

use crate::order;
use bits::LONGEST;
use reader::Cursor;

// The sum of the results.
fn summed(results: &[u64]) -> u64 {
    let mut sum: u64 = 0;
    for value in results {
        sum ^= *value;
    }
    sum
}

// A layout of `bits` bits by the inner runner, as often as the slice has it.
fn over<const BIG: bool>(src: &[u8], layout: &[u8], bits: usize, results: &mut [u64]) -> u64
    requires { (length src.now ≤ longest) × (is_layout layout.now ≡ true) × (bits_of (items_of layout.now) ≡ bits) × (length (items_of layout.now) ≤ length results.old) }
{
    if bits == 0 {
        return 0;
    }
    let mut place = 0;
    let mut sum: u64 = 0;
    // by a place, which each call answers
    while bits <= 8 * src.len() - place {
        place = plan::inner::fields(order(BIG), src, layout, place, results);
        sum ^= summed(results);
    }
    sum
}

// A plan, checked and decoded once.
pub fn fields<const BIG: bool>(src: &[u8], plan: &[u8], results: &mut [u64]) -> u64 {
    if LONGEST < src.len() {
        return 0;
    }
    if layout::inner::check::is_plan(plan) {
        let size = layout::inner::size::measure(plan);
        if results.len() < size.fields {
            return 0;
        }
        let mut space = [0u8; 128];
        let n = plan::inner::decode(plan, &mut space);
        return over::<BIG>(src, &space[..n], size.bits, results);
    }
    0
}

// A plan by the public call, n times or as often as the slice has its layout.
pub fn runs<const BIG: bool>(src: &[u8], plan: &[u8], n: usize, results: &mut [u64]) -> u64 {
    let Ok(mut cursor) = Cursor::new(src) else {
        return 0;
    };
    let mut sum: u64 = 0;
    for _run in 0..n {
        let Ok(next) = plan::run(cursor, order(BIG), src, plan, results) else {
            return sum;
        };
        cursor = next;
        sum ^= summed(results);
    }
    sum
}
