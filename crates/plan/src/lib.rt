// Running plans: all fields of a layout in one call.
#![tactic(auto)]

ghost use Rattle.std.specs.Prelude.{◌≡◌, length};
ghost use Rattle.reader.specs.Answers.{moved_told};
ghost use Rattle.plan.specs.Run.{run_of, run_out};

use bits::{Order, Refusal};
use reader::Cursor;

pub mod inner;

// Reads every field of the plan's layout from the cursor on: one 64-bit pattern a field into the results, whose rest is untouched.
// The cursor behind the last field holds fewer than eight bits. Refusals 1, 2, 6, 8 and 9, before the first result.
//     let ran = plan::run(start, Order::Big, b"\xbf", b"\x00\x43\x85", &mut results);
//     expect(b"run", ran.is_ok() && results[0] == 5);
pub fn run(
    cursor: Cursor,
    order: Order,
    src: &[u8],
    plan: &[u8],
    results: &mut [u64],
) -> Result<Cursor, Refusal>
    ensures answer { moved_told cursor result ≡ run_of order src.now cursor plan.now (length results.old) }
    ensures memory { results.new ≡ run_out order src.now cursor plan.now results.old }
{
    if let Some(end) = inner::run_quick(cursor, order, src, plan, results) {
        return Ok(reader::inner::gone_to(order, src, cursor, end));
    }
    inner::check_run(cursor, order, src, plan, results.len())?;
    let place = reader::inner::place_of(src, cursor);
    let end = inner::run_plan(order, src, plan, place, results);
    Ok(reader::inner::gone_to(order, src, cursor, end))
}
