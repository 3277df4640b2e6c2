// The manual calls and `lower_end` of a caller's own cursor, which is changed where it stands. Each is the reader's call by value: a
// refused call leaves the cursor that came.
#![tactic(auto)]

ghost use Rattle.std.specs.Prelude.{◌≡◌};
ghost use Rattle.bits.specs.Refusals.{number_of, told};
ghost use Rattle.reader.specs.Answers.{peek_of, consume_of, refill_of, lower_of, moved};

use bits::{Order, Refusal};
use reader::Cursor;

// The first bits of the lookahead, which stay. Refusals 1, 2 and 10.
//     let seen = lent::peeked(full, Order::Big, b"\xa5\x01", 4);
//     expect(b"inplace::peek", seen == Ok(10));
pub fn peek(cursor: &Cursor, order: Order, src: &[u8], count: u32) -> Result<u64, Refusal>
    ensures { told 0 result ≡ peek_of order src.now cursor.now count }
{
    cursor.peek(order, src, count)
}

// Takes the first bits off the lookahead. Refusals 1, 2 and 10.
//     let moved = lent::consumed(full, Order::Big, b"\xa5\x01", 17);
//     let due = Err(Refusal::PastLookahead);
//     expect(b"inplace::consume", moved.answer == due);
pub fn consume(cursor: &mut Cursor, order: Order, src: &[u8], count: u32) -> Result<(), Refusal>
    ensures { moved (number_of result) cursor.new ≡ consume_of order src.now cursor.old count }
{
    *cursor = cursor.consume(order, src, count)?;
    Ok(())
}

// Fetches as many whole bytes as the slice and 63 bits allow. Refusals 1 and 2.
//     let moved = lent::refilled(start, Order::Big, b"\xa5\x01");
//     expect(b"inplace::refill_lookahead", moved.answer == Ok(()));
pub fn refill_lookahead(cursor: &mut Cursor, order: Order, src: &[u8]) -> Result<(), Refusal>
    ensures { moved (number_of result) cursor.new ≡ refill_of order src.now cursor.old }
{
    *cursor = cursor.refill_lookahead(order, src)?;
    Ok(())
}

// Lowers the end, behind which nothing is read. Refusals 1, 2 and 13.
//     let moved = lent::lowered(start, Order::Big, b"\xa5\x01", 17);
//     let due = Err(Refusal::BadEnd);
//     expect(b"inplace::lower_end", moved.answer == due);
pub fn lower_end(cursor: &mut Cursor, order: Order, src: &[u8], end: usize) -> Result<(), Refusal>
    ensures { moved (number_of result) cursor.new ≡ lower_of order src.now cursor.old end }
{
    *cursor = cursor.lower_end(order, src, end)?;
    Ok(())
}
