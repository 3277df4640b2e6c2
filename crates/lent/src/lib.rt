// The calls of `inplace` and of `remains` with plain values on both sides: a local is lent to the call, or holds the record.
#![tactic(auto)]

ghost use Rattle.std.specs.Prelude.{◌≡◌, length};
ghost use Rattle.bits.specs.Refusals.{number_of, told};
ghost use Rattle.reader.specs.Answers.{moved, peek_of, consume_of, refill_of, lower_of, remainder_of, partial_of};

use bits::{Order, Refusal};
use reader::Cursor;

// What is left behind a cursor: the bits before the first whole byte, how many and as a number, and how many whole bytes follow.
#[derive(Clone, Copy, Debug, PartialEq, Eq)]
pub struct Rest {
    pub partial_bits: u8,
    pub partial_byte: u8,
    pub length: usize,
}

// What a call answered, and the cursor as the call left it, refused or not.
#[derive(Clone, Copy, Debug, PartialEq, Eq)]
pub struct Outcome {
    pub answer: Result<(), Refusal>,
    pub cursor: Cursor,
}

// `inplace::peek` of a cursor that is lent.
pub fn peeked(cursor: Cursor, order: Order, src: &[u8], count: u32) -> Result<u64, Refusal>
    ensures { told 0 result ≡ peek_of order src.now cursor count }
{
    inplace::peek(&cursor, order, src, count)
}

// `inplace::consume` of a cursor that is lent.
pub fn consumed(cursor: Cursor, order: Order, src: &[u8], count: u32) -> Outcome
    ensures { moved (number_of result.answer) result.cursor ≡ consume_of order src.now cursor count }
{
    let mut own = cursor;
    let answer = inplace::consume(&mut own, order, src, count);
    Outcome {
        answer: answer,
        cursor: own,
    }
}

// `inplace::refill_lookahead` of a cursor that is lent.
pub fn refilled(cursor: Cursor, order: Order, src: &[u8]) -> Outcome
    ensures { moved (number_of result.answer) result.cursor ≡ refill_of order src.now cursor }
{
    let mut own = cursor;
    let answer = inplace::refill_lookahead(&mut own, order, src);
    Outcome {
        answer: answer,
        cursor: own,
    }
}

// `inplace::lower_end` of a cursor that is lent.
pub fn lowered(cursor: Cursor, order: Order, src: &[u8], end: usize) -> Outcome
    ensures { moved (number_of result.answer) result.cursor ≡ lower_of order src.now cursor end }
{
    let mut own = cursor;
    let answer = inplace::lower_end(&mut own, order, src, end);
    Outcome {
        answer: answer,
        cursor: own,
    }
}

// The numbers of `remains::remainder_record`, and the length of its slice.
pub fn left(cursor: Cursor, order: Order, src: &[u8]) -> Rest
    ensures { (result.partial_bits ≡ (partial_of order src.now cursor).value.partial_bits)
        × (result.partial_byte ≡ (partial_of order src.now cursor).value.partial_byte)
        × (result.length ≡ length (remainder_of order src.now cursor)) }
{
    let rest = remains::remainder_record(cursor, order, src);
    let tail = rest.data();
    Rest {
        partial_bits: rest.partial_bits(),
        partial_byte: rest.partial_byte(),
        length: tail.len(),
    }
}
