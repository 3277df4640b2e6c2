// What is left of a slice behind a cursor, up to its end, as one record: a partial byte, and the whole bytes after it.
#![tactic(auto)]

ghost use Rattle.std.specs.Prelude.{◌≡◌, ◌+◌};
ghost use Rattle.reader.specs.Answers.{start_of, remainder_of, partial_of};

use bits::Order;
use reader::{Cursor, Partial};

// The bits before the first whole unread byte, as a number and how many, and the slice from that byte on up to the end. It tells no
// refusal: `partial` does, and all is 0 or empty where there is one.
#[derive(Clone, Copy, Debug, PartialEq, Eq)]
pub struct Remainder<'a> {
    partial_byte: u8,
    partial_bits: u8,
    remaining_bytes: &'a [u8],
}

// The remainder of a cursor's slice.
//     let rest = lent::left(behind, Order::Big, b"\x5a\xff");
//     expect(b"remainder_record", rest.partial_bits == 5);
pub fn remainder_record<'a>(cursor: Cursor, order: Order, src: &'a [u8]) -> Remainder<'a>
    ensures { (result.partial_byte ≡ (partial_of order src.now cursor).value.partial_byte)
        × (result.partial_bits ≡ (partial_of order src.now cursor).value.partial_bits)
        × (result.remaining_bytes.now ≡ remainder_of order src.now cursor)
        × (result.remaining_bytes.ref_ptr.0 ≡ src.entry.ref_ptr.0)
        × (result.remaining_bytes.ref_ptr.1 ≡ src.entry.ref_ptr.1 + start_of order src.now cursor) }
{
    let partial = cursor.partial(order, src).unwrap_or(Partial {
        partial_bits: 0,
        partial_byte: 0,
    });
    Remainder {
        partial_byte: partial.partial_byte,
        partial_bits: partial.partial_bits,
        remaining_bytes: cursor.remainder(order, src),
    }
}

impl<'a> Remainder<'a> {
    // The bits before the first whole byte, as a number.
    //     expect(b"Remainder::partial_byte", rest.partial_byte == 0x1a);
    pub fn partial_byte(self) -> u8
        ensures { result ≡ self.entry.partial_byte }
    {
        self.partial_byte
    }

    // How many bits stand before the first whole byte.
    //     expect(b"Remainder::partial_bits", rest.partial_bits == 5);
    pub fn partial_bits(self) -> u8
        ensures { result ≡ self.entry.partial_bits }
    {
        self.partial_bits
    }

    // The slice from the first whole byte on.
    //     expect(b"Remainder::data", rest.length == 1);
    pub fn data(self) -> &'a [u8]
        ensures { result ≡ self.entry.remaining_bytes }
    {
        self.remaining_bytes
    }
}
