// A cursor over a lent slice: bits, fields and bytes read in either order. Each method takes the slice too and tests that the cursor
// belongs to it. What reads or moves answers the cursor that goes on, by value, or a refusal; the caller then goes on with the cursor it
// has, which nothing changes. Behind `new`, `from_parts` and `read` the methods stand in the order of the Rust's BitReader; the remainder,
// which the Rust has outside it, and the end, which it has not, are last. The examples are those of the program example_calls: `start` is
// a fresh cursor of the slice, `full` a refilled one, `behind` one behind three bits.
#![tactic(auto)]

ghost use Rattle.std.specs.Prelude.{◌≡◌, ◌+◌, ◌%◌, false, eqb, leb, length, pos};
ghost use Rattle.bits.specs.Refusals.{told};
ghost use Rattle.floats.specs.Floats.{single_of, double_of};
ghost use Rattle.reader.specs.Cursor.{place, bits_left, bytes_left, unfetched};
ghost use Rattle.reader.specs.Answers.{read_told, read_as, moved_told, no_partial, no_cursor, new_of, read_of, as_bool, as_f32, as_signed, as_f64, counted_of, tested_of, bytes_of, bytes_out, peek_of, consume_of, refill_of, ahead_of, start_of, remainder_of, partial_of, lower_of};

use bits::{LONGEST, Order, Refusal};
use floats::{Double, Single};

pub mod inner;

use inner::field::Field;

// The offset of the first byte not yet fetched, the bits fetched and not yet taken, and the register that holds them: at its low end
// in little-endian order, at its high end in big-endian order, the other bits zero. And the bit place at which reading stops.
#[derive(Clone, Copy, Debug, PartialEq, Eq)]
pub struct Cursor {
    pub offset: usize,
    pub lookahead: u32,
    pub register: u64,
    pub end: usize,
}

// A value that was read, and the cursor that goes on.
#[derive(Clone, Copy, Debug, PartialEq, Eq)]
pub struct Read<T> {
    pub value: T,
    pub cursor: Cursor,
}

// The bits before the first whole unread byte: how many, and as a number.
#[derive(Clone, Copy, Debug, PartialEq, Eq)]
pub struct Partial {
    pub partial_bits: u8,
    pub partial_byte: u8,
}

impl Cursor {
    // A cursor at the start of a slice, its end the slice's. Refusal 1.
    //     let made = Cursor::new(b"\x5a\xff");
    //     expect(b"Cursor::new", made.is_ok());
    pub fn new(src: &[u8]) -> Result<Cursor, Refusal>
        ensures { moved_told no_cursor result ≡ new_of src.now }
    {
        if LONGEST < src.len() {
            return Err(Refusal::TooLong);
        }
        Ok(Cursor::from_parts(0, 0, 0, 8 * src.len()))
    }

    // The cursor of these four numbers, which need not belong to any slice: each call tests that. For tests, and for callers that keep
    // a cursor's numbers.
    //     let far = Cursor::from_parts(9, 0, 0, 72);
    //     let got = far.read_u8(Order::Big, b"\x5a");
    //     expect(b"Cursor::from_parts", got == Err(Refusal::Foreign));
    pub fn from_parts(offset: usize, lookahead: u32, register: u64, end: usize) -> Cursor
        ensures { result ≡ record { offset = offset; lookahead = lookahead; register = register; end = end } }
    {
        Cursor {
            offset: offset,
            lookahead: lookahead,
            register: register,
            end: end,
        }
    }

    // The field of a type's own width. Refusals 1, 2 and 9.
    //     let got: Read<u16> = start.read(Order::Big, b"\x01\x02")?;
    //     expect(b"read", got.value == 0x0102);
    pub fn read<T: Field + Drop>(self, order: Order, src: &[u8]) -> Result<Read<T>, Refusal>
        ensures { read_told (T.value 0) self result ≡ read_as T.value (read_of order src.now self T.WIDTH) }
    {
        let read = self.read_bits(order, src, T::WIDTH)?;
        Ok(Read {
            value: T::of_bits(read.value),
            cursor: read.cursor,
        })
    }

    // One bit, as a bool.
    //     let got = start.read_bit(Order::Big, b"\x80")?;
    //     expect(b"read_bit", got.value);
    pub fn read_bit(self, order: Order, src: &[u8]) -> Result<Read<bool>, Refusal>
        ensures { read_told false self result ≡ as_bool (read_of order src.now self 1) }
    {
        self.read(order, src)
    }

    // Eight bits.
    //     let got = start.read_u8(Order::Big, b"\x5a")?;
    //     expect(b"read_u8", got.value == 0x5a);
    pub fn read_u8(self, order: Order, src: &[u8]) -> Result<Read<u8>, Refusal>
        ensures { read_told 0 self result ≡ read_of order src.now self 8 }
    {
        self.read(order, src)
    }

    // Eight bits as a signed number.
    //     let got = start.read_i8(Order::Big, b"\xda")?;
    //     expect(b"read_i8", got.value == -38);
    pub fn read_i8(self, order: Order, src: &[u8]) -> Result<Read<i8>, Refusal>
        ensures { read_told (pos 0) self result ≡ as_signed 8 (read_of order src.now self 8) }
    {
        self.read(order, src)
    }

    // Sixteen bits.
    //     let got = start.read_u16(Order::Little, b"\x01\x02")?;
    //     expect(b"read_u16", got.value == 0x0201);
    pub fn read_u16(self, order: Order, src: &[u8]) -> Result<Read<u16>, Refusal>
        ensures { read_told 0 self result ≡ read_of order src.now self 16 }
    {
        self.read(order, src)
    }

    // Sixteen bits as a signed number.
    //     let got = start.read_i16(Order::Little, b"\xfe\xff")?;
    //     expect(b"read_i16", got.value == -2);
    pub fn read_i16(self, order: Order, src: &[u8]) -> Result<Read<i16>, Refusal>
        ensures { read_told (pos 0) self result ≡ as_signed 16 (read_of order src.now self 16) }
    {
        self.read(order, src)
    }

    // 32 bits.
    //     let got = start.read_u32(Order::Big, b"\x00\x01\x02\x03")?;
    //     expect(b"read_u32", got.value == 0x0001_0203);
    pub fn read_u32(self, order: Order, src: &[u8]) -> Result<Read<u32>, Refusal>
        ensures { read_told 0 self result ≡ read_of order src.now self 32 }
    {
        self.read(order, src)
    }

    // 32 bits as a signed number.
    //     let got = start.read_i32(Order::Big, b"\xff\xff\xff\xfe")?;
    //     expect(b"read_i32", got.value == -2);
    pub fn read_i32(self, order: Order, src: &[u8]) -> Result<Read<i32>, Refusal>
        ensures { read_told (pos 0) self result ≡ as_signed 32 (read_of order src.now self 32) }
    {
        self.read(order, src)
    }

    // 32 bits as a single, every pattern kept.
    //     let got = start.read_f32(Order::Big, b"\x3f\x80\x00\x00")?;
    //     let bits = floats::bits_of_single(got.value);
    //     expect(b"read_f32", bits == 0x3f80_0000);
    pub fn read_f32(self, order: Order, src: &[u8]) -> Result<Read<Single>, Refusal>
        ensures { read_told (single_of 0) self result ≡ as_f32 (read_of order src.now self 32) }
    {
        self.read(order, src)
    }

    // 64 bits.
    //     let got = start.read_u64(Order::Big, b"\x00\x01\x02\x03\x04\x05\x06\x07")?;
    //     expect(b"read_u64", got.value == 0x0001_0203_0405_0607);
    pub fn read_u64(self, order: Order, src: &[u8]) -> Result<Read<u64>, Refusal>
        ensures { read_told 0 self result ≡ read_of order src.now self 64 }
    {
        self.read_bits(order, src, 64)
    }

    // 64 bits as a signed number.
    //     let got = start.read_i64(Order::Little, b"\xfe\xff\xff\xff\xff\xff\xff\xff")?;
    //     expect(b"read_i64", got.value == -2);
    pub fn read_i64(self, order: Order, src: &[u8]) -> Result<Read<i64>, Refusal>
        ensures { read_told (pos 0) self result ≡ as_signed 64 (read_of order src.now self 64) }
    {
        self.read_signed_bits(order, src, 64)
    }

    // 64 bits as a double, every pattern kept.
    //     let got = start.read_f64(Order::Big, b"\x3f\xf0\x00\x00\x00\x00\x00\x00")?;
    //     let bits = floats::bits_of_double(got.value);
    //     expect(b"read_f64", bits == 0x3ff0_0000_0000_0000);
    pub fn read_f64(self, order: Order, src: &[u8]) -> Result<Read<Double>, Refusal>
        ensures { read_told (double_of 0) self result ≡ as_f64 (read_of order src.now self 64) }
    {
        self.read(order, src)
    }

    // A field of 0 to 64 bits. Refusals 1, 2, 3 and 9. (A call for each order: where the order is known, the other goes.)
    //     let got = start.read_bits(Order::Big, b"\xa5", 3)?;
    //     expect(b"read_bits", got.value == 5);
    #[inline]
    pub fn read_bits(self, order: Order, src: &[u8], bits: u32) -> Result<Read<u64>, Refusal>
        ensures { read_told 0 self result ≡ read_of order src.now self bits }
    {
        match order {
            Order::Little => inner::read_bits(Order::Little, src, self, bits),
            Order::Big => inner::read_bits(Order::Big, src, self, bits),
        }
    }

    // A field of 0 to 64 bits as a signed number. Refusals 1, 2, 3 and 9.
    //     let got = start.read_signed_bits(Order::Big, b"\x8f", 4)?;
    //     expect(b"read_signed_bits", got.value == -8);
    pub fn read_signed_bits(self, order: Order, src: &[u8], bits: u32) -> Result<Read<i64>, Refusal>
        ensures { read_told (pos 0) self result ≡ as_signed bits (read_of order src.now self bits) }
    {
        let read = self.read_bits(order, src, bits)?;
        Ok(Read {
            value: sign::inner::extend(read.value, bits),
            cursor: read.cursor,
        })
    }

    // The whole bytes left: the partial one is not counted.
    //     let left = start.bytes_remaining(Order::Big, b"\x5a\xff");
    //     expect(b"bytes_remaining", left == Ok(2));
    pub fn bytes_remaining(self, order: Order, src: &[u8]) -> Result<usize, Refusal>
        ensures { told 0 result ≡ counted_of order src.now self (bytes_left src.now self) }
    {
        inner::check(order, src, self)?;
        Ok(inner::bytes_left(src, self))
    }

    // The bytes before the end that are not yet fetched.
    //     let left = start.unbuffered_bytes_remaining(Order::Big, b"\x5a\xff");
    //     expect(b"unbuffered_bytes_remaining", left == Ok(2));
    pub fn unbuffered_bytes_remaining(self, order: Order, src: &[u8]) -> Result<usize, Refusal>
        ensures { told 0 result ≡ counted_of order src.now self (unfetched src.now self) }
    {
        inner::check(order, src, self)?;
        Ok(inner::unfetched(src, self))
    }

    // The bits left: those from the place up to the end.
    //     let left = start.bits_remaining(Order::Big, b"\x5a\xff");
    //     expect(b"bits_remaining", left == Ok(16));
    pub fn bits_remaining(self, order: Order, src: &[u8]) -> Result<usize, Refusal>
        ensures { told 0 result ≡ counted_of order src.now self (bits_left src.now self) }
    {
        inner::check(order, src, self)?;
        Ok(inner::bits_left(src, self))
    }

    // Whether as many bits are left; any number may be asked.
    //     let more = start.has_bits_remaining(Order::Big, b"\x5a\xff", 16);
    //     expect(b"has_bits_remaining", more == Ok(true));
    pub fn has_bits_remaining(self, order: Order, src: &[u8], bits: usize) -> Result<bool, Refusal>
        ensures { told false result ≡ tested_of order src.now self (leb bits (bits_left src.now self)) }
    {
        inner::check(order, src, self)?;
        Ok(bits <= inner::bits_left(src, self))
    }

    // Fills the buffer with fields of eight bits. Refusals 1 (also for the buffer), 2 and 9; the buffer is untouched then.
    //     let got = start.read_bytes(Order::Big, b"\x01\x02\x03", &mut two);
    //     expect(b"read_bytes", two[1] == 2);
    //     expect(b"read_bytes", got.is_ok());
    pub fn read_bytes(self, order: Order, src: &[u8], buf: &mut [u8]) -> Result<Cursor, Refusal>
        ensures answer { moved_told self result ≡ bytes_of order src.now self (length buf.old) }
        ensures memory { buf.new ≡ bytes_out order src.now self buf.old }
    {
        inner::check_bytes(order, src, self, buf.len())?;
        Ok(inner::read_bytes(order, src, self, buf))
    }

    // Whether no bit is left.
    //     let none = start.is_empty(Order::Big, b"");
    //     expect(b"is_empty", none == Ok(true));
    pub fn is_empty(self, order: Order, src: &[u8]) -> Result<bool, Refusal>
        ensures { told false result ≡ tested_of order src.now self (eqb (bits_left src.now self) 0) }
    {
        inner::check(order, src, self)?;
        Ok(inner::bits_left(src, self) == 0)
    }

    // The first bits of the lookahead, which stay. Refusals 1, 2 and 10.
    //     let seen = full.peek(Order::Big, b"\xa5\x01", 4);
    //     expect(b"peek", seen == Ok(10));
    pub fn peek(self, order: Order, src: &[u8], count: u32) -> Result<u64, Refusal>
        ensures { told 0 result ≡ peek_of order src.now self count }
    {
        inner::check_manual(order, src, self, count)?;
        Ok(lookahead::inner::peek(order, src, inner::state_in(self), count))
    }

    // The cursor without the first bits of its lookahead. Refusals 1, 2 and 10.
    //     let moved = full.consume(Order::Big, b"\xa5\x01", 4);
    //     expect(b"consume", moved.is_ok());
    pub fn consume(self, order: Order, src: &[u8], count: u32) -> Result<Cursor, Refusal>
        ensures { moved_told self result ≡ consume_of order src.now self count }
    {
        inner::check_manual(order, src, self, count)?;
        Ok(inner::with_state(
            self,
            lookahead::inner::consume(order, src, inner::state_in(self), count),
        ))
    }

    // The cursor with as many more whole bytes in its lookahead as the slice, whatever the end, and 63 bits allow.
    //     let moved = start.refill_lookahead(Order::Big, b"\xa5\x01");
    //     expect(b"refill_lookahead", moved.is_ok());
    pub fn refill_lookahead(self, order: Order, src: &[u8]) -> Result<Cursor, Refusal>
        ensures { moved_told self result ≡ refill_of order src.now self }
    {
        inner::check(order, src, self)?;
        Ok(inner::with_state(
            self,
            lookahead::inner::refill(order, src, inner::state_in(self)),
        ))
    }

    // The bits of lookahead, at most those left.
    //     let ahead = full.lookahead_bits(Order::Big, b"\xa5\x01");
    //     expect(b"lookahead_bits", ahead == Ok(16));
    pub fn lookahead_bits(self, order: Order, src: &[u8]) -> Result<u32, Refusal>
        ensures { told 0 result ≡ ahead_of order src.now self }
    {
        inner::check(order, src, self)?;
        Ok(inner::ahead(src, self))
    }

    // Whether reading goes on at the start of a byte.
    //     let whole = start.byte_aligned(Order::Big, b"\x5a\xff");
    //     expect(b"byte_aligned", whole == Ok(true));
    pub fn byte_aligned(self, order: Order, src: &[u8]) -> Result<bool, Refusal>
        ensures { told false result ≡ tested_of order src.now self (eqb (place self % 8) 0) }
    {
        inner::check(order, src, self)?;
        Ok(self.lookahead % 8 == 0)
    }

    // The part of the slice from the first whole unread byte on, up to the end; empty, at the slice's start, on refusal 1, 2 or 14, which
    // `partial` tells. (No `Result`: it never failed, and what it promises of each refusal stands.)
    //     let rest = behind.remainder(Order::Big, b"\x5a\xff");
    //     expect(b"remainder", rest.len() == 1);
    pub fn remainder(self, order: Order, src: &[u8]) -> &[u8]
        ensures bytes { result.now ≡ remainder_of order src.now self }
        ensures memory { (result.ref_ptr.0 ≡ src.entry.ref_ptr.0) × (result.ref_ptr.1 ≡ src.entry.ref_ptr.1 + start_of order src.now self) }
    {
        if inner::check_remainder(order, src, self).is_err() {
            return &src[..0];
        }
        let start = self.offset - (self.lookahead / 8) as usize;
        let last = self.end / 8;
        &src[start..last]
    }

    // The bits before the remainder: fewer than eight, and their value. Refusals 1, 2 and 14, for an end within a byte.
    //     let before = behind.partial(Order::Big, b"\x5a\xff")?;
    //     expect(b"partial", before.partial_byte == 0x1a);
    pub fn partial(self, order: Order, src: &[u8]) -> Result<Partial, Refusal>
        ensures { told no_partial result ≡ partial_of order src.now self }
    {
        inner::check_remainder(order, src, self)?;
        let bits = self.lookahead % 8;
        Ok(Partial {
            partial_bits: bits as u8,
            partial_byte: lookahead::inner::peek(order, src, inner::state_in(self), bits) as u8,
        })
    }

    // The cursor with a lower end, behind which it reads nothing; the end that it has and its own place are fine. Refusals 1, 2 and 13.
    //     let cut = start.lower_end(Order::Big, b"\x5a\xff", 8)?;
    //     let left = cut.bits_remaining(Order::Big, b"\x5a\xff");
    //     expect(b"lower_end", left == Ok(8));
    pub fn lower_end(self, order: Order, src: &[u8], end: usize) -> Result<Cursor, Refusal>
        ensures { moved_told self result ≡ lower_of order src.now self end }
    {
        inner::check_lower(order, src, self, end)?;
        Ok(inner::ending_at(self, end))
    }
}
