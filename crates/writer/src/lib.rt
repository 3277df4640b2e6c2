// A writer over a lent output: bits, fields and bytes written in either order. Each method takes the output too, tests that the writer
// belongs to it, and answers the writer that goes on, or a refusal, which leaves the output as it came. The methods stand in the order
// of the Rust's BitWriter; those of a fixed width stay beside `write_bits`, since each is one call of it and a generic write would say no
// more. The examples are those of the program example_calls: `blank` is a fresh writer.
#![tactic(auto)]

ghost use Rattle.std.specs.Prelude.{◌≡◌, cond, length};
ghost use Rattle.bits.specs.Refusals.{told};
ghost use Rattle.floats.specs.Floats.{double_bits};
ghost use Rattle.writer.specs.Answers.{wrote_told, fresh, new_of, write_of, write_out, signed_of, signed_out, retired_of, unaligned_of, bytes_of, bytes_out, flush_of, flush_out};

use bits::{LONGEST, Order, Refusal};
use floats::{Double, Single};

pub mod inner;

// The bytes that are full, and the bits held until they fill a byte: how many, and as a number.
#[derive(Clone, Copy, Debug, PartialEq, Eq)]
pub struct Writer {
    pub written: usize,
    pub held: u32,
    pub number: u64,
}

impl Writer {
    // A writer at the start of an output, all zeros. Refusal 1.
    //     let made = Writer::new(&out);
    //     expect(b"Writer::new", made.is_ok());
    pub fn new(out: &[u8]) -> Result<Writer, Refusal>
        ensures { wrote_told fresh result ≡ new_of (length out.now) }
    {
        if LONGEST < out.len() {
            return Err(Refusal::TooLong);
        }
        Ok(Writer {
            written: 0,
            held: 0,
            number: 0,
        })
    }

    // One bit.
    //     let wrote = blank.write_bit(Order::Big, &mut out, true);
    //     expect(b"write_bit", wrote.is_ok());
    pub fn write_bit(self, order: Order, out: &mut [u8], value: bool) -> Result<Writer, Refusal>
        ensures answer { wrote_told self result ≡ write_of order (length out.old) self 1 (cond value 1 0) }
        ensures memory { out.new ≡ write_out order out.old self 1 (cond value 1 0) }
    {
        self.write_bits(order, out, 1, value as u64)
    }

    // Eight bits.
    //     let _wrote = blank.write_u8(Order::Big, &mut out, 0x5a);
    //     expect(b"write_u8", out[0] == 0x5a);
    #[inline(always)]
    pub fn write_u8(self, order: Order, out: &mut [u8], value: u8) -> Result<Writer, Refusal>
        ensures answer { wrote_told self result ≡ write_of order (length out.old) self 8 value }
        ensures memory { out.new ≡ write_out order out.old self 8 value }
    {
        self.write_bits(order, out, 8, value as u64)
    }

    // Eight bits of a signed number.
    //     let _wrote = blank.write_i8(Order::Big, &mut out, -38);
    //     expect(b"write_i8", out[0] == 0xda);
    pub fn write_i8(self, order: Order, out: &mut [u8], value: i8) -> Result<Writer, Refusal>
        ensures answer { wrote_told self result ≡ signed_of order (length out.old) self 8 value }
        ensures memory { out.new ≡ signed_out order out.old self 8 value }
    {
        self.write_signed_bits(order, out, 8, value as i64)
    }

    // Sixteen bits.
    //     let _wrote = blank.write_u16(Order::Little, &mut out, 0x0201);
    //     expect(b"write_u16", out[1] == 2);
    #[inline(always)]
    pub fn write_u16(self, order: Order, out: &mut [u8], value: u16) -> Result<Writer, Refusal>
        ensures answer { wrote_told self result ≡ write_of order (length out.old) self 16 value }
        ensures memory { out.new ≡ write_out order out.old self 16 value }
    {
        self.write_bits(order, out, 16, value as u64)
    }

    // Sixteen bits of a signed number.
    //     let _wrote = blank.write_i16(Order::Big, &mut out, -2);
    //     expect(b"write_i16", out[1] == 0xfe);
    pub fn write_i16(self, order: Order, out: &mut [u8], value: i16) -> Result<Writer, Refusal>
        ensures answer { wrote_told self result ≡ signed_of order (length out.old) self 16 value }
        ensures memory { out.new ≡ signed_out order out.old self 16 value }
    {
        self.write_signed_bits(order, out, 16, value as i64)
    }

    // 32 bits.
    //     let _wrote = blank.write_u32(Order::Big, &mut out, 0x0001_0203);
    //     expect(b"write_u32", out[3] == 3);
    #[inline(always)]
    pub fn write_u32(self, order: Order, out: &mut [u8], value: u32) -> Result<Writer, Refusal>
        ensures answer { wrote_told self result ≡ write_of order (length out.old) self 32 value }
        ensures memory { out.new ≡ write_out order out.old self 32 value }
    {
        self.write_bits(order, out, 32, value as u64)
    }

    // 32 bits of a signed number.
    //     let _wrote = blank.write_i32(Order::Big, &mut out, -2);
    //     expect(b"write_i32", out[3] == 0xfe);
    pub fn write_i32(self, order: Order, out: &mut [u8], value: i32) -> Result<Writer, Refusal>
        ensures answer { wrote_told self result ≡ signed_of order (length out.old) self 32 value }
        ensures memory { out.new ≡ signed_out order out.old self 32 value }
    {
        self.write_signed_bits(order, out, 32, value as i64)
    }

    // A single is written no more: 16 where its 32 bits are not refused with 1, 2 or 8. `floats::double_of_single` makes a double of it.
    //     let one = floats::single_of_bits(0x3f80_0000);
    //     let wrote = blank.write_f32(Order::Big, &mut out, one);
    //     expect(b"write_f32", wrote == Err(Refusal::RetiredKind));
    pub fn write_f32(self, order: Order, out: &mut [u8], value: Single) -> Result<Writer, Refusal>
        ensures answer { wrote_told self result ≡ retired_of (length out.old) self }
        ensures memory { out.new ≡ out.old }
    {
        inner::refuse_single(out.len(), self)
    }

    // 64 bits.
    //     let _wrote = blank.write_u64(Order::Big, &mut out, 0x0001_0203_0405_0607);
    //     expect(b"write_u64", out[7] == 7);
    pub fn write_u64(self, order: Order, out: &mut [u8], value: u64) -> Result<Writer, Refusal>
        ensures answer { wrote_told self result ≡ write_of order (length out.old) self 64 value }
        ensures memory { out.new ≡ write_out order out.old self 64 value }
    {
        self.write_bits(order, out, 64, value)
    }

    // 64 bits of a signed number.
    //     let _wrote = blank.write_i64(Order::Big, &mut out, -2);
    //     expect(b"write_i64", out[7] == 0xfe);
    pub fn write_i64(self, order: Order, out: &mut [u8], value: i64) -> Result<Writer, Refusal>
        ensures answer { wrote_told self result ≡ signed_of order (length out.old) self 64 value }
        ensures memory { out.new ≡ signed_out order out.old self 64 value }
    {
        self.write_signed_bits(order, out, 64, value)
    }

    // The 64 bits of a double, as they are.
    //     let one = floats::double_of_bits(0x3ff0_0000_0000_0000);
    //     let _wrote = blank.write_f64(Order::Big, &mut out, one);
    //     expect(b"write_f64", out[1] == 0xf0);
    pub fn write_f64(self, order: Order, out: &mut [u8], value: Double) -> Result<Writer, Refusal>
        ensures answer { wrote_told self result ≡ write_of order (length out.old) self 64 (double_bits value) }
        ensures memory { out.new ≡ write_out order out.old self 64 (double_bits value) }
    {
        self.write_bits(order, out, 64, floats::bits_of_double(value))
    }

    // A field of 0 to 64 bits. Refusals 1, 2, 3, 4 (the value does not fit 1 to 63 bits) and 8; width 0 takes any value and stores none.
    //     let wrote = blank.write_bits(Order::Big, &mut out, 3, 5);
    //     expect(b"write_bits", wrote.is_ok());
    pub fn write_bits(
        self,
        order: Order,
        out: &mut [u8],
        bits: u32,
        value: u64,
    ) -> Result<Writer, Refusal>
        ensures answer { wrote_told self result ≡ write_of order (length out.old) self bits value }
        ensures memory { out.new ≡ write_out order out.old self bits value }
    {
        inner::check_write(out.len(), self, bits, value)?;
        if bits == 0 {
            return Ok(self);
        }
        let state = packing::inner::put_bits(order, out, inner::state_in(self), bits, value);
        Ok(inner::writer_with(state))
    }

    // The low bits of a signed number, 0 to 64 of them. Refusals 1, 2, 3 and 8.
    //     let wrote = last.write_signed_bits(Order::Big, &mut out, 8, -1);
    //     expect(b"write_signed_bits", out[1] == 0xff);
    pub fn write_signed_bits(
        self,
        order: Order,
        out: &mut [u8],
        bits: u32,
        value: i64,
    ) -> Result<Writer, Refusal>
        ensures answer { wrote_told self result ≡ signed_of order (length out.old) self bits value }
        ensures memory { out.new ≡ signed_out order out.old self bits value }
    {
        inner::check_signed(out.len(), self, bits, value)?;
        let low = packing::inner::low_bits(sign::inner::bits_of_signed(value), bits);
        let state = packing::inner::put_bits(order, out, inner::state_in(self), bits, low);
        Ok(inner::writer_with(state))
    }

    // The bits written in the current partial byte: 0 where the writer is at a byte's start.
    //     let over = next.unaligned_bits(&out);
    //     expect(b"unaligned_bits", over == Ok(3));
    pub fn unaligned_bits(self, out: &[u8]) -> Result<u32, Refusal>
        ensures { told 0 result ≡ unaligned_of (length out.now) self }
    {
        packing::inner::check(out.len(), inner::state_in(self))?;
        Ok(self.held)
    }

    // Bytes, eight bits each. Refusals 1 (also for the bytes), 2 and 8, before the first byte.
    //     let _wrote = last.write_bytes(Order::Big, &mut out, b"\x01\x02");
    //     expect(b"write_bytes", out[3] == 2);
    #[inline(always)]
    pub fn write_bytes(self, order: Order, out: &mut [u8], buf: &[u8]) -> Result<Writer, Refusal>
        ensures answer { wrote_told self result ≡ bytes_of order (length out.old) self buf.now }
        ensures memory { out.new ≡ bytes_out order out.old self buf.now }
    {
        inner::check_bytes(out.len(), self, buf.len())?;
        let state = packing::inner::put_bytes(order, out, inner::state_in(self), buf);
        Ok(inner::writer_with(state))
    }

    // Zeros up to a byte; nothing where no bit is held. It always has room. Refusals 1 and 2.
    //     let wrote = next.flush(Order::Big, &mut out);
    //     expect(b"flush", out[0] == 0xa0);
    pub fn flush(self, order: Order, out: &mut [u8]) -> Result<Writer, Refusal>
        ensures answer { wrote_told self result ≡ flush_of order (length out.old) self }
        ensures memory { out.new ≡ flush_out order out.old self }
    {
        packing::inner::check(out.len(), inner::state_in(self))?;
        Ok(inner::flush(order, out, self))
    }
}
