// A writer taken apart and put together, and the refusals and the padding behind its methods.
ghost use Rattle.std.specs.Prelude.{◌≡◌, ◌≤◌, length};
ghost use Rattle.bits.specs.Refusals.{number_of};
ghost use Rattle.packing.specs.Packing.{put, put_out, Belongs};
ghost use Rattle.writer.specs.Writer.{state_in, writer_with, oversized, room_refusal, write_refusal, signed_refusal, bytes_refusal, padding};
ghost use Rattle.writer.specs.Answers.{wrote_told, retired_of};

use crate::Writer;
use bits::{LONGEST, Order, Refusal};
use packing::State;

// The state of a writer.
pub fn state_in(w: Writer) -> State
    ensures { result ≡ state_in w }
{
    State {
        written: w.written,
        held: w.held,
        number: w.number,
    }
}

// The writer with a state.
pub fn writer_with(state: State) -> Writer
    ensures { result ≡ writer_with state }
{
    Writer {
        written: state.written,
        held: state.held,
        number: state.number,
    }
}

// Whether a value is at or above 2^n, which at n = 64 none is.
fn too_large(value: u64, n: u32) -> bool
    requires { (1 ≤ n) × (n ≤ 64) }
    ensures { result ≡ oversized n value }
{
    1 < value >> (n - 1)
}

// Tests for room: 8 where n bits more do not fit the output.
pub fn check_room(len: usize, w: Writer, n: usize) -> Result<(), Refusal>
    requires { Belongs len (state_in w) × (n ≤ 134217728) }
    ensures { number_of result ≡ room_refusal len w n }
{
    if 8 * (len - w.written) < w.held as usize + n {
        Err(Refusal::NoRoom)
    } else {
        Ok(())
    }
}

// Tests an unsigned write: 1 and 2, then 3, 4 and 8.
pub fn check_write(len: usize, w: Writer, bits: u32, value: u64) -> Result<(), Refusal>
    ensures { number_of result ≡ write_refusal len w bits value }
{
    packing::inner::check(len, state_in(w))?;
    if 64 < bits {
        return Err(Refusal::TooWide);
    }
    if bits == 0 {
        return Ok(());
    }
    if too_large(value, bits) {
        return Err(Refusal::TooLarge);
    }
    check_room(len, w, bits as usize)
}

// Tests a signed write, which takes every number: 1 and 2, then 3 and 8.
pub fn check_signed(len: usize, w: Writer, bits: u32, value: i64) -> Result<(), Refusal>
    ensures { number_of result ≡ signed_refusal len w bits value }
{
    packing::inner::check(len, state_in(w))?;
    if 64 < bits {
        return Err(Refusal::TooWide);
    }
    check_room(len, w, bits as usize)
}

// Refuses a single: 1 and 2, then 8, and 16 where nothing lower refuses its 32 bits.
pub fn refuse_single(len: usize, w: Writer) -> Result<Writer, Refusal>
    ensures { wrote_told w result ≡ retired_of len w }
{
    packing::inner::check(len, state_in(w))?;
    check_room(len, w, 32)?;
    Err(Refusal::RetiredKind)
}

// Tests a write of n bytes: 1 also for the bytes, 2, then 8.
pub fn check_bytes(len: usize, w: Writer, n: usize) -> Result<(), Refusal>
    ensures { number_of result ≡ bytes_refusal len w n }
{
    if LONGEST < n {
        return Err(Refusal::TooLong);
    }
    packing::inner::check(len, state_in(w))?;
    check_room(len, w, 8 * n)
}

// Zeros up to a byte. Between calls at most seven bits are held, so where any are, a byte lacks one to seven; the Rust tests that it is not eight.
pub fn flush(order: Order, out: &mut [u8], w: Writer) -> Writer
    requires { Belongs (length out.old) (state_in w) }
    ensures answer { result ≡ writer_with (put order (state_in w) (padding w) 0) }
    ensures memory { out.new ≡ put_out order out.old (state_in w) (padding w) 0 }
{
    if 0 < w.held {
        return writer_with(packing::inner::put_bits(order, out, state_in(w), 8 - w.held, 0));
    }
    w
}
