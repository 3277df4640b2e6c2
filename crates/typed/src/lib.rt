// Typed values: a value whose case is its kind, read and written in either order. The kinds are closed, so calls match on them.
#![tactic(auto)]

ghost use Rattle.std.specs.Prelude.{◌≡◌, nat_eq, length};
ghost use Rattle.std.specs.Ordering.{on, eq_of_both};
ghost use Rattle.std.specs.Cmp.Rules.{comparing};
ghost use Rattle.std.proofs.Common.{rules};
ghost use Rattle.writer.specs.Answers.{wrote_told};
ghost use Rattle.typed.specs.Typed.{typed_of, bits_of, kind_of, number_of, same_typed, widened_typed};
ghost use Rattle.typed.specs.Answers.{typed_told, read_of, write_of, write_out};

use bits::{Order, Refusal};
use floats::{Double, Single};
use reader::{Cursor, Read};
use writer::Writer;

// The four kinds.
#[derive(Clone, Copy, Debug, PartialEq, Eq)]
pub enum Kind {
    Unsigned,
    Signed,
    Single,
    Double,
}

// A value of a kind. A single or a double keeps every bit pattern, a NaN's too. A value means its bits: a single or a double whose
// `Bits` are no NaN's is the number with these bits, and no read gives it.
#[derive(Clone, Copy, Debug)]
pub enum Typed {
    Unsigned(u64),
    Signed(i64),
    Single(Single),
    Double(Double),
}

impl Typed {
    // The kind of the value: its case.
    fn kind(self) -> Kind
        ensures { result ≡ kind_of self }
    {
        match self {
            Typed::Unsigned(_) => Kind::Unsigned,
            Typed::Signed(_) => Kind::Signed,
            Typed::Single(_) => Kind::Single,
            Typed::Double(_) => Kind::Double,
        }
    }
}

// Of one kind, and with the same bits.
impl PartialEq for Typed {
    ghost eq = { eq_of_both (on (λ v. number_of (kind_of v)) nat_eq) (on bits_of nat_eq) };

    ghost laws = { Prim.search (comparing, rules) };

    fn eq(&self, other: &Typed) -> bool {
        self.kind() == other.kind() && bits_of_typed(*self) == bits_of_typed(*other)
    }
}

impl Eq for Typed {
    ghost laws = { Prim.search (comparing, rules) };
}

// The value of a kind that 64 bits make: themselves, their two's complement, their low 32 as a single, or all as a double.
//     let two = typed::typed_of_bits(Kind::Signed, 0xffff_ffff_ffff_fffe);
//     let bits = typed::bits_of_typed(two);
//     expect(b"bits_of_typed", bits == 0xffff_ffff_ffff_fffe);
pub fn typed_of_bits(kind: Kind, bits: u64) -> Typed
    ensures { result ≡ typed_of kind bits }
{
    match kind {
        Kind::Unsigned => Typed::Unsigned(bits),
        Kind::Signed => Typed::Signed(sign::inner::signed_of_bits(bits)),
        Kind::Single => Typed::Single(floats::single_of_bits((bits % 0x1_0000_0000) as u32)),
        Kind::Double => Typed::Double(floats::double_of_bits(bits)),
    }
}

// The bits of a typed value, a single's in the low 32.
//     let two = typed::typed_of_bits(Kind::Signed, 0xffff_ffff_ffff_fffe);
//     let bits = typed::bits_of_typed(two);
//     expect(b"bits_of_typed", bits == 0xffff_ffff_ffff_fffe);
pub fn bits_of_typed(value: Typed) -> u64
    ensures { result ≡ bits_of value }
{
    match value {
        Typed::Unsigned(n) => n,
        Typed::Signed(z) => sign::inner::bits_of_signed(z),
        Typed::Single(x) => floats::bits_of_single(x) as u64,
        Typed::Double(x) => floats::bits_of_double(x),
    }
}

// Whether two typed values are the same: of one kind, and with the same bits.
//     let near = typed::typed_of_bits(Kind::Unsigned, 0xffff_ffff_ffff_fffe);
//     expect(b"same_typed", !typed::same_typed(two, near));
pub fn same_typed(a: Typed, b: Typed) -> bool
    ensures { result ≡ same_typed a b }
{
    a == b
}

// A single as the double that means the same, all NaNs as one (`floats::double_of_single`); a value of another kind as it is.
//     let zero = typed::typed_of_bits(Kind::Single, 0x8000_0000);
//     let wide = typed::widen_typed(zero);
//     let bits = typed::bits_of_typed(wide);
//     expect(b"widen_typed", bits == 0x8000_0000_0000_0000);
pub fn widen_typed(value: Typed) -> Typed
    ensures { result ≡ widened_typed value }
{
    match value {
        Typed::Unsigned(n) => Typed::Unsigned(n),
        Typed::Signed(z) => Typed::Signed(z),
        Typed::Single(x) => Typed::Double(floats::double_of_single(x)),
        Typed::Double(x) => Typed::Double(x),
    }
}

// Reads a value of a kind; the width is that of an unsigned or signed one, and else not looked at. Refusals 1, 2, 3 and 9.
//     let read = typed::read_typed(start, Order::Big, b"\xfe", Kind::Signed, 8)?;
//     let bits = typed::bits_of_typed(read.value);
//     expect(b"read_typed", bits == 0xffff_ffff_ffff_fffe);
pub fn read_typed(
    cursor: Cursor,
    order: Order,
    src: &[u8],
    kind: Kind,
    width: u32,
) -> Result<Read<Typed>, Refusal>
    ensures { typed_told cursor result ≡ read_of order src.now cursor kind width }
{
    match kind {
        Kind::Unsigned => {
            let read = cursor.read_bits(order, src, width)?;
            Ok(Read {
                value: Typed::Unsigned(read.value),
                cursor: read.cursor,
            })
        }
        Kind::Signed => {
            let read = cursor.read_signed_bits(order, src, width)?;
            Ok(Read {
                value: Typed::Signed(read.value),
                cursor: read.cursor,
            })
        }
        Kind::Single => {
            let read = cursor.read_f32(order, src)?;
            Ok(Read {
                value: Typed::Single(read.value),
                cursor: read.cursor,
            })
        }
        Kind::Double => {
            let read = cursor.read_f64(order, src)?;
            Ok(Read {
                value: Typed::Double(read.value),
                cursor: read.cursor,
            })
        }
    }
}

// Writes a typed value; its case is its kind, and the width is that of an unsigned or signed one, else not looked at. Refusals as for
// the write beneath: 1, 2, 3, 4 and 8; of a single 16, where it is not 1, 2 or 8.
//     let _wrote = typed::write_typed(blank, Order::Big, &mut out, two, 8);
//     expect(b"write_typed", out[0] == 0xfe);
pub fn write_typed(
    writer: Writer,
    order: Order,
    out: &mut [u8],
    value: Typed,
    width: u32,
) -> Result<Writer, Refusal>
    ensures answer { wrote_told writer result ≡ write_of order (length out.old) writer value width }
    ensures memory { out.new ≡ write_out order out.old writer value width }
{
    match value {
        Typed::Unsigned(n) => writer.write_bits(order, out, width, n),
        Typed::Signed(z) => writer.write_signed_bits(order, out, width, z),
        Typed::Single(x) => writer.write_f32(order, out, x),
        Typed::Double(x) => writer.write_f64(order, out, x),
    }
}
