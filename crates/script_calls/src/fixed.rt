// The reads and writes of a fixed width, which scripts number from 0 to 10.
use typed::Kind;

#[derive(Clone, Copy, Debug, PartialEq, Eq)]
pub enum Fixed {
    Bit,
    U8,
    I8,
    U16,
    I16,
    U32,
    I32,
    F32,
    U64,
    I64,
    F64,
}

impl From<u64> for Fixed {
    fn from(number: u64) -> Fixed {
        match number {
            0 => Fixed::Bit,
            1 => Fixed::U8,
            2 => Fixed::I8,
            3 => Fixed::U16,
            4 => Fixed::I16,
            5 => Fixed::U32,
            6 => Fixed::I32,
            7 => Fixed::F32,
            8 => Fixed::U64,
            9 => Fixed::I64,
            _ => Fixed::F64,
        }
    }
}

impl Fixed {
    // The kind of its values; one bit has none.
    pub(crate) fn kind(self) -> Option<Kind> {
        match self {
            Fixed::Bit => None,
            Fixed::U8 | Fixed::U16 | Fixed::U32 | Fixed::U64 => Some(Kind::Unsigned),
            Fixed::I8 | Fixed::I16 | Fixed::I32 | Fixed::I64 => Some(Kind::Signed),
            Fixed::F32 => Some(Kind::Single),
            Fixed::F64 => Some(Kind::Double),
        }
    }

    // How many bits it has.
    pub(crate) fn width(self) -> u32 {
        match self {
            Fixed::Bit => 1,
            Fixed::U8 | Fixed::I8 => 8,
            Fixed::U16 | Fixed::I16 => 16,
            Fixed::U32 | Fixed::I32 | Fixed::F32 => 32,
            Fixed::U64 | Fixed::I64 | Fixed::F64 => 64,
        }
    }

    // The low bits of a number as it takes them: as they are, or widened by their sign.
    pub(crate) fn low_bits(self, n: u64) -> u64 {
        match self {
            Fixed::Bit => n % 2,
            Fixed::U8 => n % 0x100,
            Fixed::I8 => sign::inner::widened(n % 0x100, 8),
            Fixed::U16 => n % 0x1_0000,
            Fixed::I16 => sign::inner::widened(n % 0x1_0000, 16),
            Fixed::U32 | Fixed::F32 => n % 0x1_0000_0000,
            Fixed::I32 => sign::inner::widened(n % 0x1_0000_0000, 32),
            Fixed::U64 | Fixed::I64 | Fixed::F64 => n,
        }
    }
}
