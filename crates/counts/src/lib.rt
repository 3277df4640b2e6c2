// The counts of a cursor, and how calls move them: no bytes, no order.
#![tactic(auto)]

pub mod inner;

// The offset of the first byte not yet fetched, and the bits that are fetched and not yet taken.
// The slice's length is no field: each caller has it from the slice that it holds (`src.len()`), and here it would stand beside it.
#[derive(Clone, Copy, Debug, PartialEq, Eq)]
pub struct Counts {
    pub offset: usize,
    pub lookahead: u32,
}
