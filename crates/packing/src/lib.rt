// Bits joined behind bits, and stored as bytes once they are full.
#![tactic(auto)]

pub mod inner;

// The bytes that are full, and the bits held until they fill a byte: how many, and as a number.
#[derive(Clone, Copy, Debug, PartialEq, Eq)]
pub struct State {
    pub written: usize,
    pub held: u32,
    pub number: u64,
}
