// A cursor's state over a slice: its counts, and the register that holds its lookahead.
#![tactic(auto)]

pub mod inner;

// The offset of the first byte not yet fetched, the bits fetched and not yet taken, and the register that holds them.
#[derive(Clone, Copy, Debug, PartialEq, Eq)]
pub struct State {
    pub offset: usize,
    pub lookahead: u32,
    pub register: u64,
}

// A value, and the state after it was taken.
#[derive(Clone, Copy, Debug, PartialEq, Eq)]
pub struct Taken {
    pub value: u64,
    pub state: State,
}
