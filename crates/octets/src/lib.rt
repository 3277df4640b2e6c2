// Bytes from any bit place of a slice.
#![tactic(auto)]

pub mod inner;
