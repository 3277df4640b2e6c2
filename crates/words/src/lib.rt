// Words of 64 bits loaded from a slice, and fields at a place with no cursor.
#![tactic(auto)]

pub mod inner;
