// Numbers spelled in digits, read from a place of a text.
#![tactic(auto)]

pub mod inner;
