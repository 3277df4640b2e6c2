// Numbers spelled in digits, put at a place of an output.
#![tactic(auto)]

pub mod inner;
