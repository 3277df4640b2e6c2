// What the programs share: reading all of standard input and writing to standard output.
#![tactic(auto)]

pub mod inner;
