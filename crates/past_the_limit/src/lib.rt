// For tests from C: a lent slice is handed to the calls of each library below text, and the refusal number comes back. A Rattle program can't hold a
// slice past the limit; a C program can.
#![tactic(auto)]

pub mod inner;
