// The words of a script of calls (docs/REPLAY.md): numbers and bytes in hexadecimal digits, read from a text and written to a line.
// What is proved here is that no text traps a function, and that what it answers lies within the text or the line.
#![tactic(auto)]

pub mod inner;
