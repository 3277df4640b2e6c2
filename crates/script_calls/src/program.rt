// The program that runs a script: standard input to standard output.
ghost use Rattle.std.specs.Prelude.{◌≤◌, ◌+◌, length};

use crate::{Done, Machine};
use script_words::inner as spelling;
use script_words::inner::Line;
use std::io::Read;

// Answers are written once they take so many of the 65,536 bytes kept for them; the longest answer line has some 8,300.
const MANY: usize = 49152;

// Reads a script, runs its lines one after the other, and writes the answers.
pub fn run(stdin: &mut impl Read, rt: &impl Print) {
    let mut space = [0u8; 262144];
    let mut src = [0u8; 4096];
    let mut out = [0u8; 4096];
    let mut buf = [0u8; 4096];
    let mut lines = [0u8; 65536];
    let n = match programs::inner::read_input(stdin, &mut space) {
        Ok(n) | Err(n) => n,
    };
    answer(rt, &space[..n], &mut src, &mut out, &mut buf, &mut lines);
}

// Runs a script. Answers are gathered in `lines`, and written when they are many. (The place goes on by what a line took, not by one.)
fn answer(
    rt: &impl Print,
    script: &[u8],
    src: &mut [u8],
    out: &mut [u8],
    buf: &mut [u8],
    lines: &mut [u8],
) {
    let mut m = crate::start();
    let mut at = 0;
    let mut used = 0;
    while at < script.len() {
        let l = spelling::line_at(script, at, buf);
        let done = called(rt, l, m, src, out, buf, lines, used);
        m = done.machine;
        used = done.length;
        at = l.next;
    }
    write(rt, lines, used);
}

// Runs a line behind the answers so far: the machine after it, and the end of the answers.
fn called(
    rt: &impl Print,
    l: Line,
    m: Machine,
    src: &mut [u8],
    out: &mut [u8],
    buf: &mut [u8],
    lines: &mut [u8],
    used: usize,
) -> Done
    requires { used ≤ length lines.old }
    ensures { result.length ≤ length lines.old }
{
    let done = crate::run_line(l, m, src, out, buf, &mut lines[used..]);
    Done {
        machine: done.machine,
        length: ended(rt, lines, used, done.length),
    }
}

// The place behind an answer and its newline, after the answers were written if they are many; the same place where there is no answer.
fn ended(rt: &impl Print, lines: &mut [u8], used: usize, count: usize) -> usize
    requires { used + count ≤ length lines.old }
    ensures { result ≤ length lines.old }
{
    if count == 0 {
        return used;
    }
    let end = spelling::put(lines, used + count, 10);
    if end < MANY {
        return end;
    }
    write(rt, lines, end);
    0
}

// Writes the first n bytes of some answers.
fn write(rt: &impl Print, lines: &[u8], n: usize)
    requires { n ≤ length lines.now }
{
    let _done = rt.write_all(&lines[..n]);
}
