// An interpreter of scripts: lines of text that set up a source, an output, a cursor and a writer, and call the library on them. The
// format is described in docs/REPLAY.md. What is proved here is that no script traps it.
#![tactic(auto)]

ghost use Rattle.std.specs.Prelude.{◌≡◌, ◌≤◌, length, take};

use bits::{Order, Refusal};
use reader::Cursor;
use script_words::inner as spelling;
use script_words::inner::Line;
use writer::Writer;

mod fixed;
mod others;
pub mod program;
mod reads;
mod writes;

// The order, whether calls are made the other way, how many bytes of the source and of the output are in use, the cursor and the writer.
// (No heap: source and output are arrays of a fixed size, and their counts stand here.)
#[derive(Clone, Copy, Debug, PartialEq, Eq)]
struct Machine {
    order: Order,
    other: bool,
    len: usize,
    size: usize,
    cursor: Cursor,
    writer: Writer,
}

// What a line calls, if anything.
#[derive(Clone, Copy, Debug, PartialEq, Eq)]
enum Target {
    Cursor,
    Writer,
    Nothing,
}

// The machine after a line, and the length of the answer; 0 where the line asks nothing.
#[derive(Clone, Copy, Debug, PartialEq, Eq)]
struct Done {
    machine: Machine,
    length: usize,
}

// A machine with an empty source, an empty output, and a cursor and a writer of zeros.
fn start() -> Machine {
    Machine {
        order: Order::Little,
        other: false,
        len: 0,
        size: 0,
        cursor: Cursor::from_parts(0, 0, 0, 0),
        writer: Writer {
            written: 0,
            held: 0,
            number: 0,
        },
    }
}

// Runs a line: `src` and `out` hold the source and the output, `buf` the line's bytes, which may be lost, and `line` takes the answer.
fn run_line(
    l: Line,
    m: Machine,
    src: &mut [u8],
    out: &mut [u8],
    buf: &mut [u8],
    line: &mut [u8],
) -> Done
    ensures { result.length ≤ length line.old }
{
    match target_of(l.letter) {
        Target::Cursor => on_cursor(l, m, src, buf, line),
        Target::Writer => on_writer(l, m, out, buf, line),
        Target::Nothing => Done {
            machine: setup(l, m, src, out, buf),
            length: 0,
        },
    }
}

// What a letter calls: sign extension and the double of a single are answered beside the calls on the cursor. (Letters stay as scripts
// have them: an enum of calls would only spell each a second time.)
fn target_of(letter: u8) -> Target {
    match letter {
        b'n' | b'b' | b's' | b'f' | b'q' | b'h' | b'p' | b'c' | b'r' | b'y' | b'm' =>
            Target::Cursor,
        b'l' | b'k' | b'g' | b'e' | b'd' => Target::Cursor,
        b'N' | b'w' | b'x' | b'F' | b'Y' | b'u' | b'z' | b'o' | b'K' => Target::Writer,
        _ => Target::Nothing,
    }
}

// The machine after a line that sets something up; the same after any other.
fn setup(l: Line, m: Machine, src: &mut [u8], out: &mut [u8], buf: &[u8]) -> Machine {
    let mut next = m;
    match l.letter {
        b'L' => next.order = Order::Little,
        b'B' => next.order = Order::Big,
        b'T' => next.other = true,
        b'U' => next.other = false,
        b'S' => next.len = spelling::copy(buf, l.count, src),
        b'O' => next.size = spelling::repeat(out, l.first, (l.second % 256) as u8),
        b'C' => next.cursor = given_cursor(l, src, m.len),
        b'E' => next.cursor = given_end(l, m.cursor),
        b'D' => next.writer = given_writer(l),
        _ => {}
    }
    next
}

// The cursor of three numbers, its end that of a fresh one.
fn given_cursor(l: Line, all: &[u8], n: usize) -> Cursor {
    let len = within(all, n);
    let end = Cursor::new(&all[..len]).map_or(0, |fresh| fresh.end);
    Cursor::from_parts(
        l.first as usize,
        (l.second % 0x1_0000_0000) as u32,
        l.third,
        end,
    )
}

// The cursor with another end, legal or not.
fn given_end(l: Line, c: Cursor) -> Cursor {
    Cursor::from_parts(c.offset, c.lookahead, c.register, l.first as usize)
}

// The writer of three numbers.
fn given_writer(l: Line) -> Writer {
    Writer {
        written: l.first as usize,
        held: (l.second % 0x1_0000_0000) as u32,
        number: l.third,
    }
}

// Runs a call on the cursor, sign extension, or the change of a single into a double.
fn on_cursor(l: Line, m: Machine, all: &[u8], buf: &mut [u8], line: &mut [u8]) -> Done
    ensures { result.length ≤ length line.old }
{
    let len = within(all, m.len);
    let after = if m.other {
        others::read(l, m.order, m.cursor, &all[..len], buf, line)
    } else {
        reads::call(l, m.order, m.cursor, &all[..len], buf, line)
    };
    let mut next = m;
    next.cursor = after.cursor;
    Done {
        machine: next,
        length: after.length,
    }
}

// Runs a call on the writer.
fn on_writer(l: Line, m: Machine, all: &mut [u8], buf: &[u8], line: &mut [u8]) -> Done
    ensures { result.length ≤ length line.old }
{
    let size = within(all, m.size);
    let count = within(buf, l.count);
    let after = if m.other {
        others::write(l, m.order, m.writer, &mut all[..size], &buf[..count], line)
    } else {
        writes::call(l, m.order, m.writer, &mut all[..size], &buf[..count], line)
    };
    let mut next = m;
    next.writer = after.writer;
    Done {
        machine: next,
        length: after.length,
    }
}

// n, or the number of bytes in `all` if it is less.
fn within(all: &[u8], n: usize) -> usize
    ensures in_bounds { result ≤ length all.now }
    ensures prefix { result ≡ length (take result all.now) }
{
    all.len().min(n)
}

// A number as a width or a count: one past 32 bits is a large one.
fn narrow(n: u64) -> u32 {
    u32::try_from(n).unwrap_or(u32::MAX)
}

// An answer as its two numbers: that of the refusal or 0, and the value or 0.
fn numbers(value: Result<u64, Refusal>) -> (u64, u64) {
    match value {
        Ok(value) => (0, value),
        Err(refusal) => (u64::from(refusal.number()), 0),
    }
}
