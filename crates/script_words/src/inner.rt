// Reading words behind a place in a text, and writing words behind a line's end. A line takes what there is room for.
ghost use Rattle.std.specs.Prelude.{◌≡◌, ◌≤◌, ◌<◌, ◌+◌, length, take, IfSome};

// A number, and the place behind it.
#[derive(Clone, Copy, Debug, PartialEq, Eq)]
struct Number {
    value: u64,
    next: usize,
}

// A line's letter, the three numbers and the count of bytes behind it, of which the ones that it has mean something, and the place of
// the next line.
#[derive(Clone, Copy, Debug, PartialEq, Eq)]
pub struct Line {
    pub letter: u8,
    pub first: u64,
    pub second: u64,
    pub third: u64,
    pub count: usize,
    pub next: usize,
}

// The line at `at`, its bytes put into `buf`.
pub fn line_at(text: &[u8], at: usize, buf: &mut [u8]) -> Line
    requires { at < length text.now }
    ensures { at < result.next }
{
    let first = next_number(text, at + 1);
    let second = next_number(text, first.next);
    let third = next_number(text, second.next);
    Line {
        letter: text[at],
        first: first.value,
        second: second.value,
        third: third.value,
        count: bytes(text, at + 1, buf),
        next: line_end(text, at),
    }
}

// The place behind the newline that ends the line at `at`, or the text's end.
fn line_end(text: &[u8], at: usize) -> usize
    requires { at < length text.now }
    ensures { (at < result) × (result ≤ length text.now) }
{
    match text[at..].iter().position(|b| *b == b'\n') {
        Some(before) => at + before + 1,
        None => text.len(),
    }
}

// The value of a hexadecimal digit, which is none of the large letters.
fn digit(b: u8) -> Option<u8>
    ensures { IfSome result (λ d. d < 16) }
{
    match b {
        b'0'..=b'9' => Some(b - b'0'),
        b'a'..=b'f' => Some(b - b'a' + 10),
        _ => None,
    }
}

// The place behind a space, if one stands there.
fn skip_space(text: &[u8], at: usize) -> usize
    requires { at ≤ length text.now }
    ensures { result ≤ length text.now }
{
    if at < text.len() && text[at] == b' ' {
        return at + 1;
    }
    at
}

// The hexadecimal number behind a space, its last 16 digits; 0 where there is none.
fn next_number(text: &[u8], at: usize) -> Number
    requires { at ≤ length text.now }
    ensures { result.next ≤ length text.now }
{
    let mut value: u64 = 0;
    for i in skip_space(text, at)..text.len() {
        let Some(d) = digit(text[i]) else {
            return Number { value, next: i };
        };
        value = value % 0x1000_0000_0000_0000 * 16 + u64::from(d);
    }
    Number {
        value,
        next: text.len(),
    }
}

// The byte that two digits stand for.
fn pair(high: u8, low: u8) -> Option<u8> {
    Some(digit(high)? * 16 + digit(low)?)
}

// The bytes behind a space, two digits each, as many as there is room for; the answer is their count.
fn bytes(text: &[u8], at: usize, into: &mut [u8]) -> usize
    requires { at ≤ length text.now }
    ensures { result ≤ length into.old }
{
    let mut n = 0;
    for two in text[skip_space(text, at)..].chunks_exact(2) {
        let Some(byte) = pair(two[0], two[1]) else {
            return n;
        };
        if n == into.len() {
            return n;
        }
        into[n] = byte;
        n += 1;
    }
    n
}

// A byte at the line's end, if there is room; the answer is the new end.
pub fn put(line: &mut [u8], at: usize, b: u8) -> usize
    requires { at ≤ length line.old }
    ensures { result ≤ length line.old }
{
    if at < line.len() {
        line[at] = b;
        return at + 1;
    }
    at
}

// The hexadecimal digit of a number below 16.
fn glyph(d: u8) -> u8
    requires { d < 16 }
{
    if d < 10 { b'0' + d } else { b'a' + d - 10 }
}

// A number in hexadecimal digits, without needless zeros in front.
fn put_number(line: &mut [u8], at: usize, n: u64) -> usize
    requires { at ≤ length line.old }
    ensures { result ≤ length line.old }
{
    let mut end = at;
    for place in (0..n.max(1).ilog2() / 4 + 1).rev() {
        end = put(line, end, glyph((n >> (4 * place) & 0xf) as u8));
    }
    end
}

// A byte as two digits.
fn put_byte(line: &mut [u8], at: usize, b: u8) -> usize
    requires { at ≤ length line.old }
    ensures { result ≤ length line.old }
{
    let middle = put(line, at, glyph(b / 16));
    put(line, middle, glyph(b % 16))
}

// Bytes, two digits each.
fn put_bytes(line: &mut [u8], at: usize, some: &[u8]) -> usize
    requires { at ≤ length line.old }
    ensures { result ≤ length line.old }
{
    let mut end = at;
    for b in some {
        end = put_byte(line, end, *b);
    }
    end
}

// A space and bytes.
pub fn put_next_bytes(line: &mut [u8], at: usize, some: &[u8]) -> usize
    requires { at ≤ length line.old }
    ensures { result ≤ length line.old }
{
    let space = put(line, at, b' ');
    put_bytes(line, space, some)
}

// A space and a number.
fn put_next(line: &mut [u8], at: usize, n: u64) -> usize
    requires { at ≤ length line.old }
    ensures { result ≤ length line.old }
{
    let space = put(line, at, b' ');
    put_number(line, space, n)
}

// A line of one number.
pub fn put_one(line: &mut [u8], a: u64) -> usize
    ensures { result ≤ length line.old }
{
    put_number(line, 0, a)
}

// A line of two numbers.
pub fn put_two(line: &mut [u8], a: u64, b: u64) -> usize
    ensures { result ≤ length line.old }
{
    let end = put_one(line, a);
    put_next(line, end, b)
}

// A line of three numbers.
pub fn put_three(line: &mut [u8], a: u64, b: u64, c: u64) -> usize
    ensures { result ≤ length line.old }
{
    let end = put_two(line, a, b);
    put_next(line, end, c)
}

// A line of four numbers.
pub fn put_four(line: &mut [u8], a: u64, b: u64, c: u64, d: u64) -> usize
    ensures { result ≤ length line.old }
{
    let end = put_three(line, a, b, c);
    put_next(line, end, d)
}

// A line of bytes behind a mark, so that it is never empty.
pub fn put_marked(line: &mut [u8], some: &[u8]) -> usize
    ensures { result ≤ length line.old }
{
    let end = put(line, 0, b'=');
    put_bytes(line, end, some)
}

// Writes n bytes b at the start of `out`, or as many as there is room for; the answer is their count.
pub fn repeat(out: &mut [u8], n: u64, b: u8) -> usize
    ensures in_bounds { result ≤ length out.new }
    ensures prefix { result ≡ length (take result out.new) }
{
    let count = out.len().min(n as usize);
    out[..count].fill(b);
    count
}

// Copies the first n bytes of `from` to the start of `into`, or as many as there are and there is room for; the answer is their count.
pub fn copy(from: &[u8], n: usize, into: &mut [u8]) -> usize
    ensures { result ≤ length into.old }
{
    let count = n.min(from.len()).min(into.len());
    into[..count].copy_from_slice(&from[..count]);
    count
}
