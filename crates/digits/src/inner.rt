// Whole parts and decimals read from a place of a text, for proved callers.
ghost use Rattle.std.specs.Prelude.{◌≡◌, true, ◌+◌, ◌-◌, ◌*◌, ◌≤◌, length, drop};
ghost use Rattle.digits.specs.Digits.{zero_digit};
ghost use Rattle.digits.specs.Reading.{is_digit, run as Reading·run, most, sat, starts, closed, is_whole, whole_at, decimals_at, run_at, Stands};

// What no field holds: the value of a part that is bad or too large. No Option: the definition `bad` of specs/Reading holds it, and sums
// carry it on to one test of the whole line.
pub const MOST: u64 = 1_000_000_000_000;

// A part's value, how many digits it has, and the place behind the byte that ends it. What is bad has the value MOST, no digit, and the
// end of the text as its place.
#[derive(Clone, Copy, Debug, PartialEq, Eq)]
pub struct PartAt {
    pub value: u64,
    pub count: usize,
    pub next: usize,
}

// The value of a run of digits, and the place where it ends.
#[derive(Clone, Copy, Debug, PartialEq, Eq)]
pub struct Run {
    pub value: u64,
    pub next: usize,
}

// The value with one digit more behind it; it stays at MOST once it is there.
fn one_more(value: u64, b: u8) -> u64
    requires { (value ≤ most) × (is_digit b ≡ true) }
    ensures { result ≡ sat (10 * value + (b - zero_digit)) }
{
    let n = 10 * value + u64::from(b - b'0');
    n.min(MOST)
}

// The digits from a place on: their value, and where they end.
fn run_at(src: &[u8], at: usize) -> Run
    requires { at ≤ length src.now }
    ensures { result ≡ run_at src.now at }
{
    let mut value = 0;
    for i in at..src.len() {
        let b = src[i];
        if !b.is_ascii_digit() {
            return Run { value, next: i };
        }
        value = one_more(value, b);
    }
    Run {
        value,
        next: src.len(),
    }
}

// Whether a byte stands at a place.
pub fn starts_at(src: &[u8], at: usize, b: u8) -> bool
    requires { at ≤ length src.now }
    ensures { result ≡ starts b (drop at src.now) }
{
    at < src.len() && src[at] == b
}

// A run that passed its test, or did not, with the byte that has to end it.
fn close(src: &[u8], at: usize, run: Run, ok: bool, end: u8) -> PartAt
    requires { (at ≤ length src.now) × (run ≡ run_at src.now at) }
    ensures { Stands src.now result (closed ok end (drop at src.now)) }
{
    if ok && starts_at(src, run.next, end) {
        PartAt {
            value: run.value,
            count: run.next - at,
            next: run.next + 1,
        }
    } else {
        PartAt {
            value: MOST,
            count: 0,
            next: src.len(),
        }
    }
}

// Whether a run is a whole part: a digit or more, and a 0 in front only if it stands alone.
fn is_whole(src: &[u8], at: usize, run: Run) -> bool
    requires { (at ≤ length src.now) × (run ≡ run_at src.now at) }
    ensures { result ≡ is_whole (Reading·run (drop at src.now)) }
{
    at < run.next && (src[at] != b'0' || run.next - at == 1)
}

// The whole part at a place, ended by a byte.
pub fn whole_at(src: &[u8], at: usize, end: u8) -> PartAt
    requires { at ≤ length src.now }
    ensures { Stands src.now result (whole_at end (drop at src.now)) }
{
    let run = run_at(src, at);
    let ok = is_whole(src, at, run);
    close(src, at, run, ok, end)
}

// The decimals at a place, from low to high of them, ended by a byte.
pub fn decimals_at(src: &[u8], at: usize, low: usize, high: usize, end: u8) -> PartAt
    requires { at ≤ length src.now }
    ensures { Stands src.now result (decimals_at low high end (drop at src.now)) }
{
    let run = run_at(src, at);
    let count = run.next - at;
    close(src, at, run, low <= count && count <= high, end)
}
