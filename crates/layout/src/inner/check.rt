// The plan check: which bytes are a plan.
ghost use Rattle.std.specs.Prelude.{◌≡◌, true, cond, Some, None, MatchOption, ◌-◌, ◌<◌, ◌≤◌, length, get_or, drop};
ghost use Rattle.layout.specs.Plan.{count as count_of};
ghost use Rattle.layout.specs.Check.{fits as fits_of, ends_wide, at_field, in_wide, is_plan};
ghost use Rattle.layout.specs.Take.{TakenAt, NoneAt};

use crate::inner::steps;

// Whether a take is of at least low bits and at most g.
fn fits(b: u8, low: u32, g: u32) -> bool
    ensures { result ≡ fits_of low g b }
{
    let n = steps::count(b);
    low <= n && n <= g
}

// Whether a step takes the last 1 to 8 bits of a wide field.
fn ends_wide(b: u8) -> bool
    ensures { result ≡ ends_wide b }
{
    steps::ends(b) && 1 <= b % 64 && b % 64 <= 8
}

// A take that fits: where the step after it is, the take itself, and the known lookahead that it leaves.
#[derive(Clone, Copy, Debug, PartialEq, Eq)]
pub struct Take {
    pub next: usize,
    pub step: u8,
    pub left: u32,
}

// The take b, if it is of at least low bits and at most g.
fn taken(next: usize, b: u8, low: u32, g: u32) -> Option<Take>
    ensures { result ≡ cond (fits_of low g b) (Some (record { next = next; step = b; left = g - count_of b })) None }
{
    if !fits(b, low, g) {
        return None;
    }
    Some(Take {
        next,
        step: b,
        left: g - steps::count(b),
    })
}

// The take at step i, with a known lookahead g: that step, or the one behind a refill, which has to be of more than g bits.
fn take_at(p: &[u8], i: usize, g: u32) -> Option<Take>
    requires { (i < length p.now) × (g ≤ 56) }
    ensures { MatchOption result (NoneAt p.now i g) (TakenAt p.now i g) }
{
    let b = p[i];
    if b != 0 {
        return taken(i + 1, b, 0, g);
    }
    if i + 1 < p.len() {
        return taken(i + 2, p[i + 1], g + 1, 56);
    }
    None
}

// Whether there is a take at step i that wants a refill, with a known lookahead g.
pub fn wanted(p: &[u8], i: usize, g: u32) -> bool
    ensures { result ≡ true → (i < length p.now) × (g < count_of (get_or p.now i 0)) }
{
    i < p.len() && g < steps::count(p[i])
}

// At a field: from a step on, with a known lookahead and so many more fields allowed; it goes on as long as no wide field starts.
// (By an index: a take is one step, or two with a refill.)
#[cycle(at_field_in_wide)]
fn at_field(p: &[u8], start: usize, known: u32, more: u32) -> bool
    requires { (start ≤ length p.now) × (known ≤ 56) }
    ensures { result ≡ at_field 0 known more (drop start p.now) }
{
    let mut i = start;
    let mut g = known;
    let mut n = more;
    while i < p.len() {
        let Some(t) = take_at(p, i, g) else {
            return false;
        };
        if t.step == 248 {
            return in_wide(p, t.next, t.left, n);
        }
        if !steps::ends(t.step) || n == 0 {
            return false;
        }
        i = t.next;
        g = t.left;
        n -= 1;
    }
    true
}

// Inside a wide field, after its first 56 bits.
#[cycle(at_field_in_wide)]
fn in_wide(p: &[u8], i: usize, g: u32, n: u32) -> bool
    requires { (i ≤ length p.now) × (g ≤ 56) }
    ensures { result ≡ in_wide 0 g n (drop i p.now) }
{
    if i == p.len() {
        return false;
    }
    let Some(t) = take_at(p, i, g) else {
        return false;
    };
    ends_wide(t.step) && n != 0 && at_field(p, t.next, t.left, n - 1)
}

// Whether bytes are a plan. No plan is longer than 256 bytes: longer ones are told before the recursion starts, which bounds its depth.
pub fn is_plan(p: &[u8]) -> bool
    ensures { result ≡ is_plan p.now }
{
    p.len() <= 256 && at_field(p, 0, 0, 64)
}
