// Counts as numbers, for proved callers.
ghost use Rattle.std.specs.Prelude.{◌≡◌, ◌*◌, ◌≤◌};
ghost use Rattle.bits.specs.Refusals.{longest};
ghost use Rattle.counts.specs.Counts.{Within, fetch, bits_left, bytes_left, after_refill, after_read, after_eights, passed_over, after_bytes, counts_at};

use crate::Counts;

// How many bytes a refill fetches.
pub fn fetched(unfetched: usize, lookahead: u32) -> usize
    requires { lookahead ≤ 63 }
    ensures { result ≡ fetch unfetched lookahead }
{
    unfetched.min((7 - lookahead / 8) as usize)
}

// The counts after a refill.
pub fn after_refill(len: usize, k: Counts) -> Counts
    requires { Within len k }
    ensures { result ≡ after_refill len k }
{
    let n = fetched(len - k.offset, k.lookahead);
    Counts {
        offset: k.offset + n,
        lookahead: k.lookahead + 8 * (n as u32),
    }
}

// The counts after a read of eight bits.
fn after_eight(len: usize, k: Counts) -> Counts
    requires { Within len k × (8 ≤ bits_left len k) }
    ensures { result ≡ after_read len 8 k }
{
    if k.lookahead < 8 {
        let f = after_refill(len, k);
        return Counts {
            offset: f.offset,
            lookahead: f.lookahead - 8,
        };
    }
    Counts {
        offset: k.offset,
        lookahead: k.lookahead - 8,
    }
}

// The counts after n reads of eight bits.
fn after_eights(len: usize, k: Counts, n: usize) -> Counts
    requires { Within len k × (8 * n ≤ bits_left len k) }
    ensures { result ≡ after_eights len n k }
{
    let mut x = k;
    for _ in 0..n {
        x = after_eight(len, x);
    }
    x
}

// Of m bytes beyond the lookahead, with `partial` bits of a byte held, those that are passed over.
fn passed_over(partial: u32, m: usize) -> usize
    requires { 1 ≤ m }
    ensures { result ≡ passed_over partial m }
{
    if partial == 0 {
        return m;
    }
    1 + 16 * ((m - 1) / 16)
}

// The counts after a read of n bytes.
pub fn after_bytes(len: usize, k: Counts, n: usize) -> Counts
    requires { Within len k × (n ≤ bytes_left len k) × (len ≤ longest) }
    ensures { result ≡ after_bytes len n k }
{
    let held = (k.lookahead / 8) as usize;
    if n <= held {
        return Counts {
            offset: k.offset,
            lookahead: k.lookahead - 8 * (n as u32),
        };
    }
    let beyond = n - held;
    let partial = k.lookahead % 8;
    let over = passed_over(partial, beyond);
    let f = after_refill(
        len,
        Counts {
            offset: k.offset + over,
            lookahead: partial,
        },
    );
    after_eights(len, f, beyond - over)
}

// The counts at a place, with the fewest bits held.
pub fn counts_at(place: usize) -> Counts
    requires { place ≤ 134217728 }
    ensures { result ≡ counts_at place }
{
    let offset = (place + 7) / 8;
    Counts {
        offset: offset,
        lookahead: (8 * offset - place) as u32,
    }
}
