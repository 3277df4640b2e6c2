// A line and its six numbers read from a place of a text, for proved callers.
ghost use Rattle.std.specs.Prelude.{◌≡◌, ◌+◌, ◌%◌, ◌^◌, ◌≤◌, true, length, drop};
ghost use Rattle.digits.specs.Reading.{most, Stands};
ghost use Rattle.record.specs.Record.{depth};
ghost use Rattle.line.specs.Date.{units_of};
ghost use Rattle.line.specs.Reading.{date_at, thousandths_at, complement, magnitude_at, from_least, LineStands};

use digits::inner::PartAt;
use record::Record;
use record::inner::Numbers;

// The units of 10^-5 day in a day.
pub const DAY: u64 = 100_000;

// How far below zero magnitudes go.
const DEPTH: u64 = 0x8000;

// The record of the line at a place, if one stands there, and the place behind what was read.
#[derive(Clone, Copy, Debug, PartialEq, Eq)]
pub struct LineAt {
    pub record: Option<Record>,
    pub next: usize,
}

// The date rule: the nearest units of whole days and of the number that `count` decimals spell, halves upward.
fn units(whole: u64, decimals: u64, count: usize) -> u64
    requires { (whole ≤ most) × (decimals ≤ most) × (count ≤ 12) }
    ensures { result ≡ units_of whole decimals count }
{
    if count <= 5 {
        return DAY * whole + decimals;
    }
    let unit = 10u64.pow((count - 5) as u32);
    DAY * whole + (decimals + unit / 2) / unit
}

// The date at a place, and its comma.
fn date_at(src: &[u8], at: usize) -> PartAt
    requires { at ≤ length src.now }
    ensures { Stands src.now result (date_at (drop at src.now)) }
{
    let whole = digits::inner::whole_at(src, at, b'.');
    let mid = whole.next;
    let decimals = digits::inner::decimals_at(src, mid, 5, 12, b',');
    PartAt {
        value: units(whole.value, decimals.value, decimals.count),
        count: 0,
        next: decimals.next,
    }
}

// The number with three decimals at a place, and its comma, in thousandths.
fn thousandths_at(src: &[u8], at: usize) -> PartAt
    requires { at ≤ length src.now }
    ensures { Stands src.now result (thousandths_at (drop at src.now)) }
{
    let whole = digits::inner::whole_at(src, at, b'.');
    let mid = whole.next;
    let decimals = digits::inner::decimals_at(src, mid, 3, 3, b',');
    PartAt {
        value: 1000 * whole.value + decimals.value,
        count: 0,
        next: decimals.next,
    }
}

// The distance of minus n thousandths from the least magnitude; minus zero, and what lies too far below zero, fits nowhere.
fn below_zero(n: u64) -> u64
    ensures { result ≡ (complement true n + depth) % 2 ^ 64 }
{
    match n {
        1..=DEPTH => DEPTH - n,
        _ => DEPTH + digits::inner::MOST,
    }
}

// The magnitude at a place, and its comma, as its distance from the least.
fn distance_at(src: &[u8], at: usize) -> PartAt
    requires { at ≤ length src.now }
    ensures { Stands src.now result (from_least (magnitude_at (drop at src.now))) }
{
    if digits::inner::starts_at(src, at, b'-') {
        let number = thousandths_at(src, at + 1);
        return PartAt {
            value: below_zero(number.value),
            count: 0,
            next: number.next,
        };
    }
    let number = thousandths_at(src, at);
    PartAt {
        value: DEPTH + number.value,
        count: 0,
        next: number.next,
    }
}

// The magnitude at a place, and its comma, in two's complement of 64 bits.
fn magnitude_at(src: &[u8], at: usize) -> PartAt
    requires { at ≤ length src.now }
    ensures { Stands src.now result (magnitude_at (drop at src.now)) }
{
    let distance = distance_at(src, at);
    PartAt {
        value: distance.value.wrapping_sub(DEPTH),
        count: 0,
        next: distance.next,
    }
}

// The line at a place of a text.
pub fn line_at(src: &[u8], at: usize) -> LineAt
    requires { at ≤ length src.now }
    ensures { LineStands src.now at result }
{
    let star = digits::inner::whole_at(src, at, b',');
    let behind_star = star.next;
    let date = date_at(src, behind_star);
    let behind_date = date.next;
    let limit = digits::inner::whole_at(src, behind_date, b',');
    let behind_limit = limit.next;
    let magnitude = magnitude_at(src, behind_limit);
    let behind_magnitude = magnitude.next;
    let error = thousandths_at(src, behind_magnitude);
    let behind_error = error.next;
    let filter = digits::inner::whole_at(src, behind_error, b'\n');
    let six = Numbers {
        star: star.value,
        date: date.value,
        limit: limit.value,
        magnitude: magnitude.value,
        error: error.value,
        filter: filter.value,
    };
    LineAt {
        record: if six.fit() {
            Some(six.to_record())
        } else {
            None
        },
        next: filter.next,
    }
}
