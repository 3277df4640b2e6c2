// A record's line put at a place of an output, for proved callers.
ghost use Rattle.std.specs.Prelude.{◌≡◌, ◌+◌, ◌/◌, ◌%◌, ◌≤◌, length, nat_abs};
ghost use Rattle.std.proofs.lemmas.List.Edits.{sets};
ghost use Rattle.record.specs.Record.{Fits};
ghost use Rattle.print.specs.Print.{fixed_of};
ghost use Rattle.line.specs.Grammar.{sign};
ghost use Rattle.listing.specs.Listing.{is_negative, magnitude_size, size_of, line_of};

use record::Record;

// How many bytes a magnitude takes before its point.
fn magnitude_size(m: i16) -> usize
    ensures { (result ≡ magnitude_size m) × (result ≤ 11) }
{
    usize::from(m < 0) + print::inner::places(u32::from(m.unsigned_abs()) / 1000)
}

// How many bytes a record's line takes.
pub fn line_size(r: Record) -> usize
    requires { Fits r }
    ensures { result ≡ size_of r }
{
    let star = print::inner::places(r.star);
    let days = print::inner::places((r.date / line::inner::DAY) as u32);
    let limit = print::inner::places(u32::from(r.limit));
    let magnitude = magnitude_size(r.magnitude);
    let error = print::inner::places(u32::from(r.error) / 1000);
    let filter = print::inner::places(u32::from(r.filter));
    star + days + limit + magnitude + error + filter + 20
}

// Puts a magnitude and its comma at a place, and answers the place behind them.
fn put_magnitude(out: &mut [u8], at: usize, m: i16) -> usize
    requires { at + magnitude_size m + 5 ≤ length out.old }
    ensures answer { result ≡ at + magnitude_size m + 5 }
    ensures memory { out.new ≡ sets out.old at (sign (is_negative m) (fixed_of (nat_abs m / 1000) (nat_abs m % 1000) 3)) }
{
    let n = u32::from(m.unsigned_abs());
    let mut mid = at;
    if m < 0 {
        out[at] = b'-';
        mid += 1;
    }
    print::inner::put_fixed(out, mid, n / 1000, n % 1000, 3)
}

// Puts a record's line at a place of an output that has room for it, and answers the place behind it.
pub fn put_line(r: Record, out: &mut [u8], at: usize) -> usize
    requires { Fits r × (at + size_of r ≤ length out.old) }
    ensures answer { result ≡ at + size_of r }
    ensures memory { out.new ≡ sets out.old at (line_of r) }
{
    let at1 = print::inner::put_whole(out, at, r.star, b',');
    let days = (r.date / line::inner::DAY) as u32;
    let decimals = (r.date % line::inner::DAY) as u32;
    let at2 = print::inner::put_fixed(out, at1, days, decimals, 5);
    let at3 = print::inner::put_whole(out, at2, u32::from(r.limit), b',');
    let at4 = put_magnitude(out, at3, r.magnitude);
    let error = u32::from(r.error);
    let at5 = print::inner::put_fixed(out, at4, error / 1000, error % 1000, 3);
    print::inner::put_whole(out, at5, u32::from(r.filter), b'\n')
}
