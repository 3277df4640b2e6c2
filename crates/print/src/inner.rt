// Numbers as digits at a place of an output, for proved callers: all of 32 bits, where a division is cheap.
ghost use Rattle.std.specs.Prelude.{◌≡◌, [], ◌∷◌, ◌++◌, ◌+◌, ◌<◌, ◌≤◌, length};
ghost use Rattle.std.proofs.lemmas.List.Edits.{sets};
ghost use Rattle.print.specs.Print.{digits_of, places as places_of, whole_of, fixed_of};

// How many digits a number takes.
pub fn places(n: u32) -> usize
    ensures { (result ≡ places_of n) × (result ≤ 10) }
{
    n.max(1).ilog10() as usize + 1
}

// Puts the last k digits of a number at a place.
fn put_digits(out: &mut [u8], at: usize, n: u32, k: usize)
    requires { at + k ≤ length out.old }
    ensures { out.new ≡ sets out.old at (digits_of k n) }
{
    let mut rest = n;
    for i in (at..at + k).rev() {
        out[i] = b'0' + (rest % 10) as u8;
        rest /= 10;
    }
}

// Puts the last k digits of a number and a byte behind them, and answers the place behind that.
fn put_part(out: &mut [u8], at: usize, n: u32, k: usize, end: u8) -> usize
    requires { at + k < length out.old }
    ensures answer { result ≡ at + k + 1 }
    ensures memory { out.new ≡ sets out.old at (digits_of k n ++ end ∷ []) }
{
    put_digits(out, at, n, k);
    out[at + k] = end;
    at + k + 1
}

// Puts a whole part and a byte behind it.
pub fn put_whole(out: &mut [u8], at: usize, n: u32, end: u8) -> usize
    requires { at + places_of n < length out.old }
    ensures answer { result ≡ at + places_of n + 1 }
    ensures memory { out.new ≡ sets out.old at (whole_of n ++ end ∷ []) }
{
    let k = places(n);
    put_part(out, at, n, k, end)
}

// Puts a whole part, a point, k decimals and a comma.
pub fn put_fixed(out: &mut [u8], at: usize, whole: u32, decimals: u32, k: usize) -> usize
    requires { at + places_of whole + k + 1 < length out.old }
    ensures answer { result ≡ at + places_of whole + k + 2 }
    ensures memory { out.new ≡ sets out.old at (fixed_of whole decimals k) }
{
    let mid = put_whole(out, at, whole, b'.');
    put_part(out, mid, decimals, k, b',')
}
