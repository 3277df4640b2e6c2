// The compiler: from a layout to its plan.
ghost use Rattle.std.specs.Prelude.{◌≡◌, true, [], ◌∷◌, ◌+◌, ◌%◌, ◌≤◌, length, set};
ghost use Rattle.std.proofs.lemmas.List.Edits.{sets};
ghost use Rattle.bits.specs.Refusals.{number_of};
ghost use Rattle.layout.specs.Layout.{item, items_of, good_item, good_items, is_layout};
ghost use Rattle.layout.specs.Plan.{takes, refilled};
ghost use Rattle.layout.specs.Answers.{plan_of, compile_refusal};
ghost use Rattle.layout.specs.Known.{after, known};

use crate::inner::steps;
use bits::{LONGEST, Refusal};

// Where the next step goes, and the known lookahead.
#[derive(Clone, Copy, Debug, PartialEq, Eq)]
pub struct Put {
    pub at: usize,
    pub known: u32,
}

// Stores a byte, if there is room for it.
fn put_byte(out: &mut [u8], at: usize, b: u8)
    ensures { out.new ≡ set out.old at b }
{
    if at < out.len() {
        out[at] = b;
    }
}

// A take, after a refill if it wants one.
fn put_take(out: &mut [u8], p: Put, t: u8) -> Put
    requires { (p.known ≤ 56) × (t % 64 ≤ 56) × (p.at ≤ 65536) }
    ensures answer { result ≡ record { at = p.at + length (refilled p.known (t ∷ [])); known = after p.known t } }
    ensures memory { out.new ≡ sets out.old p.at (refilled p.known (t ∷ [])) }
{
    let at = p.at;
    let g = p.known;
    let n = steps::count(t);
    if g < n {
        put_byte(out, at, 0);
        put_byte(out, at + 1, t);
        return Put {
            at: at + 2,
            known: 56 - n,
        };
    }
    put_byte(out, at, t);
    Put {
        at: at + 1,
        known: g - n,
    }
}

// The steps of a field.
fn put_field(out: &mut [u8], p: Put, kind: u8, width: u8) -> Put
    requires { (p.known ≤ 56) × (kind ≤ 1) × (width ≤ 64) × (p.at ≤ 65530) }
    ensures answer { result ≡ record { at = p.at + length (refilled p.known (takes (item kind width ∷ []))); known = known p.known (takes (item kind width ∷ [])) } }
    ensures memory { out.new ≡ sets out.old p.at (refilled p.known (takes (item kind width ∷ []))) }
{
    let code = 64 * (kind + 1);
    if width <= 56 {
        return put_take(out, p, code + width);
    }
    let q = put_take(out, p, 248);
    put_take(out, q, code + (width - 56))
}

// The steps of a layout, as far as there is room; the answer is their length.
pub fn put_plan(layout: &[u8], out: &mut [u8]) -> usize
    requires { is_layout layout.now ≡ true }
    ensures answer { result ≡ length (plan_of layout.now) }
    ensures memory { out.new ≡ sets out.old 0 (plan_of layout.now) }
{
    let mut p = Put { at: 0, known: 0 };
    for field in layout.chunks_exact(2) {
        p = put_field(out, p, field[0], field[1]);
    }
    p.at
}

// Whether a field has a kind and a width that there is. (Both are the layout's bytes, which the format fixes.)
fn good_field(kind: u8, width: u8) -> bool
    ensures { result ≡ good_item (item kind width) }
{
    kind <= 1 && width <= 64
}

// Whether every field has.
fn good_fields(layout: &[u8]) -> bool
    ensures { result ≡ good_items (items_of layout.now) }
{
    for field in layout.chunks_exact(2) {
        if !good_field(field[0], field[1]) {
            return false;
        }
    }
    true
}

// Whether bytes are a layout.
pub fn is_layout(layout: &[u8]) -> bool
    ensures { result ≡ is_layout layout.now }
{
    if layout.len() % 2 != 0 || 128 < layout.len() {
        return false;
    }
    good_fields(layout)
}

// Tests compiling into `room` bytes: 1, 5 and 8. The length is found by compiling into nothing.
pub fn check_compile(layout: &[u8], room: usize) -> Result<(), Refusal>
    ensures { number_of result ≡ compile_refusal layout.now room }
{
    if LONGEST < layout.len() || LONGEST < room {
        return Err(Refusal::TooLong);
    }
    if !is_layout(layout) {
        return Err(Refusal::BadLayout);
    }
    let mut nothing = [0u8; 1];
    if room < put_plan(layout, &mut nothing) {
        return Err(Refusal::NoRoom);
    }
    Ok(())
}
