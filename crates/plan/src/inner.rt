// Running plans that are known to be plans, for proved callers: checked once, run as often as one likes.
ghost use Rattle.std.specs.Prelude.{◌≡◌, true, cond, IfSome, MatchOption, [], ◌∷◌, ◌+◌, ◌-◌, ◌*◌, ◌^◌, ◌<◌, ◌≤◌, length, take};
ghost use Rattle.std.proofs.lemmas.List.Edits.{sets};
ghost use Rattle.bits.specs.Refusals.{longest, done, number_of};
ghost use Rattle.bits.specs.Field.{field};
ghost use Rattle.reader.specs.Cursor.{place as place_of};
ghost use Rattle.layout.specs.Layout.{items_of, is_layout, bits_of};
ghost use Rattle.layout.specs.Bytes.{bytes_of};
ghost use Rattle.layout.specs.Plan.{ends, code};
ghost use Rattle.layout.specs.Check.{is_plan};
ghost use Rattle.layout.specs.Take.{Ready};
ghost use Rattle.plan.specs.Run.{pattern_of, values_of, fields_of, run_refusal, Clear};

use bits::{LONGEST, Order, Refusal};
use reader::Cursor;

// Tests a run into `room` results: 1, 2, 6, 8 and 9.
pub fn check_run(
    cursor: Cursor,
    order: Order,
    src: &[u8],
    plan: &[u8],
    room: usize,
) -> Result<(), Refusal>
    ensures { number_of result ≡ run_refusal order src.now cursor plan.now room }
{
    if LONGEST < plan.len() {
        return Err(Refusal::TooLong);
    }
    reader::inner::check(order, src, cursor)?;
    if !layout::inner::check::is_plan(plan) {
        return Err(Refusal::BadPlan);
    }
    let size = layout::inner::size::measure(plan);
    if room < size.fields {
        return Err(Refusal::NoRoom);
    }
    if reader::inner::bits_left(src, cursor) < size.bits {
        return Err(Refusal::TooFew);
    }
    Ok(())
}

// ---- from a plan to its layout

// Puts the bytes of a field where a step ends it; the answer is where the next field goes.
fn put_item(layout: &mut [u8], at: usize, b: u8, w: u8) -> usize
    requires { (ends b ≡ true → at + 2 ≤ length layout.old) × (at ≤ 128) }
    ensures answer { result ≡ cond (ends b) (at + 2) at }
    ensures memory { layout.new ≡ cond (ends b) (sets layout.old at ((code b - 1) ∷ w ∷ [])) layout.old }
{
    if layout::inner::steps::ends(b) {
        layout[at] = b / 64 - 1;
        layout[at + 1] = w;
        return at + 2;
    }
    at
}

// How many bits of the next field are passed after a step.
fn next_open(b: u8, w: u8) -> u8
    ensures { result ≡ cond (ends b) 0 w }
{
    if layout::inner::steps::ends(b) { 0 } else { w }
}

// Writes the layout that compiles to a plan; the answer is its length.
pub fn decode(plan: &[u8], layout: &mut [u8]) -> usize
    requires { (is_plan plan.now ≡ true) × (128 ≤ length layout.old) }
    ensures answer { result ≡ 2 * length (fields_of plan.now) }
    ensures memory { layout.new ≡ sets layout.old 0 (bytes_of (fields_of plan.now)) }
{
    let mut open: u8 = 0;
    let mut at: usize = 0;
    for &b in plan {
        let w = open + b % 64;
        at = put_item(layout, at, b, w);
        open = next_open(b, w);
    }
    at
}

// ---- the fields of a layout

// The 64 bits of a field of a kind, which is the layout's byte.
fn pattern(kind: u8, w: u32, v: u64) -> u64
    requires { (w ≤ 64) × (v < 2 ^ w) }
    ensures { result ≡ pattern_of kind w v }
{
    if kind == 1 {
        sign::inner::widened(v, w)
    } else {
        v
    }
}

// A field by its place; `inside` tells that 64 bits are there from its end on, and no load tests for the end.
fn field_in(inside: bool, order: Order, src: &[u8], place: usize, width: u32) -> u64
    requires { (width ≤ 64) × (place + width ≤ 8 * length src.now) × (length src.now ≤ longest) × (inside ≡ true → place + width + 64 ≤ 8 * length src.now) }
    ensures { result ≡ field order src.now place width }
{
    if inside {
        if width <= 56 {
            return words::inner::whole_field(order, src, place, width);
        }
        let more = width - 56;
        let low = words::inner::whole_field(order, src, place, 56);
        let high = words::inner::whole_field(order, src, place + 56, more);
        return bits::inner::join_bits(order, 56, more, low, high);
    }
    words::inner::field_at(order, src, place, width)
}

// Reads every field of a layout from a place on, each by its place; the answer is the place where the last field ends.
pub fn fields(order: Order, src: &[u8], layout: &[u8], place: usize, results: &mut [u64]) -> usize
    requires { (length src.now ≤ longest) × (is_layout layout.now ≡ true) × (place + bits_of (items_of layout.now) ≤ 8 * length src.now) × (length (items_of layout.now) ≤ length results.old) }
    ensures answer { result ≡ place + bits_of (items_of layout.now) }
    ensures memory { results.new ≡ sets results.old 0 (values_of order src.now place (items_of layout.now)) }
{
    let inside = place + 32 * layout.len() + 64 <= 8 * src.len();
    let mut at = place;
    for (j, field) in layout.chunks_exact(2).enumerate() {
        let w = field[1] as u32;
        results[j] = pattern(field[0], w, field_in(inside, order, src, at, w));
        at += w as usize;
    }
    at
}

// Runs a plan from a place on: decodes it, and reads its fields.
pub fn run_plan(order: Order, src: &[u8], plan: &[u8], place: usize, results: &mut [u64]) -> usize
    requires { (length src.now ≤ longest) × (is_plan plan.now ≡ true) × (place + bits_of (fields_of plan.now) ≤ 8 * length src.now) × (length (fields_of plan.now) ≤ length results.old) }
    ensures answer { result ≡ place + bits_of (fields_of plan.now) }
    ensures memory { results.new ≡ sets results.old 0 (values_of order src.now place (fields_of plan.now)) }
{
    let mut space = [0u8; 128];
    let n = decode(plan, &mut space);
    fields(order, src, &space[..n], place, results)
}

// ---- in one go

// What one go through a plan gives: how many fields were read, and where the last one ends.
#[derive(Clone, Copy, Debug, PartialEq, Eq)]
pub struct Narrow {
    pub fields: usize,
    pub end: usize,
}

// Where the take of step i stands, behind its refill if there is one, and the bits known there; none where a refill is not wanted.
fn ready(plan: &[u8], i: usize, g: u32) -> Option<(usize, u32)>
    requires { (i < length plan.now) × (length plan.now ≤ 256) × (g ≤ 56) }
    ensures { IfSome result (λ r. Ready plan.now i g r.0 r.1) }
{
    if plan[i] != 0 {
        return Some((i, g));
    }
    if layout::inner::check::wanted(plan, i + 1, g) {
        Some((i + 1, 56))
    } else {
        None
    }
}

// Checks a plan and reads its fields in one go, if none is wide. (By an index: a field is one step, or two with a refill.)
fn read_narrow(
    order: Order,
    src: &[u8],
    plan: &[u8],
    place: usize,
    values: &mut [u64],
) -> Option<Narrow>
    requires { (length src.now ≤ longest) × (length plan.now ≤ 256) × (place + 64 * length plan.now + 64 ≤ 8 * length src.now) × (64 ≤ length values.old) }
    ensures answer { IfSome result (λ r. (is_plan plan.now ≡ true) × (r.fields ≡ length (fields_of plan.now)) × (r.end ≡ place + bits_of (fields_of plan.now)) × (r.end ≤ place + 64 * length plan.now)) }
    ensures memory { IfSome result (λ r. values.new ≡ sets values.old 0 (values_of order src.now place (fields_of plan.now))) }
{
    let mut at = place;
    let mut i: usize = 0;
    let mut j: usize = 0;
    let mut g: u32 = 0;
    while i < plan.len() {
        let (k, known) = ready(plan, i, g)?;
        let b = plan[k];
        let w = layout::inner::steps::count(b);
        if known < w || j == 64 || !layout::inner::steps::ends(b) {
            return None;
        }
        values[j] = pattern(b / 64 - 1, w, words::inner::whole_field(order, src, at, w));
        at += w as usize;
        i = k + 1;
        g = known - w;
        j += 1;
    }
    Some(Narrow { fields: j, end: at })
}

// Runs a plan in one go, if no field is wide and there is room; the answer is where the last field ends. Else nothing is put.
fn run_narrow(
    order: Order,
    src: &[u8],
    plan: &[u8],
    place: usize,
    results: &mut [u64],
) -> Option<usize>
    requires { (length src.now ≤ longest) × (length plan.now ≤ 256) × (place + 64 * length plan.now + 64 ≤ 8 * length src.now) }
    ensures answer { IfSome result (λ end. (is_plan plan.now ≡ true) × (length (fields_of plan.now) ≤ length results.old) × (end ≡ place + bits_of (fields_of plan.now)) × (end ≤ place + 64 * length plan.now)) }
    ensures memory { MatchOption result (results.new ≡ results.old) (λ end. results.new ≡ sets results.old 0 (values_of order src.now place (fields_of plan.now))) }
{
    let mut values = [0u64; 64];
    let read = read_narrow(order, src, plan, place, &mut values)?;
    let n = read.fields;
    if results.len() < n {
        return None;
    }
    results[..n].copy_from_slice(&values[..n]);
    Some(read.end)
}

// The place of a cursor from where a plan can run in one go: the plan is short, and the slice goes on behind its fields.
fn clear_place(cursor: Cursor, order: Order, src: &[u8], plan: &[u8]) -> Option<usize>
    ensures { IfSome result (λ place. Clear order src.now cursor plan.now place) }
{
    if 256 < plan.len() || reader::inner::check(order, src, cursor).is_err() {
        return None;
    }
    let place = reader::inner::place_of(src, cursor);
    if reader::inner::stop(src, cursor) < place + 64 * plan.len() + 64 {
        return None;
    }
    Some(place)
}

// Runs a plan from a cursor on in one go, if no field is wide, nothing is refused, and the slice goes on behind it; the answer is where
// the last field ends. Else nothing is put. (One call for each order, so that the compiler leaves the loop out of line and splits it.)
pub fn run_quick(
    cursor: Cursor,
    order: Order,
    src: &[u8],
    plan: &[u8],
    results: &mut [u64],
) -> Option<usize>
    ensures answer { IfSome result (λ end. (run_refusal order src.now cursor plan.now (length results.old) ≡ done) × (end ≡ place_of cursor + bits_of (fields_of plan.now))) }
    ensures memory { MatchOption result (results.new ≡ results.old) (λ end. results.new ≡ sets results.old 0 (values_of order src.now (place_of cursor) (fields_of plan.now))) }
{
    let place = clear_place(cursor, order, src, plan)?;
    match order {
        Order::Little => run_narrow(Order::Little, src, plan, place, results),
        Order::Big => run_narrow(Order::Big, src, plan, place, results),
    }
}
