// Layouts, and the plans that they compile to.
#![tactic(auto)]

ghost use Rattle.std.specs.Prelude.{◌≡◌, length};
ghost use Rattle.bits.specs.Refusals.{number_of, length_told};
ghost use Rattle.layout.specs.Answers.{compile_of, compile_out, check_of};

use bits::{LONGEST, Refusal};

pub mod inner;

// Compiles a layout into a lent output, and answers the plan's length. What lies past the plan is untouched, and all of it on a
// refusal: 1 (a slice past the limit), 5 (no layout), 8 (no room for the plan).
//     let compiled = layout::compile(b"\x00\x03\x01\x05", &mut out);
//     expect(b"compile", compiled == Ok(3));
pub fn compile(layout: &[u8], out: &mut [u8]) -> Result<usize, Refusal>
    ensures answer { length_told result ≡ compile_of layout.now (length out.old) }
    ensures memory { out.new ≡ compile_out layout.now out.old }
{
    inner::compiler::check_compile(layout, out.len())?;
    Ok(inner::compiler::put_plan(layout, out))
}

// Tests whether some layout compiles to the plan: 1 (past the limit), 6 (none does).
//     let checked = layout::check(b"\x00\x43\x85");
//     expect(b"check", checked == Ok(()));
pub fn check(plan: &[u8]) -> Result<(), Refusal>
    ensures { number_of result ≡ check_of plan.now }
{
    if LONGEST < plan.len() {
        return Err(Refusal::TooLong);
    }
    if inner::check::is_plan(plan) {
        Ok(())
    } else {
        Err(Refusal::BadPlan)
    }
}
