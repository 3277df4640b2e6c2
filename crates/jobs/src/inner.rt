// Messages as whole answers.
ghost use Rattle.bits.specs.Refusals.{length_told};
ghost use Rattle.std.specs.Prelude.{◌≡◌, [], ◌∷◌, ◌++◌, ◌≤◌, length};
ghost use Rattle.digits.specs.Digits.{newline};
ghost use Rattle.print.specs.Print.{whole_of};
ghost use Rattle.jobs.specs.Jobs.{fault_said};
ghost use Rattle.jobs.specs.Answers.{answered_of, answered_out};

use bits::{LONGEST, Refusal};

// Answers a message.
pub fn say(message: &[u8], out: &mut [u8]) -> Result<usize, Refusal>
    ensures answer { length_told result ≡ answered_of message.now (length out.old) }
    ensures memory { out.new ≡ answered_out message.now out.old }
{
    if LONGEST < out.len() {
        return Err(Refusal::TooLong);
    }
    if out.len() < message.len() {
        return Err(Refusal::NoRoom);
    }
    Ok(text::inner::put(message, out, 0))
}

// Answers a message of some words and a number.
pub fn say_numbered(words: &[u8], number: u32, out: &mut [u8]) -> Result<usize, Refusal>
    requires { length words.now ≤ 24 }
    ensures answer { length_told result ≡ answered_of (words.now ++ (whole_of number ++ newline ∷ [])) (length out.old) }
    ensures memory { out.new ≡ answered_out (words.now ++ (whole_of number ++ newline ∷ [])) out.old }
{
    let mut message = [0u8; 35];
    let start = text::inner::put(words, &mut message, 0);
    let end = print::inner::put_whole(&mut message, start, number, b'\n');
    say(&message[..end], out)
}

// Answers the record and the rule at fault.
pub fn say_fault(number: u32, rule: u32, out: &mut [u8]) -> Result<usize, Refusal>
    ensures answer { length_told result ≡ answered_of (fault_said number rule) (length out.old) }
    ensures memory { out.new ≡ answered_out (fault_said number rule) out.old }
{
    let mut words = [0u8; 24];
    let start = text::inner::put(b"record ", &mut words, 0);
    let middle = print::inner::put_whole(&mut words, start, number, b' ');
    let end = text::inner::put(b"rule ", &mut words, middle);
    say_numbered(&words[..end], rule, out)
}
