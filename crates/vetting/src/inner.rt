// The rules over the records of a strip, one after the other, for proved callers.
ghost use Rattle.std.specs.Prelude.{◌≡◌, ◌≤◌, length, pos};
ghost use Rattle.bits.specs.Refusals.{longest};
ghost use Rattle.strip.specs.Strip.{records_of, tail_good};
ghost use Rattle.vetting.specs.Verdicts.{rule_told, said, rule_broken, verdict_on};

use crate::{Rule, Verdict};
use bits::Order;
use record::RECORD_BITS;

// The largest filter that is known.
const LAST_FILTER: u64 = 9;

// The first rule that a record breaks, the one above it having the date `above`; none where it keeps all.
fn rule_broken(above: u64, date: u64, limit: u64, error: u64, filter: u64) -> Option<Rule>
    ensures { rule_told result ≡ rule_broken above (record { star = 0; date = date; limit = limit; magnitude = pos 0; error = error; filter = filter }) }
{
    if date < above {
        return Some(Rule::Date);
    }
    if LAST_FILTER < filter {
        return Some(Rule::Filter);
    }
    if error == 0 && limit != 1 {
        return Some(Rule::Error);
    }
    None
}

// The verdict on a strip: one pass, a date kept.
pub fn verdict(strip: &[u8]) -> Verdict
    requires { length strip.now ≤ longest }
    ensures { said result ≡ verdict_on (records_of strip.now) (tail_good strip.now) }
{
    let count = 8 * strip.len() / RECORD_BITS;
    let mut above = 0;
    for i in 0..count {
        let place = RECORD_BITS * i;
        let date = words::inner::whole_field(Order::Big, strip, place + 20, 38);
        let rest = words::inner::short_field(Order::Big, strip, place + 58, 31);
        if let Some(rule) = rule_broken(
            above,
            date,
            rest / 0x4000_0000,
            rest / 16 % 0x400,
            rest % 16,
        ) {
            return Verdict::Broken {
                record: i + 1,
                rule: rule,
            };
        }
        above = date;
    }
    if strip::inner::tail_good(strip) {
        return Verdict::Fine;
    }
    Verdict::BadTail
}
