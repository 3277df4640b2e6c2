// A strip on standard input, judged on standard output: all that is written is the check job's answer to all that was read.
#![tactic(auto)]

ghost use Rattle.jobs.specs.Jobs.{most_taken, check_answer};

use programs::inner::{Job, LimitedJob};

struct Check;

impl Job for Check {
    ghost answer = { check_answer };

    ghost room = { 34 };

    fn answer(input: &[u8], out: &mut [u8]) -> usize {
        jobs::check_answer(input, out).unwrap()
    }
}

impl LimitedJob for Check {
    ghost most = { most_taken };
}

fn main(rt: HostRuntime) {
    programs::inner::run_limited::<Check>(&mut rt.stdin(), &rt, &mut [0u8; 65537], &mut [0u8; 64]);
}
