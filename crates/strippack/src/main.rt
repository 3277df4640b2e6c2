// A text on standard input, as a strip on standard output: all that is written is the pack job's answer to all that was read.
#![tactic(auto)]

ghost use Rattle.jobs.specs.Jobs.{most_taken, pack_answer};

use programs::inner::{Job, LimitedJob};

struct Pack;

impl Job for Pack {
    ghost answer = { pack_answer };

    ghost room = { 28024 };

    fn answer(input: &[u8], out: &mut [u8]) -> usize {
        jobs::pack_answer(input, out).unwrap()
    }
}

impl LimitedJob for Pack {
    ghost most = { most_taken };
}

fn main(rt: HostRuntime) {
    programs::inner::run_limited::<Pack>(
        &mut rt.stdin(),
        &rt,
        &mut [0u8; 65537],
        &mut [0u8; 65536],
    );
}
