// A strip on standard input, as text on standard output: all that is written is the list job's answer to all that was read.
#![tactic(auto)]

ghost use Rattle.jobs.specs.Jobs.{most_taken, list_answer};

use programs::inner::{Job, LimitedJob};

struct List;

impl Job for List {
    ghost answer = { list_answer };

    ghost room = { 241530 };

    fn answer(input: &[u8], out: &mut [u8]) -> usize {
        jobs::list_answer(input, out).unwrap()
    }
}

impl LimitedJob for List {
    ghost most = { most_taken };
}

fn main(rt: HostRuntime) {
    programs::inner::run_limited::<List>(
        &mut rt.stdin(),
        &rt,
        &mut [0u8; 65537],
        &mut [0u8; 262144],
    );
}
