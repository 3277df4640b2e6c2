// A strip on standard input, as FITS rows on standard output: all that is written is the rows job's answer to all that was read.
#![tactic(auto)]

ghost use Rattle.jobs.specs.Jobs.{most_taken, rows_answer};

use programs::inner::{Job, LimitedJob};

struct Rows;

impl Job for Rows {
    ghost answer = { rows_answer };

    ghost room = { 106020 };

    fn answer(input: &[u8], out: &mut [u8]) -> usize {
        jobs::rows_answer(input, out).unwrap()
    }
}

impl LimitedJob for Rows {
    ghost most = { most_taken };
}

fn main(rt: HostRuntime) {
    programs::inner::run_limited::<Rows>(
        &mut rt.stdin(),
        &rt,
        &mut [0u8; 65537],
        &mut [0u8; 131072],
    );
}
