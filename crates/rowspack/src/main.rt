// FITS rows on standard input, as a strip on standard output: all that is written is the row pack job's answer to all that was read.
#![tactic(auto)]

ghost use Rattle.jobs.specs.Jobs.{most_taken, pack_rows_answer};

use programs::inner::{Job, LimitedJob};

struct PackRows;

impl Job for PackRows {
    ghost answer = { pack_rows_answer };

    ghost room = { 40495 };

    fn answer(input: &[u8], out: &mut [u8]) -> usize {
        jobs::pack_rows_answer(input, out).unwrap()
    }
}

impl LimitedJob for PackRows {
    ghost most = { most_taken };
}

fn main(rt: HostRuntime) {
    programs::inner::run_limited::<PackRows>(
        &mut rt.stdin(),
        &rt,
        &mut [0u8; 65537],
        &mut [0u8; 65536],
    );
}
