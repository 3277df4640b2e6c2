// Reading standard input, doing a job on it, writing standard output, and telling on standard error where either fails.
ghost use Rattle.std.specs.Prelude.{◌≡◌, ℕ, List, MatchResult, ◌<◌, ◌≤◌, length, take};

use std::io::Read;
use std::marker::PhantomData;

// A job: all that a program writes for all that it reads, and how many bytes are room for every answer.
pub trait Job {
    ghost answer: { List ℕ → List ℕ };

    ghost room: { ℕ };

    // Puts the answer at the front of an output, and answers its length.
    fn answer(input: &[u8], out: &mut [u8]) -> usize
        requires has_room { room ≤ length out.old }
        requires in_limit { length out.old ≤ 16777216 }
        ensures in_bounds { result ≤ length out.new }
        ensures value { take result out.new ≡ answer input.now };
}

// A job that says the most bytes that it takes.
pub trait LimitedJob: Job {
    ghost most: { ℕ };
}

// A job with the usual limit, whatever it says.
struct Usual<J: Job> {
    of: PhantomData<J>,
}

impl<J: Job> Job for Usual<J> {
    ghost answer = { J.answer };

    ghost room = { J.room };

    fn answer(input: &[u8], out: &mut [u8]) -> usize {
        J::answer(input, out)
    }
}

impl<J: Job> LimitedJob for Usual<J> {
    ghost most = { 65536 };
}

// Does any job, as one that takes 65,536 bytes.
pub fn run<J: Job>(
    stdin: &mut impl Read,
    rt: &(impl Print + Eprint),
    space: &mut [u8],
    out: &mut [u8],
)
    requires most_taken_in_bounds { 65536 < length space.old }
    requires has_room { J.room ≤ length out.old }
    requires in_limit { length out.old ≤ 16777216 }
{
    run_limited::<Usual<J>>(stdin, rt, space, out);
}

// Does a job: all that is written to standard output is its answer to all that is read from standard input, into a space that holds more
// than the job takes.
pub fn run_limited<J: LimitedJob>(
    stdin: &mut impl Read,
    rt: &(impl Print + Eprint),
    space: &mut [u8],
    out: &mut [u8],
)
    requires most_taken_in_bounds { J.most < length space.old }
    requires has_room { J.room ≤ length out.old }
    requires in_limit { length out.old ≤ 16777216 }
{
    let Ok(n) = read_input(stdin, space) else {
        tell_unread(rt);
        return;
    };
    let length = J::answer(&space[..n], out);
    write_answer::<J>(rt, space, n, &out[..length]);
}

// Reads standard input until it ends or the buffer is full, and answers how many bytes were read; where a read fails, how many came before.
// (By a count: each read brings as many bytes as it likes.)
pub fn read_input(stdin: &mut impl Read, buf: &mut [u8]) -> Result<usize, usize>
    ensures { MatchResult result (λ n. n ≤ length buf.old) (λ n. n ≤ length buf.old) }
{
    let mut done = 0;
    while done < buf.len() {
        let Ok(n) = stdin.read(&mut buf[done..]) else {
            return Err(done);
        };
        if n == 0 {
            break;
        }
        done += n;
    }
    Ok(done)
}

// Writes the answer to the first n bytes of a space that holds more than the job takes.
fn write_answer<J: LimitedJob>(rt: &(impl Print + Eprint), space: &[u8], n: usize, some: &[u8])
    requires most_taken_in_bounds { J.most < length space.now }
    requires answer_value { some.now ≡ J.answer (take n space.now) }
{
    write_output(rt, some);
}

// Tells on standard error that a read failed.
pub fn tell_unread(rt: &impl Eprint) {
    tell(rt, "standard input can't be read\n");
}

// Writes to standard output, and tells a failure on standard error.
pub fn write_output(rt: &(impl Print + Eprint), some: &[u8]) {
    if rt.write_all(some).is_ok() {
        return;
    }
    tell(rt, "standard output can't be written\n");
}

// Tells something on standard error.
fn tell(rt: &impl Eprint, message: &str) {
    let _told = rt.eprint(message);
}
