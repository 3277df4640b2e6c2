// Runs the script on standard input and writes an answer line a call: the oracle's script, with the Rust's answers as expected output.
#![tactic(auto)]

fn main(rt: HostRuntime) {
    script_calls::program::run(&mut rt.stdin(), &rt);
}
