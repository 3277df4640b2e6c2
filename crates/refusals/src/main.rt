// Runs the script on standard input and writes an answer line a call: the script of refusals, with answers worked out from the rules.
#![tactic(auto)]

fn main(rt: HostRuntime) {
    script_calls::program::run(&mut rt.stdin(), &rt);
}
