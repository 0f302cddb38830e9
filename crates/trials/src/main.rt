// The script on standard input is answered on standard output, to its end.
#![tactic(auto)]

fn main(rt: HostRuntime) {
    jobs::run(rt.stdin(), rt.stdout(), rt.stderr());
}
